// The sample rates with their tables; the wanted note of a scale, and the rate toward it.

#![tactic(auto)]

ghost use Rattle.std.specs.Prelude.{◌≡◌, get_or, ℕ, ◌+◌, ◌-◌, ◌%◌, ◌≤◌, ◌<◌, MatchOption};
ghost use Rattle.std.proofs.Math.Option.{some};
ghost use Rattle.whole.specs.Tests.{Decides};
ghost use Rattle.rules.specs.Rules.{table, first_note, notes, note_period, of_scale, wanted, note_of, wanted_period, raw_rate, raw_toward, smooth_rate, smooth_kept, least_period, greatest_period, greatest_rate, goal_of, goal, tuned};
ghost use Rattle.rules.specs.Facts.{SampleRate, ForceIn, OfTable, ToneIn};
ghost use Rattle.notes.specs.Around.{OfRate, Longer, LastOfScale, FirstOfScale};

use rules::{
    CD_FIRST_NOTE, CD_NOTES, CD_RATE, FILM_FIRST_NOTE, FILM_NOTES, FILM_RATE, FRESH_RATE,
    GREATEST_RATE, Goal, InForce, LEAST_RATE, SCALE_MODE, Smoothed, Tone,
};

// One of the two sample rates.
pub fn known_rate(hertz: u64) -> bool
    ensures { Decides result (SampleRate hertz) }
{
    hertz == u64::from(CD_RATE) || hertz == u64::from(FILM_RATE)
}

// Notes 32 to 100 at 44,100.
const CD_PERIODS: [u32; CD_NOTES] = [
    217471, 205265, 193745, 182871, 172607, 162919, 153775, 145145, 136998, 129309, 122052, 115201,
    108736, 102633, 96872, 91435, 86303, 81460, 76888, 72572, 68499, 64655, 61026, 57601, 54368,
    51316, 48436, 45718, 43152, 40730, 38444, 36286, 34250, 32327, 30513, 28800, 27184, 25658,
    24218, 22859, 21576, 20365, 19222, 18143, 17125, 16164, 15256, 14400, 13592, 12829, 12109,
    11429, 10788, 10182, 9611, 9072, 8562, 8082, 7628, 7200, 6796, 6415, 6055, 5715, 5394, 5091,
    4805, 4536, 4281,
];

// Notes 33 to 102 at 48,000.
const FILM_PERIODS: [u32; FILM_NOTES] = [
    223418, 210879, 199043, 187872, 177327, 167375, 157981, 149114, 140745, 132845, 125389, 118352,
    111709, 105439, 99521, 93936, 88664, 83687, 78990, 74557, 70372, 66423, 62695, 59176, 55855,
    52720, 49761, 46968, 44332, 41844, 39495, 37278, 35186, 33211, 31347, 29588, 27927, 26360,
    24880, 23484, 22166, 20922, 19748, 18639, 17593, 16606, 15674, 14794, 13964, 13180, 12440,
    11742, 11083, 10461, 9874, 9320, 8797, 8303, 7837, 7397, 6982, 6590, 6220, 5871, 5541, 5230,
    4937, 4660, 4398, 4151,
];

// The table of a sample rate: its first note, and the period of each note from there on.
#[derive(Clone, Copy)]
struct Table {
    hertz: u32,
    first: u32,
    periods: &'static [u32],
}

// A note whose number mod 12 is c is of the scale.
#[tactic(auto, unfolding(rules::specs::Rules::of_scale))]
fn of_scale(scale: u32, c: u32) -> bool
    requires { c < 12 }
    ensures { (n : ℕ) → n % 12 ≡ c → result ≡ of_scale scale n }
{
    (scale >> c) % 2 == 1
}

// The same of the note below, and of the note above. (A remainder at each note would be vectorised, at the price of sixteen notes.)
fn below(c: u32) -> u32
    requires { c < 12 }
    ensures { (result < 12) × ((result + 1) % 12 ≡ c) }
{
    if c == 0 { 11 } else { c - 1 }
}

fn above(c: u32) -> u32
    requires { c < 12 }
    ensures { result ≡ (c + 1) % 12 }
{
    if c == 11 { 0 } else { c + 1 }
}

impl Table {
    // The table of this rate.
    fn at(hertz: u32) -> Table
        ensures { (result.hertz ≡ hertz) × (result.first ≡ first_note hertz) × (result.periods.now ≡ table hertz) }
    {
        if hertz == CD_RATE {
            Table {
                hertz,
                first: CD_FIRST_NOTE,
                periods: &CD_PERIODS,
            }
        } else {
            Table {
                hertz,
                first: FILM_FIRST_NOTE,
                periods: &FILM_PERIODS,
            }
        }
    }

    // How many notes have a longer period: they are its first.
    fn longer(self, period: u32) -> usize
        requires { OfRate self }
        ensures { Longer self.hertz period result }
    {
        self.periods.partition_point(|p| *p > period)
    }

    // The place of the last note of the scale among its first k.
    fn last_of_scale(self, scale: u32, k: usize) -> Option<usize>
        requires { OfRate self × (k ≤ notes self.hertz) }
        ensures { MatchOption result (LastOfScale self.hertz scale k 0) (λ j. LastOfScale self.hertz scale k (j + 1)) }
    {
        let mut c = (self.first + k as u32) % 12;
        for place in (0..k).rev() {
            c = below(c);
            if of_scale(scale, c) {
                return Some(place);
            }
        }
        None
    }

    // The place of the first note of the scale after its first k.
    fn first_of_scale(self, scale: u32, k: usize) -> Option<usize>
        requires { OfRate self × (k ≤ notes self.hertz) }
        ensures { MatchOption result (FirstOfScale self.hertz scale k (notes self.hertz)) (λ j. (j < notes self.hertz) × FirstOfScale self.hertz scale k j) }
    {
        let mut c = (self.first + k as u32) % 12;
        for place in k..self.periods.len() {
            if of_scale(scale, c) {
                return Some(place);
            }
            c = above(c);
        }
        None
    }

    // The place of the wanted note.
    fn nearest(self, scale: u32, period: u32) -> usize
        requires { OfRate self × (1 ≤ scale) × (scale ≤ 4095) }
        ensures { (result < notes self.hertz) × (wanted self.hertz scale period ≡ some (first_note self.hertz + result)) }
    {
        let k = self.longer(period);
        let below = self.last_of_scale(scale, k);
        let above = self.first_of_scale(scale, k);
        match (below, above) {
            (Some(low), Some(high)) => {
                if period - self.periods[high] <= self.periods[low] - period {
                    high
                } else {
                    low
                }
            }
            (Some(low), None) => low,
            (None, Some(high)) => high,
            (None, None) => unreachable!(),
        }
    }

    // The goal of this period by the scale. Its raw rate is never out of its bounds.
    fn goal(self, scale: u32, period: u32) -> Goal
        requires { OfRate self × (1 ≤ scale) × (scale ≤ 4095) × (least_period ≤ period) × (period ≤ greatest_period) }
        ensures { result ≡ goal_of self.hertz period (note_of (wanted self.hertz scale period)) }
    {
        let k = self.nearest(scale, period);
        Goal {
            note: self.first + k as u32,
            raw: raw_rate(period, self.periods[k]),
        }
    }
}

// period x 65536 / wanted, nearest, halves up.
#[tactic(auto, unfolding(rules::specs::Rules::raw_rate))]
pub fn raw_rate(period: u32, wanted: u32) -> u32
    requires { (0 < wanted) × (raw_rate period wanted ≤ 4294967295) }
    ensures { result ≡ raw_rate period wanted }
{
    let p = u64::from(period);
    let w = u64::from(wanted);
    ((2 * (p * 65536) + w) / (2 * w)) as u32
}

// The wanted period: 0 where there is no wanted note, or one outside the table.
pub fn wanted_period(hertz: u32, note: u32) -> u32
    requires { SampleRate hertz }
    ensures { result ≡ wanted_period hertz note }
{
    let t = Table::at(hertz);
    if note < t.first {
        return 0;
    }
    t.periods
        .get((note - t.first) as usize)
        .copied()
        .unwrap_or(0)
}

// The raw rate: 65536 without a wanted period, or where it is not from a half to two.
fn raw_toward(period: u32, wanted: u32) -> u32
    requires { (period ≤ greatest_period) × ((0 < wanted) → (least_period ≤ wanted)) }
    ensures { result ≡ raw_toward period wanted }
{
    if wanted == 0 {
        return FRESH_RATE;
    }
    let raw = raw_rate(period, wanted);
    if LEAST_RATE <= raw && raw <= GREATEST_RATE {
        raw
    } else {
        FRESH_RATE
    }
}

// (decay x rate + (256 - decay) x raw + kept) / 256, rounded down, and what rounding cut off.
fn smooth(decay: u32, rate: u32, kept: u32, raw: u32) -> Smoothed
    requires { (decay ≤ 255) × (rate ≤ greatest_rate) × (kept ≤ 255) × (raw ≤ greatest_rate) }
    ensures { (result.rate ≡ smooth_rate decay rate kept raw) × (result.kept ≡ smooth_kept decay rate kept raw) }
{
    let total = decay * rate + (256 - decay) * raw + kept;
    Smoothed {
        rate: total / 256,
        kept: total % 256,
    }
}

// The goal of this period by the key held.
fn goal_of_key(hertz: u32, key: u32, period: u32) -> Goal
    requires { SampleRate hertz × (period ≤ greatest_period) }
    ensures { result ≡ goal_of hertz period key }
{
    Goal {
        note: key,
        raw: raw_toward(period, wanted_period(hertz, key)),
    }
}

// The goal of a tracking step that found this period.
fn goal(f: InForce, period: u32) -> Goal
    requires { ForceIn f × (least_period ≤ period) × (period ≤ greatest_period) }
    ensures { result ≡ goal f period }
{
    if f.settings.mode == SCALE_MODE {
        Table::at(f.hertz).goal(f.settings.scale, period)
    } else {
        goal_of_key(f.hertz, f.key, period)
    }
}

// The tone after a tracking step that found this period.
pub fn tune(f: InForce, t: Tone, period: u32) -> Tone
    requires { ForceIn f × ToneIn t × (least_period ≤ period) × (period ≤ greatest_period) }
    ensures { result ≡ tuned f t period }
{
    let g = goal(f, period);
    let s = smooth(f.settings.decay, t.rate, t.kept, g.raw);
    Tone {
        period,
        note: g.note,
        rate: s.rate,
        kept: s.kept,
    }
}
