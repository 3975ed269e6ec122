// One sample after the other: what a block does.

#![tactic(auto)]

ghost use Rattle.std.specs.Prelude.{◌≡◌, true, false, ◌+◌, ◌%◌, ◌≤◌, ◌<◌, pos, length, get_or, set, take, drop};
ghost use Rattle.rules.specs.Rules.{eighth_sample, longest_block, kept_eighths};
ghost use Rattle.rules.specs.Facts.{ForceIn, value_at};
ghost use Rattle.ages.specs.Ages.{past, Samples};
ghost use Rattle.passing.specs.Distances.{Long};
ghost use Rattle.steps.specs.Eighths.{Eighths, Heard};
ghost use Rattle.steps.specs.Running.{take_so_far, tones, Long512, Ready, Room, Did, Ran, Begins, Ended};
ghost use Rattle.steps.specs.Going.{Going};

use pitch::Pitch;
use rules::{EIGHTH_LAGS, InForce, LAST_EIGHTH_LAG, LONGEST_BLOCK, OPEN_EIGHTHS};

// A take as far as it has come within a block: its sample count, the eighth-rate samples that are stored, how far the read position lies
// behind, the cycles repeated and dropped in the block, and the pitch.
#[derive(Clone, Copy)]
pub struct Progress {
    pub count: u32,
    pub places: usize,
    pub behind: u32,
    pub repeated: u32,
    pub dropped: u32,
    pub pitch: Pitch,
}

// Silence goes on: the sample is 0, and so are those that the sums look at.
fn still_silent(x: i16, e: &[u64; EIGHTH_LAGS]) -> bool
    ensures { result ≡ true → (x ≡ pos 0) × (get_or e.now 108 0 ≡ 0) }
{
    x == 0 && e[LAST_EIGHTH_LAG] == 0
}

// The eighth-rate sample is made and stored, and the sums at eighth rate are brought up to it.
fn eighth(
    y: &mut [i16; OPEN_EIGHTHS],
    places: usize,
    e: &mut [u64; EIGHTH_LAGS],
    h: &mut [i64; EIGHTH_LAGS],
    s: &[i16],
)
    requires { (8 ≤ length s.now) × Samples s.now × (kept_eighths ≤ places) × (places < 288) × Eighths y.old places e.old h.old }
    ensures { (y.new ≡ set y.old places (eighth_sample (past s.now))) × Eighths y.new (places + 1) e.new h.new }
{
    let x = ages::eighth_sample(s);
    y[places] = x;
    if still_silent(x, e) {
        return;
    }
    sums::next_all(e, h, 2, &y[..places + 1]);
}

// An eighth-rate sample is made after samples 8, 16, 24, ..: sample number n stands last. How many are stored then.
fn hear(
    y: &mut [i16; OPEN_EIGHTHS],
    places: usize,
    e: &mut [u64; EIGHTH_LAGS],
    h: &mut [i64; EIGHTH_LAGS],
    n: u32,
    s: &[i16],
) -> usize
    requires { (8 ≤ length s.now) × Samples s.now × (kept_eighths ≤ places) × (n % 8 ≡ 0 → places < 288) × Eighths y.old places e.old h.old }
    ensures { Heard n (past s.now) y.old places y.new result e.new h.new }
{
    if n % 8 == 0 {
        eighth(y, places, e, h, s);
        places + 1
    } else {
        places
    }
}

// One sample, which stands after the first m, is heard; the tone after it goes to place i.
fn step(
    p: Progress,
    f: InForce,
    y: &mut [i16; OPEN_EIGHTHS],
    e: &mut [u64; EIGHTH_LAGS],
    h: &mut [i64; EIGHTH_LAGS],
    s: &[i16],
    m: usize,
    periods: &mut [u32; LONGEST_BLOCK],
    notes: &mut [u32; LONGEST_BLOCK],
    rates: &mut [u32; LONGEST_BLOCK],
    i: usize,
) -> Progress
    requires { ForceIn f × Long s.now m × (m < length s.now) × (i < longest_block) × Ready s.now m y.old e.old h.old p × Room p }
    ensures { Ready s.now (m + 1) y.new e.new h.new result
        × Did f s.now m y.old p y.new result
        (tones periods.old notes.old rates.old) i (tones periods.new notes.new rates.new) }
{
    let count = p.count + 1;
    let heard = &s[..m + 1];
    let places = hear(y, p.places, e, h, count, heard);
    let v = pitch::listen(p.pitch, f, count, e, h, heard);
    periods[i] = v.tone.period;
    notes[i] = v.tone.note;
    rates[i] = v.tone.rate;
    Progress {
        count,
        places,
        pitch: v,
        ..p
    }
}

// The samples of the store after the first m, b of them, are heard: the tone after each. The head stays where it is.
pub fn hear_all(
    p: Progress,
    f: InForce,
    y: &mut [i16; OPEN_EIGHTHS],
    e: &mut [u64; EIGHTH_LAGS],
    h: &mut [i64; EIGHTH_LAGS],
    s: &[i16],
    m: usize,
    b: usize,
    periods: &mut [u32; LONGEST_BLOCK],
    notes: &mut [u32; LONGEST_BLOCK],
    rates: &mut [u32; LONGEST_BLOCK],
) -> Progress
    requires { ForceIn f × Long s.now m × (m + b ≤ length s.now) × (b ≤ longest_block) × Ready s.now m y.old e.old h.old p × Begins b p × Long512 (tones periods.old notes.old rates.old) }
    ensures { Going f s.now m y.old (tones periods.old notes.old rates.old) p b y.new e.new h.new (tones periods.new notes.new rates.new) result }
{
    let mut q = p;
    for i in 0..b {
        q = step(q, f, y, e, h, s, m + i, periods, notes, rates, i);
    }
    q
}

// The samples of the store after the first m, b of them: the tone after each, and then what the head reads, whose rate that is.
pub fn run(
    p: Progress,
    f: InForce,
    y: &mut [i16; OPEN_EIGHTHS],
    e: &mut [u64; EIGHTH_LAGS],
    h: &mut [i64; EIGHTH_LAGS],
    s: &[i16],
    m: usize,
    b: usize,
    out: &mut [i16; LONGEST_BLOCK],
    periods: &mut [u32; LONGEST_BLOCK],
    notes: &mut [u32; LONGEST_BLOCK],
    rates: &mut [u32; LONGEST_BLOCK],
) -> Progress
    requires { ForceIn f × Long s.now m × (m + b ≤ length s.now) × (b ≤ longest_block) × Ready s.now m y.old e.old h.old p × Begins b p × (length out.old ≡ longest_block) × Long512 (tones periods.old notes.old rates.old) }
    ensures { Ready s.now (m + b) y.new e.new h.new result
        × Ran f (take_so_far s.now m y.old p) (take b (drop m s.now))
        (take_so_far s.now (m + b) y.new result) out.old out.new
        (tones periods.old notes.old rates.old) (tones periods.new notes.new rates.new) p result
        × Ended b p result }
{
    let q = hear_all(p, f, y, e, h, s, m, b, periods, notes, rates);
    let r = reading::glide(p.behind, rates, periods, s, m, b, out);
    Progress {
        behind: r.behind,
        repeated: r.repeated,
        dropped: r.dropped,
        ..q
    }
}
