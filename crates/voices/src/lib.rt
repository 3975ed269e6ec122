// A voice beside the lead: its note, its rate, and what its own read head makes of a block's samples.

#![tactic(auto)]

ghost use Rattle.std.specs.Prelude.{◌≡◌, ℕ, ◌+◌, ◌≤◌, ◌<◌, pos, ◌-ℤ◌, length};
ghost use Rattle.rules.specs.Rules.{longest_block, no_note, farthest, least_period, greatest_period};
ghost use Rattle.rules.specs.Rules as rules;
ghost use Rattle.rules.specs.Facts.{SampleRate};
ghost use Rattle.rules.specs.Position.{Paced};
ghost use Rattle.ages.specs.Ages.{ago};
ghost use Rattle.reading.specs.Gliding.{among_four};
ghost use Rattle.voices.specs.Voices.{IntervalIn, voice_note, voice_period, voice_rate};
ghost use Rattle.voices.specs.Singing.{Tracked, TrackedAll, Kept, Reckoned, Moved, Sings, Sounded, Sang, SangTo};

use rules::{FARTHEST, LONGEST_BLOCK, NO_NOTE};

// Intervals of -12 to 12 semitones are kept as 0 to 24; this is none.
pub const UNISON: u32 = 12;

// How far a voice that is put level lies behind the input.
const LEVEL: u32 = 0;

// A voice within a block: how far its position lies behind the input; the period and the wanted note beside which it sings, the table entry of its note,
// and its rate.
#[derive(Clone, Copy)]
struct Singer {
    behind: u32,
    period: u32,
    note: u32,
    entry: u32,
    rate: u32,
}

// Where a stretch of samples ends, and how far behind it leaves the voice.
#[derive(Clone, Copy)]
struct Sung {
    at: usize,
    behind: u32,
}

// The note of a voice, so many semitones from the wanted note.
#[tactic(auto, using(std::proofs::lemmas::Bool::Decides::nat_tests), unfolding(crate::specs::Voices::voice_note))]
fn voice_note(interval: u32, note: u32) -> u32
    requires { IntervalIn interval × (note ≤ no_note) }
    ensures { result ≡ voice_note interval note }
{
    if note == NO_NOTE || note + interval < UNISON {
        NO_NOTE
    } else {
        note + interval - UNISON
    }
}

// The table entry of a voice's note beside this wanted note; 0 where it has none.
fn voice_entry(hertz: u32, interval: u32, note: u32) -> u32
    requires { SampleRate hertz × IntervalIn interval × (note ≤ no_note) }
    ensures { result ≡ voice_period hertz interval note }
{
    notes::wanted_period(hertz, voice_note(interval, note))
}

// The same, looked up only where the note is another.
fn entry_beside(v: Singer, hertz: u32, interval: u32, note: u32) -> u32
    requires { SampleRate hertz × IntervalIn interval × (note ≤ no_note) × Reckoned hertz interval v.period v.note v.entry v.rate }
    ensures { result ≡ voice_period hertz interval note }
{
    if v.period != 0 && v.note == note {
        v.entry
    } else {
        voice_entry(hertz, interval, note)
    }
}

// The rate of a voice beside this period, where its note has this entry; 0 where it is silent.
#[tactic(auto, using(std::proofs::lemmas::Bool::Decides::nat_tests), unfolding(crate::specs::Voices::voice_rate))]
fn voice_rate(period: u32, entry: u32) -> u32
    requires { (0 < period) × (period ≤ greatest_period) × (0 < entry → least_period ≤ entry) }
    ensures { (hertz interval note : ℕ) → entry ≡ voice_period hertz interval note → result ≡ voice_rate hertz interval period note }
{
    if entry == 0 {
        0
    } else {
        notes::raw_rate(period, entry)
    }
}

// The same voice beside this period and this wanted note.
fn beside(v: Singer, hertz: u32, interval: u32, period: u32, note: u32) -> Singer
    requires { SampleRate hertz × IntervalIn interval × Tracked period note × Reckoned hertz interval v.period v.note v.entry v.rate }
    ensures { (result.behind ≡ v.behind) × (result.period ≡ period) × (result.note ≡ note) × Reckoned hertz interval period note result.entry result.rate }
{
    if period == 0 {
        return Singer {
            period,
            note,
            entry: 0,
            rate: 0,
            ..v
        };
    }
    let entry = entry_beside(v, hertz, interval, note);
    Singer {
        period,
        note,
        entry,
        rate: voice_rate(period, entry),
        ..v
    }
}

// Stays: with the lead's own `grow`, `among` and `read` a voice takes 65 instructions a sample, with the next three functions 58.
// How far behind a voice lies after one sample more; a cycle is repeated or dropped.
fn grown(behind: u32, rate: u32, period: u32) -> u32
    requires { (behind ≤ farthest) × Paced rate period }
    ensures { Moved behind rate period result }
{
    let b = behind + 65536;
    if b < rate {
        b + 256 * period - rate
    } else if FARTHEST < b - rate {
        b - (256 * period + rate)
    } else {
        b - rate
    }
}

// Through the four samples from a place on, with u of 4096.
fn among(s: &[i16], at: usize, u: u32) -> i16
    requires { (at + 4 ≤ length s.now) × (u ≤ 4096) }
    ensures { result ≡ among_four s.now at u }
{
    reading::through(s[at], s[at + 1], s[at + 2], s[at + 3], u)
}

// The output, read 5 samples before a position that lies so far behind the newest of the first m samples.
fn read(s: &[i16], m: usize, behind: u32) -> i16
    requires { (m ≤ length s.now) × (1006 ≤ m) × (behind ≤ farthest) }
    ensures { (n : ℕ) → result ≡ rules.reading (ago s.now m) n (rules.input_at n -ℤ pos behind) }
{
    let place = FARTHEST - behind;
    let u = place % 65536 / 16;
    let at = m - 1006 + (place / 65536) as usize;
    among(s, at, u)
}

// One sample, the newest of the first m: the output goes to place i. Silent, it is 0, and the position is put level with the input.
fn sound(behind: u32, rate: u32, period: u32, s: &[i16], m: usize, out: &mut [i16], i: usize) -> u32
    requires { (behind ≤ farthest) × Kept rate period × (m ≤ length s.now) × (1006 ≤ m) × (i < longest_block) × (length out.old ≡ longest_block) }
    ensures { Sounded behind rate period s.now m i out.old out.new result }
{
    if rate == 0 {
        out[i] = 0;
        return LEVEL;
    }
    let r = grown(behind, rate, period);
    out[i] = read(s, m, r);
    r
}

// The samples of the store after the first m from this one on, of b, as long as the lead has the voice's period and note: they are sung at one rate.
fn stretch(
    v: Singer,
    periods: &[u32; LONGEST_BLOCK],
    notes: &[u32; LONGEST_BLOCK],
    s: &[i16],
    m: usize,
    from: usize,
    b: usize,
    out: &mut [i16],
) -> Sung
    requires { Sings v.behind v.rate v.period v.note periods.now notes.now s.now m from b × (length out.old ≡ longest_block) }
    ensures { (from < result.at) × (result.at ≤ b) × SangTo v.rate v.period v.note v.behind periods.now notes.now s.now m from out.old out.new result.at result.behind }
{
    let mut behind = v.behind;
    for i in from..b {
        if periods[i] != v.period || notes[i] != v.note {
            return Sung { at: i, behind };
        }
        behind = sound(behind, v.rate, v.period, s, m + i + 1, out, i);
    }
    Sung { at: b, behind }
}

// The samples of the store after the first m, b of them, beside these periods and wanted notes: the outputs, and how far behind they leave the voice.
pub fn sing(
    behind: u32,
    hertz: u32,
    interval: u32,
    periods: &[u32; LONGEST_BLOCK],
    notes: &[u32; LONGEST_BLOCK],
    s: &[i16],
    m: usize,
    b: usize,
    out: &mut [i16],
) -> u32
    requires { (behind ≤ farthest) × SampleRate hertz × IntervalIn interval × TrackedAll b periods.now notes.now × (m + b ≤ length s.now) × (1005 ≤ m) × (b ≤ longest_block) × (length out.old ≡ longest_block) }
    ensures { Sang hertz interval behind periods.now notes.now s.now m b out.old out.new result }
{
    let mut v = Singer {
        behind,
        period: 0,
        note: NO_NOTE,
        entry: 0,
        rate: 0,
    };
    let mut i = 0;
    // Stays: each turn takes a whole stretch, so no `for` goes by it.
    while i < b {
        v = beside(v, hertz, interval, periods[i], notes[i]);
        let d = stretch(v, periods, notes, s, m, i, b, out);
        v.behind = d.behind;
        i = d.at;
    }
    v.behind
}
