// What the sound is found to be: searching for a period, and tracking it.

#![tactic(auto)]

ghost use Rattle.std.specs.Prelude.{◌≡◌, ◌-◌, ◌%◌, ◌≤◌};
ghost use Rattle.rules.specs.Rules.{Sound, older, no_tone, no_period, tracked};
ghost use Rattle.rules.specs.Rules as rules;
ghost use Rattle.rules.specs.Facts.{ForceIn};
ghost use Rattle.ages.specs.Ages.{past};
ghost use Rattle.passing.specs.Distances.{Ample};
ghost use Rattle.pitch.specs.Pitches.{pitch_of, PitchRight, blank, kept_of};
ghost use Rattle.pitch.specs.Listening.{Eighth, Became, Searched, Listened};

use rules::{EIGHTH_LAGS, InForce, Tone};
use tracking::Tracker;

// The eight lags with their sums, the tone, and 1 while tracking, 0 while searching.
#[repr(C)]
#[derive(Clone, Copy)]
pub struct Pitch {
    pub tracker: Tracker,
    pub tone: Tone,
    pub tracking: u64,
}

// No period, no wanted note, the rate 65536 and nothing kept.
#[tactic(auto, unfolding(rules::specs::Rules::no_tone))]
pub fn no_tone() -> Tone
    ensures { result ≡ no_tone }
{
    Tone {
        period: 0,
        note: rules::NO_NOTE,
        rate: rules::FRESH_RATE,
        kept: 0,
    }
}

// Eight lags that are not looked at.
pub fn blank() -> Tracker
    ensures { result ≡ blank }
{
    Tracker {
        low: 0,
        last: 0,
        e: [0; 8],
        h: [0; 8],
    }
}

// A lag was found.
fn locked(lag: usize, s: &[i16]) -> Pitch
    requires { (24 ≤ lag) × (lag ≤ 872) × Ample s.now }
    ensures { Became (past s.now) (no_period (rules.tracking (lag - 3) lag)) result }
{
    let lag = lag as u32;
    Pitch {
        tracker: Tracker::at(lag - 3, lag, s),
        tone: no_tone(),
        tracking: 1,
    }
}

// Searching, when an eighth-rate sample was just made.
fn search(v: Pitch, f: InForce, e: &[u64; EIGHTH_LAGS], h: &[i64; EIGHTH_LAGS], s: &[i16]) -> Pitch
    requires { PitchRight (past s.now) v × ForceIn f × Eighth e.now h.now × Ample s.now }
    ensures { Searched f (past s.now) e.now h.now v result }
{
    match finding::find(e, h, f.settings, s) {
        Some(lag) => locked(lag, s),
        None => v,
    }
}

// A tracking step.
fn track(v: Pitch, f: InForce, s: &[i16]) -> Pitch
    requires { (v.tracking ≡ 1) × PitchRight (past s.now) v × ForceIn f × Ample s.now }
    ensures { Became (past s.now) (tracked f (past s.now) v.tone v.tracker.low v.tracker.last) result }
{
    let (tracker, period) = v.tracker.step(f.settings, s);
    match period {
        Some(period) => Pitch {
            tracker,
            tone: notes::tune(f, v.tone, period),
            tracking: 1,
        },
        None => Pitch {
            tracker,
            tone: no_tone(),
            tracking: 0,
        },
    }
}

// One more sample for the eight lags.
fn followed(v: Pitch, s: &[i16]) -> Pitch
    requires { (v.tracking ≡ 1) × PitchRight (older (past s.now)) v × Ample s.now }
    ensures { (result.tracking ≡ 1) × Became (past s.now) (pitch_of v) result }
{
    Pitch {
        tracker: v.tracker.update(s),
        ..v
    }
}

// Searching or tracking after sample number n, which stands last.
pub fn listen(
    v: Pitch,
    f: InForce,
    n: u32,
    e: &[u64; EIGHTH_LAGS],
    h: &[i64; EIGHTH_LAGS],
    s: &[i16],
) -> Pitch
    requires { PitchRight (older (past s.now)) v × ForceIn f × Eighth e.now h.now × Ample s.now }
    ensures { Listened f n (past s.now) e.now h.now v result }
{
    if v.tracking == 1 {
        let w = followed(v, s);
        if n % 5 == 0 { track(w, f, s) } else { w }
    } else if n % 8 == 0 {
        search(v, f, e, h, s)
    } else {
        v
    }
}

// A pitch as it is kept: the eight lags are blank while searching.
pub fn settled(v: Pitch) -> Pitch
    ensures { (x : Sound) → PitchRight x v → result ≡ kept_of (pitch_of v) x }
{
    if v.tracking == 1 {
        return v;
    }
    Pitch {
        tracker: blank(),
        tracking: 0,
        ..v
    }
}
