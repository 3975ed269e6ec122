// Tracking a period over eight lags.

#![tactic(auto)]

ghost use Rattle.std.specs.Prelude.{◌≡◌, ◌+◌, ◌-◌, ◌*◌, ◌^◌, ◌≤◌, ◌<◌, nat_abs};
ghost use Rattle.whole.specs.Numbers.{floor_div};
ghost use Rattle.rules.specs.Facts.{Right};
ghost use Rattle.rules.specs.Rules.{Sound, older, E, D, lowest_lag, highest_lag, is_lost, offset, moved};
ghost use Rattle.rules.specs.Choosing.{First};
ghost use Rattle.ages.specs.Ages.{past};
ghost use Rattle.passing.specs.Distances.{Modest, Ample, Distances, Small};
ghost use Rattle.tracking.specs.Tracking.{place, PeriodAt, Tracks, Stepped};

use rules::Settings;

#[repr(C)]
#[derive(Clone, Copy)]
pub struct Tracker {
    pub low: u32,
    pub last: u32,
    pub e: [u64; 8],
    pub h: [i64; 8],
}

// Rounded down.
fn floor_div(a: i64, d: u64) -> i64
    requires { (0 < d) × (d ≤ 2 ^ 62) }
    ensures { result ≡ floor_div a d }
{
    let b = d as i64;
    if a < 0 { -1 - (-1 - a) / b } else { a / b }
}

// D1 - 2 D2 + D3.
fn bend(d1: u64, d2: u64, d3: u64) -> u64
    requires { (d2 < d1) × (d2 ≤ d3) × (d1 ≤ 2 ^ 42) × (d3 ≤ 2 ^ 42) }
    ensures { (result ≡ d1 + d3 - 2 * d2) × (0 < result) × (result ≤ 2 ^ 43) }
{
    d1 + d3 - 2 * d2
}

// The vertex of D1, D2 and D3, in 1/256 sample from the middle one.
fn vertex(d1: u64, d2: u64, d3: u64) -> i64
    requires { (d2 < d1) × (d2 ≤ d3) × (d1 ≤ 2 ^ 42) × (d3 ≤ 2 ^ 42) }
    ensures { (result ≡ offset d1 d2 d3) × (nat_abs result ≤ 128) }
{
    let m = bend(d1, d2, d3);
    floor_div(2 * (128 * (d1 as i64 - d3 as i64)) + m as i64, 2 * m)
}

// The place of the least of the eight, the first on equality.
fn least(d: &[u64; 8]) -> usize
    ensures { First (place d.now) 8 result }
{
    let mut at = 0;
    for j in 1..8 {
        if d[j] < d[at] {
            at = j;
        }
    }
    at
}

// The period in 1/256 sample, where the best of the eight lags from low on is the one at a place.
fn period(d: &[u64; 8], low: u32, at: usize) -> u32
    requires { First (place d.now) 8 at × (lowest_lag ≤ low) × (low ≤ highest_lag - 7) × Small 8 d.now }
    ensures { (x : Sound) → Distances x low 8 d.now → PeriodAt x low at result }
{
    let best = 256 * (low + at as u32);
    if at == 0 || at == 7 {
        return best;
    }
    let v = vertex(d[at - 1], d[at], d[at + 1]);
    (best as i64 + v) as u32
}

// The lowest lag after the step.
fn moved_low(low: u32, at: usize) -> u32
    requires { (lowest_lag ≤ low) × (low ≤ highest_lag - 7) × (at < 8) }
    ensures { result ≡ moved low at }
{
    if at < 3 {
        if low == rules::LOWEST_LAG {
            low
        } else {
            low - 1
        }
    } else if 4 < at {
        if low == rules::HIGHEST_LOW {
            low
        } else {
            low + 1
        }
    } else {
        low
    }
}

// Lost: the best lag doesn't pass, or differs by more than 3 from the last.
fn lost(d: u64, e: u64, g: Settings, lag: u32, last: u32) -> bool
    requires { Modest g × (d ≤ 2 ^ 42) × (e ≤ 2 ^ 42) × (lag ≤ highest_lag) × (last ≤ highest_lag) }
    ensures { (x : Sound) → d ≡ D x lag → e ≡ E x lag → result ≡ is_lost g x lag last }
{
    lag > last + 3 || last > lag + 3 || !passing::passing(g, d, e, lag as usize)
}

// The sums of the eight lags from another lowest on; where it is the same, they stay.
fn moved_sums(e: &mut [u64; 8], h: &mut [i64; 8], from: u32, to: u32, s: &[i16])
    requires { (lowest_lag ≤ to) × (to ≤ highest_lag - 7) × Ample s.now × Right (past s.now) from 8 e.old h.old }
    ensures { Right (past s.now) to 8 e.new h.new }
{
    if from != to {
        sums::direct_all(e, h, to as usize, s);
    }
}

impl Tracker {
    // Tracks the eight lags from low on, with a last best lag, their sums right at once.
    pub fn at(low: u32, last: u32, s: &[i16]) -> Tracker
        requires { (lowest_lag ≤ low) × (low ≤ highest_lag - 7) × Ample s.now }
        ensures { Tracks (past s.now) low last result }
    {
        let mut e = [0; 8];
        let mut h = [0; 8];
        sums::direct_all(&mut e, &mut h, low as usize, s);
        Tracker { low, last, e, h }
    }

    // One more sample.
    pub fn update(mut self, s: &[i16]) -> Tracker
        requires { (lowest_lag ≤ self.low) × (self.low ≤ highest_lag - 7) × Ample s.now × Right (older (past s.now)) self.low 8 self.e self.h }
        ensures { Tracks (past s.now) self.low self.last result }
    {
        sums::next_all(&mut self.e, &mut self.h, self.low as usize, s);
        self
    }

    // A tracking step: the tracker after it, and the period in 1/256 sample, or none where it is lost.
    pub fn step(mut self, g: Settings, s: &[i16]) -> (Tracker, Option<u32>)
        requires { (lowest_lag ≤ self.low) × (self.low ≤ highest_lag - 7) × (self.last ≤ highest_lag) × Modest g × Ample s.now × Right (past s.now) self.low 8 self.e self.h }
        ensures { Stepped g (past s.now) self result.1 result.0 }
    {
        let mut d = [0; 8];
        passing::distances(&mut d, &self.e, &self.h);
        let at = least(&d);
        let lag = self.low + at as u32;
        if lost(d[at], self.e[at], g, lag, self.last) {
            return (self, None);
        }
        let p = period(&d, self.low, at);
        let low = moved_low(self.low, at);
        moved_sums(&mut self.e, &mut self.h, self.low, low, s);
        self.low = low;
        self.last = lag;
        (self, Some(p))
    }
}
