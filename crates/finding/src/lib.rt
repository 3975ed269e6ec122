// Finding a period.

#![tactic(auto)]

ghost use Rattle.std.specs.Prelude.{◌≡◌, true, ◌-◌, ◌*◌, ◌/◌, ◌≤◌, ◌<◌, get_or};
ghost use Rattle.std.proofs.Math.Option.{some};
ghost use Rattle.rules.specs.Rules.{Sound, D, is_low, choice, found, eighth_lags};
ghost use Rattle.ages.specs.Ages.{past};
ghost use Rattle.sums.specs.Kept.{Enough, Kept};
ghost use Rattle.rules.specs.Facts.{Right};
ghost use Rattle.finding.specs.Quiet.{Quiet};
ghost use Rattle.finding.specs.Finding.{lag_of, Measured};
ghost use Rattle.passing.specs.Distances.{Modest, Ample, Small};
ghost use Rattle.finding.specs.Scan.{InOrder, Leasts, Passed};

use rules::{EIGHTH_LAGS, LAST_EIGHTH_LAG, Settings};

// The longest lag at eighth rate that can be a low.
const LONGEST_LOW: usize = 109;

// A low at the lag l; the places 0 to 108 are the lags 2 to 110.
fn low_at(d: &[u64; EIGHTH_LAGS], e: &[u64; EIGHTH_LAGS], g: Settings, l: usize) -> bool
    requires { (3 ≤ l) × (l ≤ 109) × Modest g × Small eighth_lags d.now × Small eighth_lags e.now }
    ensures { (y : Sound) → Measured y d.now e.now → result ≡ is_low g y l }
{
    let here = d[l - 2];
    here < d[l - 3] && here <= d[l - 1] && passing::passing(g, here, e[l - 2], l)
}

// The two least lows.
#[derive(Clone, Copy)]
struct Lows {
    first: Option<usize>,
    second: Option<usize>,
}

// The greatest D with which a lag can pass: 1/1024 of eps x E at lag 110, the greatest E.
fn greatest(e: &[u64; EIGHTH_LAGS], g: Settings) -> u64
    requires { Modest g × Small eighth_lags e.now }
    ensures { result ≡ g.eps * get_or e.now 108 0 / 1024 }
{
    u64::from(g.eps) * e[LAST_EIGHTH_LAG] / 1024
}

// The next lag, from l down, whose D is not too great, and 2 where there is none.
fn next_down(d: &[u64; EIGHTH_LAGS], most: u64, l: usize) -> usize
    requires { (2 ≤ l) × (l ≤ 109) }
    ensures { Passed d.now most result l }
{
    for k in (3..l + 1).rev() {
        if d[k - 2] <= most {
            return k;
        }
    }
    2
}

// The lag l is looked at, after those above it.
fn with_lag(d: &[u64; EIGHTH_LAGS], e: &[u64; EIGHTH_LAGS], g: Settings, l: usize, t: Lows) -> Lows
    requires { (3 ≤ l) × (l ≤ 109) × Modest g × Small eighth_lags d.now × Small eighth_lags e.now × InOrder l t }
    ensures { InOrder (l - 1) result × ((y : Sound) → Measured y d.now e.now → Leasts g y l t → Leasts g y (l - 1) result) }
{
    if low_at(d, e, g, l) {
        Lows {
            first: Some(l),
            second: t.first,
        }
    } else {
        t
    }
}

// The two least lows.
fn two_least(d: &[u64; EIGHTH_LAGS], e: &[u64; EIGHTH_LAGS], g: Settings) -> Lows
    requires { Modest g × Small eighth_lags d.now × Small eighth_lags e.now }
    ensures { InOrder 2 result × ((y : Sound) → Measured y d.now e.now → Leasts g y 2 result) }
{
    let most = greatest(e, g);
    let mut t = Lows {
        first: None,
        second: None,
    };
    let mut l = next_down(d, most, LONGEST_LOW);
    // Stays: a loop over `next_down`, whose own loop takes 3 instructions a lag; in one loop over all lags each took more.
    while 2 < l {
        t = with_lag(d, e, g, l, t);
        l = next_down(d, most, l - 1);
    }
    t
}

// D at full rate, at one lag.
fn full(s: &[i16], lag: usize) -> u64
    requires { Enough s.now lag 1 }
    ensures { result ≡ D (past s.now) lag }
{
    let t = sums::direct(s, lag);
    passing::distance(t.e, t.h)
}

// Of 8 x L1 and 8 x L2 the one with smaller full-rate D, the shorter on equality.
fn choice(s: &[i16], l1: usize, l2: usize) -> usize
    requires { Ample s.now × (1 ≤ l1) × (l1 < l2) × (l2 ≤ 109) }
    ensures { some result ≡ choice (past s.now) l1 (some l2) }
{
    let a = full(s, 8 * l1);
    let b = full(s, 8 * l2);
    if b < a { 8 * l2 } else { 8 * l1 }
}

// The lag found, by the least lows.
fn found_by(s: &[i16], t: Lows) -> Option<usize>
    requires { InOrder 2 t × Ample s.now }
    ensures { (g : Settings) (y : Sound) → Leasts g y 2 t → lag_of result ≡ found g (past s.now) y }
{
    let l1 = t.first?;
    if 55 <= l1 {
        return Some(8 * l1);
    }
    let l2 = t.second?;
    Some(choice(s, l1, l2))
}

// Too quiet for any lag to pass: E at lag 110 is below what the floor asks at lag 3.
fn quiet(e: &[u64; EIGHTH_LAGS], g: Settings) -> bool
    requires { Modest g }
    ensures { result ≡ true → Quiet g e.now }
{
    e[LAST_EIGHTH_LAG] < u64::from(g.floor) * 6
}

// The lag found, from the eighth-rate sums and the samples.
pub fn find(e: &[u64; EIGHTH_LAGS], h: &[i64; EIGHTH_LAGS], g: Settings, s: &[i16]) -> Option<usize>
    requires { Kept eighth_lags e.now h.now × Modest g × Ample s.now }
    ensures { (y : Sound) → Right y 2 eighth_lags e.now h.now → lag_of result ≡ found g (past s.now) y }
{
    if quiet(e, g) {
        return None;
    }
    let mut d = [0; EIGHTH_LAGS];
    passing::distances(&mut d, e, h);
    let t = two_least(&d, e, g);
    found_by(s, t)
}
