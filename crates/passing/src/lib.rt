// D of a lag from its energy and its correlation, and whether a lag passes.

#![tactic(auto)]

ghost use Rattle.std.specs.Prelude.{◌≡◌, ℕ, ◌^◌, ◌≤◌, length};
ghost use Rattle.rules.specs.Rules.{Sound, E, D, passes, highest_lag};
ghost use Rattle.rules.specs.Facts.{Right};
ghost use Rattle.sums.specs.Kept.{RightAt, Kept};
ghost use Rattle.passing.specs.Distances.{One, Distances, Modest};

use rules::Settings;

// D from E and H.
pub fn distance(e: u64, h: i64) -> u64
    requires { One e h }
    ensures { (x : Sound) (L : ℕ) → RightAt x L e h → result ≡ D x L }
{
    (e as i64 - 2 * h) as u64
}

// D at each lag.
pub fn distances(d: &mut [u64], e: &[u64], h: &[i64])
    requires { Kept (length d.old) e.now h.now }
    ensures { (x : Sound) (low : ℕ) → Right x low (length d.old) e.now h.now → Distances x low (length d.old) d.new }
{
    for i in 0..d.len() {
        d[i] = distance(e[i], h[i]);
    }
}

// A lag passes.
pub fn passing(g: Settings, d: u64, e: u64, lag: usize) -> bool
    requires { Modest g × (d ≤ 2 ^ 42) × (e ≤ 2 ^ 42) × (lag ≤ highest_lag) }
    ensures { (x : Sound) → d ≡ D x lag → e ≡ E x lag → result ≡ passes g x lag }
{
    1024 * d <= u64::from(g.eps) * e && u64::from(g.floor) * (2 * lag as u64) <= e
}
