// Energies and correlations: the update by one more sample, and the direct sums.

#![tactic(auto)]

ghost use Rattle.std.specs.Prelude.{◌≡◌, ◌+◌, ◌*◌, ◌^◌, ◌≤◌, ◌<◌, pos, nat_abs, ◌+ℤ◌, ◌-ℤ◌, ◌*ℤ◌, length};
ghost use Rattle.whole.specs.Numbers.{sum};
ghost use Rattle.whole.specs.Tests.{Decides};
ghost use Rattle.rules.specs.Rules.{older, sq, E};
ghost use Rattle.rules.specs.Rules as rules;
ghost use Rattle.ages.specs.Ages.{past};
ghost use Rattle.sums.specs.Direct.{high_of, low_of, products};
ghost use Rattle.sums.specs.Kept.{squares, RightAt, Enough, Zeros};
ghost use Rattle.rules.specs.Facts.{Right};

#[derive(Clone, Copy)]
pub struct Sums {
    pub e: u64,
    pub h: i64,
}

// A sample's square. It fits 32 bits: a product of 64 bits would not vectorise.
fn square(x: i16) -> u64
    ensures { (result ≡ sq x) × (result ≤ 2 ^ 30) }
{
    let a = i32::from(x);
    (a * a) as u64
}

// A product of samples.
fn product(x: i16, y: i16) -> i32
    ensures { (result ≡ x *ℤ y) × (nat_abs result ≤ 2 ^ 30) }
{
    i32::from(x) * i32::from(y)
}

// A product less 1, which is shorter than 2^30 on either side.
fn product_less(x: i16, y: i16) -> i32
    ensures { (result ≡ x *ℤ y -ℤ pos 1) × (nat_abs result < 2 ^ 30) }
{
    product(x, y) - 1
}

// Two products added, less 1: without it two of -32768 x -32768 would not fit. Both are one instruction where the loop is vectorised.
fn pair(a: i16, b: i16, c: i16, d: i16) -> i32
    ensures { (result ≡ a *ℤ b -ℤ pos 1 +ℤ c *ℤ d) × (nat_abs result < 2 ^ 31) }
{
    product_less(a, b) + product(c, d)
}

// A pair in two parts, high x 65536 + low, which are summed apart in 32 bits: that vectorises, and a sum of 64 bits does not.
fn high_part(p: i32) -> i32
    requires { nat_abs p < 2 ^ 31 }
    ensures { (result ≡ high_of p) × (nat_abs result ≤ 32768) }
{
    p >> 16
}

fn low_part(p: i32) -> i32
    requires { nat_abs p < 2 ^ 31 }
    ensures { (result ≡ low_of p) × (nat_abs result ≤ 65536) }
{
    p - high_part(p) * 65536
}

// A correlation, with x y more and y z less: one product.
fn turned(h: i64, x: i16, y: i16, z: i16) -> i64
    requires { nat_abs h ≤ 2 ^ 62 }
    ensures { result ≡ h +ℤ x *ℤ y -ℤ y *ℤ z }
{
    h + i64::from(y) * (i64::from(x) - i64::from(z))
}

// E and H at one lag after the newest sample x, from those before it.
fn next(s: &[i16], lag: usize, x: i16, t: Sums) -> Sums
    requires { Enough s.now lag 1 × (x ≡ past s.now 0) × RightAt (older (past s.now)) lag t.e t.h }
    ensures { RightAt (past s.now) lag result.e result.h }
{
    let y = ages::back(s, lag);
    let z = ages::back(s, 2 * lag);
    Sums {
        e: t.e + square(x) - square(z),
        h: turned(t.h, x, y, z),
    }
}

// All of them, at the lags from low on.
pub fn next_all(e: &mut [u64], h: &mut [i64], low: usize, s: &[i16])
    requires { Enough s.now low (length e.old) × Right (older (past s.now)) low (length e.old) e.old h.old }
    ensures { Right (past s.now) low (length e.old) e.new h.new }
{
    let x = ages::back(s, 0);
    for i in 0..e.len() {
        let t = next(s, low + i, x, Sums { e: e[i], h: h[i] });
        e[i] = t.e;
        h[i] = t.h;
    }
}

// The sum of squares of the newest `count` samples.
fn energy(s: &[i16], count: usize) -> u64
    requires { (count ≤ length s.now) × (count ≤ 1762) }
    ensures { result ≡ squares (past s.now) count }
{
    let mut sum = 0;
    for x in &s[s.len() - count..] {
        sum += square(*x);
    }
    sum
}

// The sum of `pairs` pairs of products, of neighbours from two places on.
fn by_pairs(s: &[i16], to: usize, from: usize, pairs: usize) -> i64
    requires { (to + 2 * pairs ≤ length s.now) × (from + 2 * pairs ≤ length s.now) × (pairs ≤ 440) }
    ensures { (result ≡ sum (products s.now to from) (2 * pairs)) × (nat_abs result ≤ 2 ^ 40) }
{
    let mut highs = 0;
    let mut lows = 0;
    for i in 0..pairs {
        let k = 2 * i;
        let p = pair(s[to + k], s[from + k], s[to + k + 1], s[from + k + 1]);
        highs += high_part(p);
        lows += low_part(p);
    }
    i64::from(highs) * 65536 + i64::from(lows) + pairs as i64
}

// The sum, over the newest `lag` samples, of each times the one `lag` before it.
fn correlation(s: &[i16], lag: usize) -> i64
    requires { (2 * lag ≤ length s.now) × (lag ≤ 881) }
    ensures { result ≡ rules.H (past s.now) lag }
{
    let to = s.len() - lag;
    let pairs = lag / 2;
    let sum = by_pairs(s, to, to - lag, pairs);
    if 2 * pairs == lag {
        return sum;
    }
    sum + i64::from(product(s[s.len() - 1], s[to - 1]))
}

// E and H at one lag from the samples themselves.
pub fn direct(s: &[i16], lag: usize) -> Sums
    requires { Enough s.now lag 1 }
    ensures { RightAt (past s.now) lag result.e result.h }
{
    Sums {
        e: energy(s, 2 * lag),
        h: correlation(s, lag),
    }
}

// E at the next lag: two squares more.
fn one_lag_more(s: &[i16], lag: usize, e: u64) -> u64
    requires { Enough s.now lag 1 × (e ≡ E (past s.now) lag) }
    ensures { result ≡ E (past s.now) (lag + 1) }
{
    let y = ages::back(s, 2 * lag);
    let z = ages::back(s, 2 * lag + 1);
    e + square(y) + square(z)
}

// All of them from the samples themselves, at the lags from low on.
pub fn direct_all(e: &mut [u64], h: &mut [i64], low: usize, s: &[i16])
    requires { Enough s.now low (length e.old) × (length h.old ≡ length e.old) }
    ensures { Right (past s.now) low (length e.old) e.new h.new }
{
    let mut sum = energy(s, 2 * low);
    for i in 0..e.len() {
        e[i] = sum;
        h[i] = correlation(s, low + i);
        sum = one_lag_more(s, low + i, sum);
    }
}

// Each kept E and H, at the lags from low on, is the direct sum.
pub fn all_right(e: &[u64], h: &[i64], low: usize, s: &[i16]) -> bool
    requires { Enough s.now low (length e.now) × (length h.now ≡ length e.now) }
    ensures { Decides result (Right (past s.now) low (length e.now) e.now h.now) }
{
    let mut sum = energy(s, 2 * low);
    for i in 0..e.len() {
        if e[i] != sum || h[i] != correlation(s, low + i) {
            return false;
        }
        sum = one_lag_more(s, low + i, sum);
    }
    true
}

// All of these are 0.
fn none(e: &[u64], h: &[i64]) -> bool
    requires { length h.now ≡ length e.now }
    ensures { Decides result (Zeros e.now h.now) }
{
    e.iter().all(|e| *e == 0) && h.iter().all(|h| *h == 0)
}

// Each kept E and H at eighth rate, at the lags from 2 on, is the direct sum. In silence, which the energy of one lag more shows, each is 0.
pub fn eighths_right(e: &[u64], h: &[i64], s: &[i16]) -> bool
    requires { Enough s.now 2 (length e.now) × (length h.now ≡ length e.now) }
    ensures { Decides result (Right (past s.now) 2 (length e.now) e.now h.now) }
{
    if energy(s, 2 * (2 + e.len())) == 0 {
        none(e, h)
    } else {
        all_right(e, h, 2, s)
    }
}
