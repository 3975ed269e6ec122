// The read position's growth, and the samples read: a block's, one after the other.

#![tactic(auto)]

ghost use Rattle.std.specs.Prelude.{◌≡◌, ℕ, ◌+◌, ◌≤◌, ◌<◌, pos, ◌-ℤ◌, length, set};
ghost use Rattle.rules.specs.Rules as rules;
ghost use Rattle.rules.specs.Rules.{longest_block};
ghost use Rattle.rules.specs.Position.{Paced};
ghost use Rattle.ages.specs.Ages.{ago};
ghost use Rattle.reading.specs.Bends.{lift};
ghost use Rattle.reading.specs.Gliding.{Grown, among_four, PacedAll, Glided};

use rules::LONGEST_BLOCK;

// The read head within a block: how far it lies behind the input, and the cycles repeated and dropped so far.
#[derive(Clone, Copy)]
pub struct Growth {
    pub behind: u32,
    pub repeated: u32,
    pub dropped: u32,
}

// The head after one sample more; a cycle is repeated or dropped.
fn grow(g: Growth, rate: u32, period: u32) -> Growth
    requires { (g.behind ≤ rules.farthest) × (g.repeated < longest_block) × (g.dropped < longest_block) × Paced rate period }
    ensures { Grown g rate period result }
{
    let b = g.behind + 65536;
    if b < rate {
        return Growth {
            behind: b + 256 * period - rate,
            repeated: g.repeated + 1,
            ..g
        };
    }
    let k = b - rate;
    if rules::FARTHEST < k {
        Growth {
            behind: k - 256 * period,
            dropped: g.dropped + 1,
            ..g
        }
    } else {
        Growth { behind: k, ..g }
    }
}

// How far the curve through neighbours p, a, b and q lies above a with u of 4096, in 1/(2 x 4096^3): the slope, and what square and cube add to it.
fn lift(p: i16, a: i16, b: i16, q: i16, u: u32) -> i64
    requires { u ≤ 4096 }
    ensures { result ≡ lift p a b q u }
{
    let left = i64::from(p);
    let here = i64::from(a);
    let next = i64::from(b);
    let right = i64::from(q);
    let v = i64::from(u);
    let rise = next - here;
    let cube = right - left - 3 * rise;
    let square = left - here + rise - cube;
    let bend = (cube * v + 4096 * square) * v;
    (bend + 16777216 * (next - left)) * v
}

// Held within 16 bits.
fn held(z: i64) -> i16
    ensures { result ≡ rules.held z }
{
    z.clamp(-32768, 32767) as i16
}

// Through neighbours p, a, b and q with u of 4096: rounded down once, then held. The sample a is a whole number, and waits until then.
pub fn through(p: i16, a: i16, b: i16, q: i16, u: u32) -> i16
    requires { u ≤ 4096 }
    ensures { result ≡ rules.through p a b q u }
{
    held(i64::from(a) + (lift(p, a, b, q, u) >> 37))
}

// Through the four samples from a place on, with u of 4096; with 0 it is a copy of the second.
fn among(s: &[i16], at: usize, u: u32) -> i16
    requires { (at + 4 ≤ length s.now) × (u ≤ 4096) }
    ensures { result ≡ among_four s.now at u }
{
    if u == 0 {
        s[at + 1]
    } else {
        through(s[at], s[at + 1], s[at + 2], s[at + 3], u)
    }
}

// The output, read 5 samples before a position that lies so far behind the newest of the first m samples.
fn read(s: &[i16], m: usize, behind: u32) -> i16
    requires { (m ≤ length s.now) × (1006 ≤ m) × (behind ≤ rules.farthest) }
    ensures { (n : ℕ) → result ≡ rules.reading (ago s.now m) n (rules.input_at n -ℤ pos behind) }
{
    let whole = (behind + 65535) / 65536;
    let u = (whole * 65536 - behind) / 16;
    let at = m - 6 - whole as usize;
    among(s, at, u)
}

// One sample, the newest of the first m, at this rate with this period: the output goes to place i.
pub fn turn(
    g: Growth,
    rate: u32,
    period: u32,
    s: &[i16],
    m: usize,
    out: &mut [i16],
    i: usize,
) -> Growth
    requires { (g.behind ≤ rules.farthest) × (g.repeated < longest_block) × (g.dropped < longest_block) × Paced rate period × (m ≤ length s.now) × (1006 ≤ m) × (i < length out.old) }
    ensures { Grown g rate period result × ((n : ℕ) → out.new ≡ set out.old i (rules.reading (ago s.now m) n (rules.input_at n -ℤ pos result.behind))) }
{
    let r = grow(g, rate, period);
    out[i] = read(s, m, r.behind);
    r
}

// The samples of the store after the first m, b of them, read at these rates: the outputs, and where it leaves a head that lay so far behind.
pub fn glide(
    behind: u32,
    rates: &[u32; LONGEST_BLOCK],
    periods: &[u32; LONGEST_BLOCK],
    s: &[i16],
    m: usize,
    b: usize,
    out: &mut [i16],
) -> Growth
    requires { (behind ≤ rules.farthest) × PacedAll b rates.now periods.now × (m + b ≤ length s.now) × (1005 ≤ m) × (b ≤ longest_block) × (length out.old ≡ longest_block) }
    ensures { Glided behind rates.now periods.now s.now m b out.old out.new result }
{
    let mut g = Growth {
        behind,
        repeated: 0,
        dropped: 0,
    };
    for i in 0..b {
        g = turn(g, rates[i], periods[i], s, m + i + 1, out, i);
    }
    g
}
