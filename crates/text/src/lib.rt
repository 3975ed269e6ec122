// Lines as text: the place of the next tab or line end, numbers read from their digits, and numbers written as digits.

#![tactic(auto)]

ghost use Rattle.std.specs.Prelude.{◌≡◌, List, [], ◌∷◌, ◌++◌, ℕ, ◌+◌, ◌-◌, ◌*◌, ◌≤◌, ◌<◌, length, IfSome};
ghost use Rattle.text.specs.Text.{fields, one_more, number, sample, places_within, digits, decimal, long_decimal, signed, sample_fields, put, Put};
ghost use Rattle.std.specs.Iterator.{YieldsFirstRef, item_count};
ghost use Rattle.text.specs.Places.{First};
ghost use Rattle.text.specs.Fields.{left};

// The first place from `from` on where the byte b stands; the length where it stands nowhere.
pub fn first(a: &[u8], from: usize, b: u8) -> usize
    requires { from ≤ length a.now }
    ensures { First a.now from b result }
{
    match a[from..].iter().position(|x| *x == b) {
        Some(k) => from + k,
        None => a.len(),
    }
}

// The fields of a line that are left, parted by one tab.
#[derive(Drop)]
pub struct Fields<'a> {
    rest: Option<&'a [u8]>,
}

impl<'a> Fields<'a> {
    // Those of a line.
    pub fn new(line: &'a [u8]) -> Fields<'a>
        ensures { left result ≡ fields line.now }
    {
        Fields { rest: Some(line) }
    }
}

impl<'a> Iterator for Fields<'a> {
    type Item = &'a [u8];

    ghost next_gives = { YieldsFirstRef left };

    ghost remaining = { item_count left };

    fn next(&mut self) -> Option<&'a [u8]> {
        let rest = self.rest?;
        let end = first(rest, 0, b'\t');
        self.rest = rest.get(end + 1..);
        Some(&rest[..end])
    }
}

// A digit more after the number v.
#[tactic(auto, using(std::proofs::lemmas::Bool::Decides::nat_tests), unfolding(crate::specs::Text::one_more))]
fn one_more(v: u32, b: u8, most: u32) -> Option<u32>
    ensures value { result ≡ one_more most v b }
    ensures small { IfSome result (λ n. n ≤ most) }
{
    if !b.is_ascii_digit() {
        return None;
    }
    let n = 10 * u64::from(v) + u64::from(b - b'0');
    if n > u64::from(most) {
        return None;
    }
    Some(n as u32)
}

// A whole number, at most `most`.
pub fn read_number(f: &[u8], most: u32) -> Option<u32>
    ensures value { result ≡ number most f.now }
    ensures small { IfSome result (λ n. n ≤ most) }
{
    if f.is_empty() {
        return None;
    }
    let mut v = 0;
    for b in f {
        v = one_more(v, *b, most)?;
    }
    Some(v)
}

// A sample: 16 bits, minus allowed.
pub fn read_sample(f: &[u8]) -> Option<i16>
    ensures { result ≡ sample f.now }
{
    match f.strip_prefix(b"-") {
        Some(digits) => {
            let n = read_number(digits, 32768)?;
            Some(-(n as i32) as i16)
        }
        None => {
            let n = read_number(f, 32767)?;
            Some(n as i16)
        }
    }
}

// How many digits a number has, counted up to `most`.
fn places(n: u64, most: usize) -> usize
    requires { 0 < most }
    ensures value { result ≡ places_within (most - 1) n }
    ensures few { result ≤ most }
{
    let more = n.checked_ilog10().unwrap_or(0) as usize;
    most.min(1 + more)
}

// Writes the last k digits of n from a place on.
fn spell(out: &mut [u8], at: usize, n: u64, k: usize)
    requires { at + k ≤ length out.old }
    ensures { out.new ≡ put out.old at (digits k n) }
{
    let mut rest = n;
    for i in (at..at + k).rev() {
        out[i] = b'0' + (rest % 10) as u8;
        rest /= 10;
    }
}

// What is written in decimal: its text, and the room that it may need.
pub trait Decimal {
    ghost text: { Self → List ℕ };

    ghost room: { ℕ };

    // Writes it at a place, and answers the place after it.
    fn put(self, out: &mut [u8], at: usize) -> usize
        requires { at + room ≤ length out.old }
        ensures put { Put out.old at (text self) out.new result }
        ensures within { result ≤ at + room };
}

// A number below 100,000.
impl Decimal for u32 {
    ghost text = { decimal };

    ghost room = { 5 };

    fn put(self, out: &mut [u8], at: usize) -> usize {
        let n = u64::from(self);
        let k = places(n, 5);
        spell(out, at, n, k);
        at + k
    }
}

// Any number.
impl Decimal for u64 {
    ghost text = { long_decimal };

    ghost room = { 20 };

    fn put(self, out: &mut [u8], at: usize) -> usize {
        let k = places(self, 20);
        spell(out, at, self, k);
        at + k
    }
}

// A sample.
impl Decimal for i16 {
    ghost text = { signed };

    ghost room = { 6 };

    fn put(self, out: &mut [u8], at: usize) -> usize {
        let size = u32::from(self.unsigned_abs());
        if self < 0 {
            out[at] = b'-';
            return size.put(out, at + 1);
        }
        size.put(out, at)
    }
}

// Writes a tab and a number.
pub fn put_field<N: Decimal>(out: &mut [u8], at: usize, n: N) -> usize
    requires { at + 1 + N.room ≤ length out.old }
    ensures put { Put out.old at (9 ∷ N.text n) out.new result }
    ensures within { result ≤ at + 1 + N.room }
{
    out[at] = b'\t';
    n.put(out, at + 1)
}

// Writes a number and the line's end.
pub fn put_line<N: Decimal>(out: &mut [u8], at: usize, n: N) -> usize
    requires { at + N.room + 1 ≤ length out.old }
    ensures put { Put out.old at (N.text n ++ (10 ∷ [])) out.new result }
    ensures within { result ≤ at + N.room + 1 }
{
    let end = n.put(out, at);
    out[end] = b'\n';
    end + 1
}

// Writes samples, a tab before each.
pub fn put_samples(out: &mut [u8], at: usize, xs: &[i16]) -> usize
    requires { at + 7 * length xs.now ≤ length out.old }
    ensures put { Put out.old at (sample_fields xs.now) out.new result }
    ensures within { result ≤ at + 7 * length xs.now }
{
    let mut to = at;
    for x in xs {
        to = put_field(out, to, *x);
    }
    to
}
