// Mends the two sizes of a WAVE file that a recorder left when it stopped.

#![tactic(auto)]

ghost use Rattle.std.specs.Prelude.{◌≡◌, ◌+◌, ◌^◌, ◌≤◌, ◌<◌, length};
ghost use Rattle.mending.specs.Mendings.{left, data_size, riff_size, sizes_of, no_mending, mending_of};
ghost use Rattle.mending.specs.Decided.{reached, decided, mending_answered};

use refusals::Refusal;
use riff::{Chunk, Walk};

// A file of so many bytes or more is not mended.
pub const TOO_LONG: usize = 2147483648;

// A size of four bytes: its place, what it is, and what it becomes.
#[repr(C)]
#[derive(Clone, Copy)]
pub struct Size {
    pub at: usize,
    pub old: u32,
    pub new: u32,
}

// What is mended in a file.
#[derive(Clone, Copy)]
pub struct Sizes {
    pub riff: Size,
    pub data: Size,
}

// What is mended in a file, where number is 0, as it is answered.
#[repr(C)]
#[derive(Clone, Copy)]
pub struct Mending {
    pub number: u32,
    pub riff: Size,
    pub data: Size,
}

impl Mending {
    pub fn refused(number: u32) -> Mending
        ensures { result ≡ no_mending number }
    {
        let none = Size {
            at: 0,
            old: 0,
            new: 0,
        };
        Mending {
            number,
            riff: none,
            data: none,
        }
    }
}

impl From<Result<Sizes, Refusal>> for Mending {
    ghost from_gives = { λ sizes answered. answered ≡ mending_answered sizes };

    fn from(sizes: Result<Sizes, Refusal>) -> Mending {
        match sizes {
            Ok(Sizes { riff, data }) => Mending {
                number: 0,
                riff,
                data,
            },
            Err(refusal) => Mending::refused(refusal.number()),
        }
    }
}

// A size that a recorder leaves.
#[tactic(auto, unfolding(crate::specs::Mendings::left))]
fn is_left(size: u32) -> bool
    ensures { result ≡ left size }
{
    size == 0 || size == u32::MAX
}

// The data size, of a body that begins at a place.
#[tactic(auto, unfolding(crate::specs::Mendings::data_size))]
fn data_size(size: u32, from: usize, length: usize) -> u32
    requires { (from ≤ length) × (length < 2 ^ 31) }
    ensures { (result ≡ data_size length from size) × (from + result ≤ length) }
{
    let rest = length - from;
    if is_left(size) || length < from + size as usize {
        (rest - rest % 2) as u32
    } else {
        size
    }
}

// The RIFF size, before data that ends at a place.
#[tactic(auto, unfolding(crate::specs::Mendings::riff_size))]
fn riff_size(riff: u32, end: usize, length: usize) -> u32
    requires { (8 ≤ length) × (length < 2 ^ 31) }
    ensures { result ≡ riff_size length riff end }
{
    let riff_end = 8 + riff as usize;
    if is_left(riff) || length < riff_end || riff_end < end {
        (length - 8) as u32
    } else {
        riff
    }
}

// A chunk was found, and its eight bytes lie before the end.
pub fn is_reached(chunk: Option<Chunk>, end: usize) -> bool
    ensures { result ≡ reached chunk end }
{
    chunk.is_some_and(|chunk| 8 <= end && chunk.at <= end - 8)
}

// What is mended in a file of so many bytes, whose data chunk this is.
fn both_sizes(data: Chunk, riff: u32, length: usize) -> Sizes
    requires { («data».at + 8 ≤ length) × (length < 2 ^ 31) }
    ensures { mending_answered (Ok result) ≡ sizes_of length riff «data».at «data».size }
{
    let from = data.at + 8;
    let size = data_size(data.size, from, length);
    let end = from + size as usize;
    Sizes {
        riff: Size {
            at: 4,
            old: riff,
            new: riff_size(riff, end, length),
        },
        data: Size {
            at: data.at + 4,
            old: data.size,
            new: size,
        },
    }
}

// What is mended, by a whole walk to the file's end, in a file that begins as RIFF WAVE: hertz is the rate of its fmt, and riff the RIFF size.
pub fn decide(w: Walk, hertz: Option<u32>, riff: u32, length: usize) -> Result<Sizes, Refusal>
    ensures { mending_answered result ≡ decided w hertz riff length }
{
    if TOO_LONG <= length {
        return Err(Refusal::FileTooLong);
    }
    if wave::no_fmt(w) || hertz.is_none() {
        return Err(Refusal::NoGoodFmt);
    }
    match w.data {
        Some(data) if is_reached(w.data, length) => Ok(both_sizes(data, riff, length)),
        _ => Err(Refusal::NoDataReached),
    }
}

// What is mended in a file.
fn find_sizes(bytes: &[u8]) -> Result<Sizes, Refusal>
    ensures { mending_answered result ≡ mending_of bytes.now }
{
    if !wave::is_wave(bytes) {
        return Err(Refusal::NotRiffWave);
    }
    let length = bytes.len();
    let w = riff::walked(bytes, length);
    decide(
        w,
        wave::rate_of(bytes, w.fmt, length),
        riff::four(bytes, 4),
        length,
    )
}

// What is mended in a file, as it is answered.
pub fn find(bytes: &[u8]) -> Mending
    ensures { result ≡ mending_of bytes.now }
{
    Mending::from(find_sizes(bytes))
}
