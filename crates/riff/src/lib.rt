// RIFF files: numbers of two and four bytes, and the walk over chunks, of which each step asks for eight bytes at a place.

#![tactic(auto)]

ghost use Rattle.std.specs.Prelude.{◌≡◌, ◌+◌, ◌^◌, ◌≤◌, ◌<◌, leb, length};
ghost use Rattle.std.proofs.lemmas.List.Edits.{sets};
ghost use Rattle.riff.specs.Riff.{number_at, bytes_of, chunk_at, head_bytes, chunks};
ghost use Rattle.riff.specs.Walks.{found_first, set_out, stepped};
ghost use Rattle.riff.specs.Walking.{Seen};

// The names "fmt " and "data", as the numbers of their four bytes.
pub const FMT: u32 = 0x2074_6D66;

pub const DATA: u32 = 0x6174_6164;

// A chunk: its place, its name as the number of its four bytes, and the size of its body.
#[derive(Clone, Copy)]
pub struct Chunk {
    pub at: usize,
    pub name: u32,
    pub size: u32,
}

// A walk: the place of the next chunk, the first fmt and the first data chunk so far, and whether a chunk ran past the end.
#[derive(Clone, Copy)]
pub struct Walk {
    pub at: usize,
    pub fmt: Option<Chunk>,
    pub data: Option<Chunk>,
    pub past: bool,
}

// The number of two bytes at a place, the least first.
#[tactic(auto, using(crate::specs::Numbers::two_is))]
pub fn two(bytes: &[u8], at: usize) -> u16
    requires { at + 2 ≤ length bytes.now }
    ensures { result ≡ number_at bytes.now at 2 }
{
    u16::from_le_bytes([bytes[at], bytes[at + 1]])
}

// The number of four bytes at a place, the least first.
#[tactic(auto, using(crate::specs::Numbers::four_is))]
pub fn four(bytes: &[u8], at: usize) -> u32
    requires { at + 4 ≤ length bytes.now }
    ensures { result ≡ number_at bytes.now at 4 }
{
    u32::from_le_bytes([bytes[at], bytes[at + 1], bytes[at + 2], bytes[at + 3]])
}

// Two bytes of a number, the least first, at a place.
pub fn put_two(out: &mut [u8], at: usize, n: u32)
    requires { at + 2 ≤ length out.old }
    ensures { out.new ≡ sets out.old at (bytes_of 2 n) }
{
    let [low, high, ..] = n.to_le_bytes();
    out[at] = low;
    out[at + 1] = high;
}

// Four bytes of a number, the least first, at a place.
pub fn put_four(out: &mut [u8], at: usize, n: u32)
    requires { at + 4 ≤ length out.old }
    ensures { out.new ≡ sets out.old at (bytes_of 4 n) }
{
    out[at..at + 4].copy_from_slice(&n.to_le_bytes());
}

// A chunk's name and size, at a place.
pub fn put_head(out: &mut [u8], at: usize, name: u32, size: u32)
    requires { at + 8 ≤ length out.old }
    ensures { out.new ≡ sets out.old at (head_bytes name size) }
{
    put_four(out, at, name);
    put_four(out, at + 4, size);
}

impl Chunk {
    // The chunk at a place.
    fn read(bytes: &[u8], at: usize) -> Chunk
        requires { at + 8 ≤ length bytes.now }
        ensures { result ≡ chunk_at bytes.now at }
    {
        Chunk {
            at,
            name: four(bytes, at),
            size: four(bytes, at + 4),
        }
    }
}

// The first chunk of a name, after one chunk more.
fn first(found: Option<Chunk>, name: u32, chunk: Chunk) -> Option<Chunk>
    ensures { result ≡ found_first found name chunk }
{
    match found {
        None if chunk.name == name => Some(chunk),
        found => found,
    }
}

impl Walk {
    // Nothing was found yet, and the first chunk stands behind "RIFF", a size and "WAVE".
    pub fn begin() -> Walk
        ensures { result ≡ set_out }
    {
        Walk {
            at: 12,
            fmt: None,
            data: None,
            past: false,
        }
    }

    // The walk goes on: at least eight bytes are left before the end.
    pub fn goes_on(self, end: usize) -> bool
        ensures { result ≡ leb (self.at + 8) end }
    {
        8 <= end && self.at <= end - 8
    }

    // A step of the walk to an end, by the chunk at its place.
    #[tactic(auto, unfolding(crate::specs::Riff::number_at))]
    pub fn step(self, end: usize, chunk: Chunk) -> Walk
        requires { (chunk.at + 8 ≤ end) × (end < 2 ^ 63) }
        ensures { result ≡ stepped end self chunk }
    {
        let behind = chunk.at + 8 + chunk.size as usize;
        Walk {
            at: behind + (chunk.size % 2) as usize,
            fmt: first(self.fmt, FMT, chunk),
            data: first(self.data, DATA, chunk),
            past: self.past || end < behind,
        }
    }
}

// The walk to an end over bytes in memory.
pub fn walked(bytes: &[u8], end: usize) -> Walk
    requires { end ≤ length bytes.now }
    ensures { Seen end (chunks bytes.now end) result }
{
    let mut w = Walk::begin();
    while w.goes_on(end) {
        w = w.step(end, Chunk::read(bytes, w.at));
    }
    w
}
