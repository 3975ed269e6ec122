// A WAVE file that is sought piece by piece: what is wanted of it next, and what was found. Whoever has the file only moves bytes.

#![tactic(auto)]

ghost use Rattle.std.specs.Prelude.{◌≡◌, ◌≤◌, length};
ghost use Rattle.wave.specs.Judged.{take_answered};
ghost use Rattle.seeking.specs.Seeks.{chunk_in, place_after, rate_in, walk_of, fresh, walked, end_of, asks, walked_on, begun, headed, stepped_on, rated, given_to, found_in, mended_in};

use mending::Mending;
use refusals::Refusal;
use riff::{Chunk, Walk};
use wave::{Take, WaveTake};

// No file has so many bytes.
const NO_FILE: usize = 9223372036854775808;

const NO_PLACE: Place = Place {
    at: 0,
    size: 0,
    found: 0,
};

const NO_PIECE: Piece = Piece { at: 0, count: 0 };

// Where a chunk was found, if `found` is not 0: the place of its name, and the size of its body.
// Stays: a host in C keeps a seek, so that a flag and numbers stand here, and numbers without a chunk are handed on as they are (`given_to`).
#[repr(C)]
#[derive(Clone, Copy)]
pub struct Place {
    pub at: usize,
    pub size: u32,
    pub found: u32,
}

// So many bytes of a file, from a place on.
#[repr(C)]
#[derive(Clone, Copy)]
pub struct Piece {
    pub at: usize,
    pub count: usize,
}

// A seek in a file of so many bytes, as numbers alone. `mends` is not 0 where the sizes to be mended are sought, and not the take; `number` is 20 until
// the file is seen to begin as RIFF WAVE, and then 0; `riff` is the RIFF size, `hertz` the fmt's rate; `past` is not 0 where a chunk ran past the end.
// Stays: a host in C keeps it, so that 0 and other numbers stand for no and yes, and 0 for no rate (`given_to`, `found_in`, `mended_in`).
#[repr(C)]
#[derive(Clone, Copy)]
pub struct Seek {
    pub length: usize,
    pub mends: u32,
    pub number: u32,
    pub riff: u32,
    pub hertz: u32,
    pub fmt: Place,
    pub data: Place,
    pub past: u64,
    pub wanted: Piece,
}

impl Place {
    // The chunk of this name, if it was found.
    fn chunk(self, name: u32) -> Option<Chunk>
        ensures { result ≡ chunk_in name self }
    {
        if self.found == 0 {
            return None;
        }
        Some(Chunk {
            at: self.at,
            name,
            size: self.size,
        })
    }

    // The place after a walk: of a chunk that was found, or as it is.
    fn after(self, found: Option<Chunk>) -> Place
        ensures { result ≡ place_after self found }
    {
        match found {
            Some(Chunk { at, size, .. }) => Place { at, size, found: 1 },
            None => Place { found: 0, ..self },
        }
    }
}

// What a walk asks for: the name and size of the next chunk; behind the last the fields of its fmt, where they lie before the end; then nothing.
#[tactic(auto, unfolding(crate::specs::Seeks::asks))]
fn asks(w: Walk, end: usize) -> Piece
    ensures { result ≡ asks w end }
{
    if w.goes_on(end) {
        return Piece { at: w.at, count: 8 };
    }
    match w.fmt {
        Some(fmt) if wave::is_whole(w.fmt, end) => Piece {
            at: fmt.at + 8,
            count: 16,
        },
        _ => NO_PIECE,
    }
}

impl Seek {
    // A seek of which no byte was given, and what it asks for.
    fn fresh(length: usize, mends: u32, wanted: Piece) -> Seek
        ensures { result ≡ fresh length mends wanted }
    {
        Seek {
            length,
            mends,
            number: 20,
            riff: 0,
            hertz: 0,
            fmt: NO_PLACE,
            data: NO_PLACE,
            past: 0,
            wanted,
        }
    }

    // A seek in a file of so many bytes, for its take or for what is to be mended. A file of under 12 bytes is asked for nothing.
    #[tactic(auto, unfolding(crate::specs::Seeks::begun))]
    pub fn begin(length: usize, mends: u32) -> Seek
        ensures { result ≡ begun length mends }
    {
        let wanted = if length < 12 || NO_FILE <= length {
            NO_PIECE
        } else {
            Piece { at: 0, count: 12 }
        };
        Seek::fresh(length, mends, wanted)
    }

    // What is wanted of the file: no bytes where the seek is at its end.
    pub fn wanted(self) -> Piece
        ensures { result ≡ self.wanted }
    {
        self.wanted
    }

    // Its walk, which stands where bytes are wanted.
    #[tactic(auto, unfolding(riff::specs::Riff::number_at))]
    fn walk(self) -> Walk
        ensures { result ≡ walk_of self }
    {
        Walk {
            at: self.wanted.at,
            fmt: self.fmt.chunk(riff::FMT),
            data: self.data.chunk(riff::DATA),
            past: self.past != 0,
        }
    }

    // The rate of its fmt, if it was found right.
    fn rate(self) -> Option<u32>
        ensures { result ≡ rate_in self.hertz }
    {
        if self.hertz == 0 {
            None
        } else {
            Some(self.hertz)
        }
    }

    // The seek with a walk, and what it asks for.
    fn walked(self, w: Walk, wanted: Piece) -> Seek
        ensures { result ≡ walked self w wanted }
    {
        Seek {
            fmt: self.fmt.after(w.fmt),
            data: self.data.after(w.data),
            past: u64::from(w.past),
            wanted,
            ..self
        }
    }

    // The end of the walk: a take's is the RIFF chunk's or the file's, a mending's the file's; a file that is too long to be mended is not walked.
    #[tactic(auto, unfolding(crate::specs::Seeks::end_of))]
    fn end(self) -> usize
        ensures { (result ≡ end_of self.length self.mends self.«riff») × (result ≤ self.length) }
    {
        if self.mends == 0 {
            (8 + self.riff as usize).min(self.length)
        } else if mending::TOO_LONG <= self.length {
            0
        } else {
            self.length
        }
    }

    // The seek whose walk has come so far.
    fn walked_on(self, w: Walk) -> Seek
        ensures { result ≡ walked_on self w }
    {
        let walked = self.walked(w, asks(w, self.end()));
        Seek {
            number: 0,
            hertz: 0,
            ..walked
        }
    }

    // The file's first bytes: the walk sets out, where they are those of a RIFF WAVE file.
    #[tactic(auto, unfolding(crate::specs::Seeks::headed, wave::specs::Waves::is_wave))]
    fn head(self, bytes: &[u8]) -> Seek
        ensures { result ≡ headed self bytes.now }
    {
        let fresh = Seek::fresh(self.length, self.mends, NO_PIECE);
        if !wave::is_wave(bytes) {
            return fresh;
        }
        let begun = Seek {
            riff: riff::four(bytes, 4),
            ..fresh
        };
        begun.walked_on(Walk::begin())
    }

    // A chunk's name and size: a step of the walk.
    #[tactic(auto, unfolding(crate::specs::Seeks::stepped_on))]
    fn step(self, bytes: &[u8]) -> Seek
        requires { 8 ≤ length bytes.now }
        ensures { result ≡ stepped_on self bytes.now }
    {
        let w = self.walk();
        let end = self.end();
        if NO_FILE <= self.length || !w.goes_on(end) {
            return self;
        }
        let chunk = Chunk {
            at: w.at,
            name: riff::four(bytes, 0),
            size: riff::four(bytes, 4),
        };
        self.walked_on(w.step(end, chunk))
    }

    // The fields of the fmt: the seek is at its end.
    fn rated(self, bytes: &[u8]) -> Seek
        requires { 16 ≤ length bytes.now }
        ensures { result ≡ rated self bytes.now }
    {
        let walked = self.walked(self.walk(), NO_PIECE);
        Seek {
            hertz: wave::rate(bytes, 0).unwrap_or(0),
            ..walked
        }
    }

    // The bytes that were wanted. Where they are not as many as were wanted, nothing changes.
    #[tactic(auto, unfolding(crate::specs::Seeks::given_to))]
    pub fn give(self, bytes: &[u8]) -> Seek
        ensures { result ≡ given_to self bytes.now }
    {
        let count = bytes.len();
        if count != self.wanted.count {
            return self;
        }
        match count {
            8 => self.step(bytes),
            12 => self.head(bytes),
            16 => self.rated(bytes),
            _ => self,
        }
    }

    // The take that was found, in a file that begins as RIFF WAVE.
    #[tactic(auto, unfolding(crate::specs::Seeks::found_in, crate::specs::Seeks::number_of))]
    fn take(self) -> Result<Take, Refusal>
        requires { self.number ≡ 0 }
        ensures { take_answered result ≡ found_in self }
    {
        // An odd size is refused as a wrong fmt is, also where no data was found.
        let hertz = if self.data.size % 2 == 1 {
            None
        } else {
            self.rate()
        };
        let riff_end = 8 + self.riff as usize;
        let (hertz, data) = wave::judge(self.walk(), hertz, riff_end, self.length)?;
        if !mending::is_reached(Some(data), self.length) {
            return Err(Refusal::NoData);
        }
        Ok(Take {
            hertz,
            at: data.at + 8,
            count: (data.size / 2) as usize,
        })
    }

    // The take that was found; before the seek's end, what would be found if the file had nothing more to say.
    #[tactic(auto, unfolding(crate::specs::Seeks::found_in, crate::specs::Seeks::number_of))]
    pub fn found(self) -> WaveTake
        ensures { result ≡ found_in self }
    {
        if self.number != 0 {
            return WaveTake::refused(self.number);
        }
        WaveTake::from(self.take())
    }

    // What is mended; before the seek's end, what would be if the file had nothing more to say.
    #[tactic(auto, unfolding(crate::specs::Seeks::mended_in))]
    pub fn mended(self) -> Mending
        ensures { result ≡ mended_in self }
    {
        if self.number != 0 {
            return Mending::refused(self.number);
        }
        Mending::from(mending::decide(self.walk(), self.rate(), self.riff, self.length))
    }
}
