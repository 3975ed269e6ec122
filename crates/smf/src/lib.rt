// A Standard MIDI File, one byte after the other: its header, its chunks, and the events of its tracks.

#![tactic(auto)]

ghost use Rattle.std.specs.Prelude.{◌≡◌};
ghost use Rattle.smf.specs.Songs.{unread, refused, asks, counts, leaves, named, headed, one_more, tracked, plays, filmed, divides, skips, divided, declares, formed, long, opened, sized, numbered, after_number, track_ends, after_track, after_byte, ended};
ghost use Rattle.smf.specs.Kinds.{phase_number, Numbered, answered};

use refusals::Refusal;
use tracks::Track;

// What comes: the header's name, its length, the format, how many tracks, the division, the rest of the header; a chunk's name and its size; the bytes of a track; the body of another chunk.
#[derive(Clone, Copy, Debug, PartialEq, Eq)]
enum Phase {
    Header,
    HeaderLength,
    Format,
    Tracks,
    Division,
    HeaderRest,
    Chunk,
    Size,
    Track,
    Body,
}

// A number that no phase has.
#[derive(Clone, Copy, Debug, PartialEq, Eq)]
struct UnknownPhase;

impl TryFrom<u32> for Phase {
    type Error = UnknownPhase;

    ghost try_from_gives = { Numbered };

    fn try_from(number: u32) -> Result<Phase, UnknownPhase> {
        match number {
            0 => Ok(Phase::Header),
            1 => Ok(Phase::HeaderLength),
            2 => Ok(Phase::Format),
            3 => Ok(Phase::Tracks),
            4 => Ok(Phase::Division),
            5 => Ok(Phase::HeaderRest),
            6 => Ok(Phase::Chunk),
            7 => Ok(Phase::Size),
            8 => Ok(Phase::Track),
            9 => Ok(Phase::Body),
            _ => Err(UnknownPhase),
        }
    }
}

// What a header says: the format, how many tracks, the division; and how many tracks have begun, of which 65535 are counted.
#[repr(C)]
#[derive(Clone, Copy)]
pub struct Head {
    pub format: u32,
    pub declared: u32,
    pub division: u32,
    pub tracks: u32,
}

// A file that is read: the refusal or 0; what became whole by the last byte, as of a track; what comes next; a number so far and how many bytes it still has; the bytes left of a body; the chunk's name; the header; the track.
#[repr(C)]
#[derive(Clone, Copy)]
pub struct Song {
    pub number: u32,
    pub whole: u32,
    pub phase: u32,
    pub value: u32,
    pub count: u32,
    pub left: u32,
    pub name: u32,
    pub head: Head,
    pub track: Track,
}

// A file of which no byte was read.
pub fn begin() -> Song
    ensures { result ≡ unread }
{
    Song {
        number: 0,
        whole: 0,
        phase: Phase::Header as u32,
        value: 0,
        count: 4,
        left: 0,
        name: 0,
        head: Head {
            format: 0,
            declared: 0,
            division: 0,
            tracks: 0,
        },
        track: tracks::begin(),
    }
}

// The file, refused.
fn refuse(s: Song, number: u32) -> Song
    ensures { result ≡ refused s number }
{
    Song {
        number,
        whole: 0,
        ..s
    }
}

// A number of so many bytes comes.
fn asks(s: Song, phase: Phase, count: u32) -> Song
    ensures { result ≡ asks s (phase_number phase) count }
{
    Song {
        number: 0,
        whole: 0,
        phase: phase as u32,
        value: 0,
        count,
        ..s
    }
}

// So much of a number is known, and so many bytes are still to come.
fn counts(s: Song, value: u32, count: u32) -> Song
    ensures { result ≡ counts s value count }
{
    Song {
        number: 0,
        whole: 0,
        value,
        count,
        ..s
    }
}

// So many bytes of a body come.
fn leaves(s: Song, phase: Phase, left: u32) -> Song
    ensures { result ≡ leaves s (phase_number phase) left }
{
    Song {
        left,
        ..asks(s, phase, 0)
    }
}

// A chunk of this name, whose size comes.
fn named(s: Song, name: u32) -> Song
    ensures { result ≡ named s name }
{
    Song {
        left: 0,
        name,
        ..asks(s, Phase::Size, 4)
    }
}

// With this header, another number of so many bytes comes.
fn headed(s: Song, head: Head, phase: Phase, count: u32) -> Song
    ensures { result ≡ headed s head (phase_number phase) count }
{
    Song {
        head,
        ..asks(s, phase, count)
    }
}

// Tracks are counted as far as a header can declare them.
#[tactic(auto, unfolding(crate::specs::Songs::one_more))]
fn one_more(tracks: u32) -> u32
    ensures { result ≡ one_more tracks }
{
    if tracks < 65535 { tracks + 1 } else { tracks }
}

// A track more begins, with so many bytes.
fn tracked(s: Song, left: u32) -> Song
    ensures { result ≡ tracked s left }
{
    Song {
        left,
        head: Head {
            tracks: one_more(s.head.tracks),
            ..s.head
        },
        track: tracks::begin(),
        ..asks(s, Phase::Track, 0)
    }
}

// A byte of a track was read.
fn plays(s: Song, track: Track, phase: Phase, count: u32, left: u32) -> Song
    ensures { result ≡ plays s track (phase_number phase) count left }
{
    Song {
        whole: track.whole,
        left,
        track,
        ..asks(s, phase, count)
    }
}

// Frames a second that film has; 29 stands for 30 with drops.
fn filmed(frames: u32) -> bool
    ensures { result ≡ filmed frames }
{
    matches!(frames, 24 | 25 | 29 | 30)
}

// The division says how long a tick is.
#[tactic(auto, unfolding(crate::specs::Songs::divides))]
fn divides(v: u32) -> bool
    ensures { result ≡ divides v }
{
    match v {
        0..=32767 => v != 0,
        32768..=65535 => filmed(256 - v / 256) && v % 256 != 0,
        _ => false,
    }
}

// So many bytes are passed over, and then comes the next chunk's name.
#[tactic(auto, unfolding(crate::specs::Songs::skips))]
fn skips(s: Song, phase: Phase, left: u32) -> Song
    ensures { result ≡ skips s (phase_number phase) left }
{
    if left == 0 {
        return asks(s, Phase::Chunk, 4);
    }
    leaves(s, phase, left)
}

// Behind the division.
#[tactic(auto, unfolding(crate::specs::Songs::divided))]
fn divided(s: Song, v: u32) -> Result<Song, Refusal>
    ensures { answered s result ≡ divided s v }
{
    if !divides(v) {
        return Err(Refusal::DivisionWrong);
    }
    let head = Head {
        division: v,
        tracks: 0,
        ..s.head
    };
    Ok(skips(Song { head, ..s }, Phase::HeaderRest, s.left))
}

// Behind the number of tracks that the header declares.
fn declares(s: Song, v: u32) -> Song
    ensures { result ≡ declares s v }
{
    let head = Head {
        declared: v,
        division: 0,
        tracks: 0,
        ..s.head
    };
    headed(s, head, Phase::Division, 2)
}

// Behind the format.
#[tactic(auto, unfolding(crate::specs::Songs::formed))]
fn formed(s: Song, v: u32) -> Result<Song, Refusal>
    ensures { answered s result ≡ formed s v }
{
    if v > 1 {
        return Err(Refusal::FormatUnknown);
    }
    let head = Head {
        format: v,
        declared: 0,
        division: 0,
        tracks: 0,
    };
    Ok(headed(s, head, Phase::Tracks, 2))
}

// Behind the header's length.
#[tactic(auto, unfolding(crate::specs::Songs::long))]
fn long(s: Song, v: u32) -> Result<Song, Refusal>
    ensures { answered s result ≡ long s v }
{
    if v < 6 {
        return Err(Refusal::EndsEarly);
    }
    let left = v - 6;
    Ok(asks(Song { left, ..s }, Phase::Format, 2))
}

// Behind the first name.
#[tactic(auto, unfolding(crate::specs::Songs::opened))]
fn opened(s: Song, v: u32) -> Result<Song, Refusal>
    ensures { answered s result ≡ opened s v }
{
    if v != u32::from_be_bytes(*b"MThd") {
        return Err(Refusal::NoMidiFile);
    }
    Ok(asks(s, Phase::HeaderLength, 4))
}

// Behind a chunk's size.
#[tactic(auto, unfolding(crate::specs::Songs::sized))]
fn sized(s: Song, v: u32) -> Song
    ensures { result ≡ sized s v }
{
    if s.name != u32::from_be_bytes(*b"MTrk") {
        return skips(s, Phase::Body, v);
    }
    if v == 0 {
        return asks(tracked(s, 0), Phase::Chunk, 4);
    }
    tracked(s, v)
}

// Behind a number; in a phase that there is not, it is a chunk's size.
#[tactic(auto, unfolding(crate::specs::Songs::numbered))]
fn numbered(s: Song, v: u32) -> Result<Song, Refusal>
    ensures { answered s result ≡ numbered s v }
{
    match Phase::try_from(s.phase) {
        Ok(Phase::Header) => opened(s, v),
        Ok(Phase::HeaderLength) => long(s, v),
        Ok(Phase::Format) => formed(s, v),
        Ok(Phase::Tracks) => Ok(declares(s, v)),
        Ok(Phase::Division) => divided(s, v),
        Ok(Phase::Chunk) => Ok(named(s, v)),
        _ => Ok(sized(s, v)),
    }
}

// After a byte of a number.
#[tactic(auto, unfolding(crate::specs::Songs::after_number))]
fn after_number(s: Song, b: u8) -> Result<Song, Refusal>
    ensures { answered s result ≡ after_number s b }
{
    let value = s.value % 16777216 * 256 + u32::from(b);
    if s.count < 2 {
        return numbered(s, value);
    }
    Ok(counts(s, value, s.count - 1))
}

// Behind the last byte of a track.
#[tactic(auto, unfolding(crate::specs::Songs::track_ends))]
fn track_ends(s: Song, t: Track) -> Song
    ensures { result ≡ track_ends s t }
{
    match tracks::end(t) {
        0 => plays(s, t, Phase::Chunk, 4, 0),
        number => refuse(s, number),
    }
}

// After a byte of a track; inlined, since a call would copy file and track.
#[tactic(auto, unfolding(crate::specs::Songs::after_track))]
#[inline(always)]
fn after_track(s: Song, t: Track) -> Song
    ensures { result ≡ after_track s t }
{
    if t.number != 0 {
        return refuse(s, t.number);
    }
    if s.left < 2 {
        return track_ends(s, t);
    }
    plays(s, t, Phase::Track, 0, s.left - 1)
}

// After a byte: what is refused stays.
#[tactic(auto, unfolding(crate::specs::Songs::after_byte))]
pub fn byte(s: Song, b: u8) -> Song
    ensures { result ≡ after_byte s b }
{
    if s.number != 0 {
        return s;
    }
    match Phase::try_from(s.phase) {
        Ok(Phase::Track) => after_track(s, tracks::byte(s.track, b)),
        Ok(phase @ (Phase::HeaderRest | Phase::Body)) => skips(s, phase, s.left.saturating_sub(1)),
        _ => match after_number(s, b) {
            Ok(next) => next,
            Err(refusal) => refuse(s, refusal.number()),
        },
    }
}

// What is answered where the file ends: the refusal, or 0.
#[tactic(auto, unfolding(crate::specs::Songs::ended))]
pub fn end(s: Song) -> u32
    ensures { result ≡ ended s }
{
    if s.number != 0 {
        return s.number;
    }
    let Head {
        declared,
        tracks,
        ..
    } = s.head;
    match Phase::try_from(s.phase) {
        Ok(Phase::Header) => Refusal::NoMidiFile.number(),
        Ok(Phase::Chunk | Phase::Size) if tracks != 0 && tracks >= declared => 0,
        _ => Refusal::EndsEarly.number(),
    }
}
