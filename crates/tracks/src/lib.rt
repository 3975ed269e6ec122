// The events of a track of a Standard MIDI File, one byte after the other.

#![tactic(auto)]

ghost use Rattle.std.specs.Prelude.{◌≡◌};
ghost use Rattle.tracks.specs.Tracks.{begun, refused, partly, message, other, timed, quantified, is_tempo, has_one, later, after_delta, after_running, after_first, after_second, after_status, closed, opened, after_length, after_body, after_phase, after_byte, ended};
ghost use Rattle.tracks.specs.Kinds.{phase_number, whole_number, Numbered, answered};

use refusals::Refusal;

// What the next byte is: the first of a delta time, a further one, a status or running data, the first and the second data byte, a meta event's type, a length, a body; or nothing counts behind the track's end.
#[derive(Clone, Copy, Debug, PartialEq, Eq)]
enum Phase {
    Ready,
    Delta,
    Status,
    First,
    Second,
    Meta,
    Length,
    Body,
    Ended,
}

// A number that no phase has.
#[derive(Clone, Copy, Debug, PartialEq, Eq)]
struct UnknownPhase;

impl TryFrom<u32> for Phase {
    type Error = UnknownPhase;

    ghost try_from_gives = { Numbered };

    fn try_from(number: u32) -> Result<Phase, UnknownPhase> {
        match number {
            0 => Ok(Phase::Ready),
            1 => Ok(Phase::Delta),
            2 => Ok(Phase::Status),
            3 => Ok(Phase::First),
            4 => Ok(Phase::Second),
            5 => Ok(Phase::Meta),
            6 => Ok(Phase::Length),
            7 => Ok(Phase::Body),
            8 => Ok(Phase::Ended),
            _ => Err(UnknownPhase),
        }
    }
}

// What became whole by the last byte: nothing, a channel's message, a tempo, the track's end, an event that is passed over.
#[derive(Clone, Copy, Debug, PartialEq, Eq)]
enum Whole {
    Nothing,
    Message,
    Tempo,
    End,
    Other,
}

// A meta event's status, and the types of two of them.
const META_EVENT: u32 = 255;

const END_OF_TRACK: u32 = 47;

const SET_TEMPO: u32 = 81;

// No event comes behind this tick and one delta time more.
const MOST_TICK: u64 = 1 << 48;

// A track that is read: the refusal or 0, what became whole, what comes next, the running status or 0, the event's status, its first data byte or type, a number so far, how many bytes it still has, and the tick of the event.
#[repr(C)]
#[derive(Clone, Copy)]
pub struct Track {
    pub number: u32,
    pub whole: u32,
    pub phase: u32,
    pub running: u32,
    pub status: u32,
    pub first: u32,
    pub value: u32,
    pub left: u32,
    pub tick: u64,
}

// A track of which no byte was read.
pub fn begin() -> Track
    ensures { result ≡ begun }
{
    Track {
        number: 0,
        whole: Whole::Nothing as u32,
        phase: Phase::Ready as u32,
        running: 0,
        status: 0,
        first: 0,
        value: 0,
        left: 0,
        tick: 0,
    }
}

// Within an event: what comes next, and what is known of it.
fn part(t: Track, phase: Phase, status: u32, first: u32, value: u32, left: u32) -> Track
    ensures { result ≡ partly t (phase_number phase) status first value left }
{
    Track {
        number: 0,
        whole: Whole::Nothing as u32,
        phase: phase as u32,
        status,
        first,
        value,
        left,
        ..t
    }
}

// Behind a channel's message, whose status is the running one.
fn message(t: Track, status: u32, first: u32, second: u32) -> Track
    ensures { result ≡ message t status first second }
{
    Track {
        whole: Whole::Message as u32,
        running: status,
        ..part(t, Phase::Ready, status, first, second, 0)
    }
}

// Behind another event, which ends the running status: what it was, what comes next, and its number.
fn other(t: Track, whole: Whole, phase: Phase, value: u32) -> Track
    ensures { result ≡ other t (whole_number whole) (phase_number phase) value }
{
    Track {
        whole: whole as u32,
        running: 0,
        ..part(t, phase, t.status, t.first, value, 0)
    }
}

// Behind a delta time: the event's tick.
fn timed(t: Track, tick: u64) -> Track
    ensures { result ≡ timed t tick }
{
    Track {
        tick,
        ..part(t, Phase::Status, 0, 0, 0, 0)
    }
}

// A quantity after a byte more: seven bits.
fn more(value: u32, b: u8) -> u32
    ensures { result ≡ quantified value b }
{
    value % 2097152 * 128 + u32::from(b % 128)
}

// After a byte of a delta time of which so much is known, and which may have so many bytes still.
#[tactic(auto, unfolding(crate::specs::Tracks::after_delta))]
fn after_delta(t: Track, value: u32, left: u32, b: u8) -> Result<Track, Refusal>
    ensures { answered t result ≡ after_delta t value left b }
{
    if b < 128 {
        return later(t, more(value, b));
    }
    if left < 2 {
        return Err(Refusal::QuantityTooLong);
    }
    Ok(part(t, Phase::Delta, 0, 0, more(value, b), left - 1))
}

// So many ticks later.
#[tactic(auto, unfolding(crate::specs::Tracks::later))]
fn later(t: Track, ticks: u32) -> Result<Track, Refusal>
    ensures { answered t result ≡ later t ticks }
{
    if t.tick > MOST_TICK {
        return Err(Refusal::TrackTooLong);
    }
    Ok(timed(t, t.tick + u64::from(ticks)))
}

// The status has one data byte: program change and channel pressure.
fn has_one(status: u32) -> bool
    ensures { result ≡ has_one status }
{
    matches!(status, 192..=223)
}

// After the first data byte under a status.
#[tactic(auto, unfolding(crate::specs::Tracks::after_first))]
fn after_first(t: Track, status: u32, b: u8) -> Result<Track, Refusal>
    ensures { answered t result ≡ after_first t status b }
{
    if b >= 128 {
        return Err(Refusal::StatusWithin);
    }
    if has_one(status) {
        return Ok(message(t, status, u32::from(b), 0));
    }
    Ok(part(t, Phase::Second, status, u32::from(b), 0, 0))
}

// After the second data byte.
#[tactic(auto, unfolding(crate::specs::Tracks::after_second))]
fn after_second(t: Track, b: u8) -> Result<Track, Refusal>
    ensures { answered t result ≡ after_second t b }
{
    if b >= 128 {
        return Err(Refusal::StatusWithin);
    }
    Ok(message(t, t.status, t.first, u32::from(b)))
}

// After a data byte where a status may stand.
#[tactic(auto, unfolding(crate::specs::Tracks::after_running))]
fn after_running(t: Track, b: u8) -> Result<Track, Refusal>
    ensures { answered t result ≡ after_running t b }
{
    if t.running == 0 {
        return Err(Refusal::NoRunningStatus);
    }
    after_first(t, t.running, b)
}

// After the first byte behind a delta time. This, `after_length`, `after_phase` and `byte` are inlined, since each call would copy the track.
#[tactic(auto, unfolding(crate::specs::Tracks::after_status))]
#[inline(always)]
fn after_status(t: Track, b: u8) -> Result<Track, Refusal>
    ensures { answered t result ≡ after_status t b }
{
    match b {
        0..=127 => after_running(t, b),
        128..=239 => Ok(part(t, Phase::First, u32::from(b), 0, 0, 0)),
        240 | 247 => Ok(part(t, Phase::Length, u32::from(b), 0, 0, 4)),
        255 => Ok(part(t, Phase::Meta, META_EVENT, 0, 0, 0)),
        _ => Err(Refusal::UnknownStatus),
    }
}

// The event is a tempo.
fn is_tempo(t: Track) -> bool
    ensures { result ≡ is_tempo t }
{
    t.status == META_EVENT && t.first == SET_TEMPO
}

// Behind the body of an exclusive or a meta event, whose last three bytes are this number.
#[tactic(auto, unfolding(crate::specs::Tracks::closed))]
fn closed(t: Track, value: u32) -> Result<Track, Refusal>
    ensures { answered t result ≡ closed t value }
{
    match (t.status, t.first) {
        (META_EVENT, END_OF_TRACK) => Ok(other(t, Whole::End, Phase::Ended, 0)),
        (META_EVENT, SET_TEMPO) if value == 0 => Err(Refusal::TempoWrong),
        (META_EVENT, SET_TEMPO) => Ok(other(t, Whole::Tempo, Phase::Ready, value)),
        _ => Ok(other(t, Whole::Other, Phase::Ready, 0)),
    }
}

// Behind the length of a body.
#[tactic(auto, unfolding(crate::specs::Tracks::opened))]
fn opened(t: Track, length: u32) -> Result<Track, Refusal>
    ensures { answered t result ≡ opened t length }
{
    if is_tempo(t) && length != 3 {
        return Err(Refusal::TempoWrong);
    }
    if length == 0 {
        return closed(t, 0);
    }
    Ok(part(t, Phase::Body, t.status, t.first, 0, length))
}

// After a byte of a length.
#[tactic(auto, unfolding(crate::specs::Tracks::after_length))]
#[inline(always)]
fn after_length(t: Track, b: u8) -> Result<Track, Refusal>
    ensures { answered t result ≡ after_length t b }
{
    let value = more(t.value, b);
    if b < 128 {
        return opened(t, value);
    }
    if t.left < 2 {
        return Err(Refusal::QuantityTooLong);
    }
    Ok(part(t, Phase::Length, t.status, t.first, value, t.left - 1))
}

// After a byte of a body.
#[tactic(auto, unfolding(crate::specs::Tracks::after_body))]
fn after_body(t: Track, b: u8) -> Result<Track, Refusal>
    ensures { answered t result ≡ after_body t b }
{
    let value = t.value % 65536 * 256 + u32::from(b);
    if t.left < 2 {
        return closed(t, value);
    }
    Ok(part(t, Phase::Body, t.status, t.first, value, t.left - 1))
}

// After a byte of a track that is not refused; behind its end none counts, nor in a phase that there is not.
#[tactic(auto, unfolding(crate::specs::Tracks::after_phase))]
#[inline(always)]
fn after_phase(t: Track, b: u8) -> Result<Track, Refusal>
    ensures { answered t result ≡ after_phase t b }
{
    match Phase::try_from(t.phase) {
        Ok(Phase::Ready) => after_delta(t, 0, 4, b),
        Ok(Phase::Delta) => after_delta(t, t.value, t.left, b),
        Ok(Phase::Status) => after_status(t, b),
        Ok(Phase::First) => after_first(t, t.status, b),
        Ok(Phase::Second) => after_second(t, b),
        Ok(Phase::Meta) => Ok(part(t, Phase::Length, META_EVENT, u32::from(b), 0, 4)),
        Ok(Phase::Length) => after_length(t, b),
        Ok(Phase::Body) => after_body(t, b),
        Ok(Phase::Ended) | Err(UnknownPhase) => Ok(other(t, Whole::Nothing, Phase::Ended, 0)),
    }
}

// After a byte: what is refused stays.
#[tactic(auto, unfolding(crate::specs::Tracks::after_byte))]
#[inline(always)]
pub fn byte(t: Track, b: u8) -> Track
    ensures { result ≡ after_byte t b }
{
    if t.number != 0 {
        return t;
    }
    match after_phase(t, b) {
        Ok(next) => next,
        Err(refusal) => Track {
            number: refusal.number(),
            whole: Whole::Nothing as u32,
            ..t
        },
    }
}

// What is answered where the track's chunk ends: the refusal, or 0.
#[tactic(auto, unfolding(crate::specs::Tracks::ended))]
pub fn end(t: Track) -> u32
    ensures { result ≡ ended t }
{
    if t.number != 0 {
        return t.number;
    }
    match Phase::try_from(t.phase) {
        Ok(Phase::Ready | Phase::Ended) => 0,
        _ => Refusal::WithinAnEvent.number(),
    }
}
