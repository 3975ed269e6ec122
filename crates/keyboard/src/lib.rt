// A MIDI keyboard: which key is held after some bytes, on one chosen channel.

#![tactic(auto, using(std::proofs::lemmas::Bool::Decides::nat_tests), unfolding(crate::specs::Keys::data_bytes, crate::specs::Keys::released, crate::specs::Keys::key_after, crate::specs::Keys::after_data, crate::specs::Keys::after_byte, crate::specs::Keys::on_channel))]

ghost use Rattle.std.specs.Prelude.{◌≡◌};
ghost use Rattle.whole.specs.Tests.{Decides};
ghost use Rattle.keyboard.specs.Keys.{waiting, fresh, data_bytes, released, key_after, after_data, after_byte, played, on_channel, StatusIn, HalfIn, KeyboardIn};

// No key is held: one above the highest note.
pub const NO_KEY: u32 = 128;

// No running status.
pub const NO_STATUS: u16 = 0;

// No half message: one above the highest data byte.
pub const NO_DATA: u16 = 128;

// Below this a byte is data; from here on it is a channel's status.
const STATUS: u8 = 128;

// From here on a status is of no channel: system common and exclusive.
const SYSTEM: u8 = 240;

// From here on a byte is real-time.
const REAL_TIME: u8 = 248;

// Note off and note on of channel 0.
const NOTE_OFF: u64 = 128;

const NOTE_ON: u64 = 144;

// Program change and channel pressure, from the one to below the other, have one data byte.
const PROGRAM_CHANGE: u16 = 192;

const PITCH_BEND: u16 = 224;

// The key held; the running status; the first data byte of a half message.
#[repr(C)]
#[derive(Clone, Copy)]
pub struct Keyboard {
    pub key: u32,
    pub status: u16,
    pub half: u16,
}

// A keyboard without a half message.
fn waiting(key: u32, status: u16) -> Keyboard
    ensures { result ≡ waiting key status }
{
    Keyboard {
        key,
        status,
        half: NO_DATA,
    }
}

// No key is held and nothing was played.
pub fn fresh() -> Keyboard
    ensures { result ≡ fresh }
{
    waiting(NO_KEY, NO_STATUS)
}

// How many data bytes a status has.
// Stays: arms from below. With those of two data bytes last, a run of notes under one status takes a fifth longer.
fn data_bytes(status: u16) -> u32
    ensures { result ≡ data_bytes status }
{
    match status {
        NO_STATUS => 0,
        ..PROGRAM_CHANGE => 2,
        ..PITCH_BEND => 1,
        _ => 2,
    }
}

// The key after the release of a note.
fn released(key: u32, note: u32) -> u32
    ensures { result ≡ released key note }
{
    if note == key { NO_KEY } else { key }
}

// The key after a whole message of two data bytes.
fn key_after(channel: u32, key: u32, status: u16, note: u16, velocity: u8) -> u32
    ensures { result ≡ key_after channel key status note velocity }
{
    let status = u64::from(status);
    let channel = u64::from(channel);
    let note = u32::from(note);
    if status == NOTE_ON + channel {
        if velocity > 0 {
            note
        } else {
            released(key, note)
        }
    } else if status == NOTE_OFF + channel {
        released(key, note)
    } else {
        key
    }
}

// The keyboard after a data byte.
// Stays: each test returns, as in `byte`.
fn after_data(channel: u32, k: Keyboard, b: u8) -> Keyboard
    ensures { result ≡ after_data channel k b }
{
    if data_bytes(k.status) != 2 {
        return k;
    }
    if k.half == NO_DATA {
        return Keyboard {
            half: u16::from(b),
            ..k
        };
    }
    waiting(key_after(channel, k.key, k.status, k.half, b), k.status)
}

// The keyboard after a byte.
// Stays: each arm returns. As values of one expression they pack the keyboard anew at each byte, and a long run takes up to twice the time.
pub fn byte(channel: u32, k: Keyboard, b: u8) -> Keyboard
    ensures { result ≡ after_byte channel k b }
{
    match b {
        ..STATUS => return after_data(channel, k, b),
        STATUS..SYSTEM => return waiting(k.key, u16::from(b)),
        SYSTEM..REAL_TIME => return waiting(k.key, NO_STATUS),
        REAL_TIME.. => return k,
    }
}

// The keyboard after some bytes.
#[tactic(auto, using(crate::specs::Playing::played_next), unfolding(crate::specs::Keys::played))]
pub fn played(channel: u32, k: Keyboard, bytes: &[u8]) -> Keyboard
    ensures { result ≡ played channel k bytes.now }
{
    let mut after = k;
    for b in bytes {
        after = byte(channel, after, *b);
    }
    after
}

// The running status: none, or a channel's.
fn status_right(status: u16) -> bool
    ensures { Decides result (StatusIn status) }
{
    status == NO_STATUS || u16::from(STATUS) <= status && status < u16::from(SYSTEM)
}

// The half message: none, or a data byte under a status that has two.
fn half_right(status: u16, half: u16) -> bool
    ensures { Decides result (HalfIn status half) }
{
    half == NO_DATA || half < NO_DATA && data_bytes(status) == 2
}

// A keyboard that may be kept.
pub fn right(k: Keyboard) -> bool
    ensures { Decides result (KeyboardIn k) }
{
    k.key <= NO_KEY && status_right(k.status) && half_right(k.status, k.half)
}

// The keyboard when a channel is chosen: another than that in force begins anew.
pub fn on_channel(in_force: u32, chosen: u32, k: Keyboard) -> Keyboard
    ensures { result ≡ on_channel in_force chosen k }
{
    if chosen == in_force { k } else { fresh() }
}
