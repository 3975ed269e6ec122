// Document 01 as definitions, with their laws: they stand in specs/. What code and definitions share is declared here, and numbers that code has in more than one place.

// The most samples of a block.

#![tactic(auto)]

pub const LONGEST_BLOCK: usize = 512;

// The most samples of a take.
pub const TAKE_LIMIT: u64 = 1000000000;

// The newest samples that are kept.
pub const KEPT_SAMPLES: usize = 1764;

// The newest samples at eighth rate that are kept.
pub const KEPT_EIGHTHS: usize = 224;

// Places for the kept samples and a block's.
pub const OPEN_SAMPLES: usize = KEPT_SAMPLES + LONGEST_BLOCK;

// Places for the kept samples at eighth rate and a block's.
pub const OPEN_EIGHTHS: usize = KEPT_EIGHTHS + LONGEST_BLOCK / 8;

// The lags 2 to 110 at eighth rate.
pub const EIGHTH_LAGS: usize = 109;

// The place of the longest of them.
pub const LAST_EIGHTH_LAG: usize = EIGHTH_LAGS - 1;

// The lags that are tracked, and so the periods in 1/256 sample.
pub const LOWEST_LAG: u32 = 16;

pub const HIGHEST_LAG: u32 = 880;

pub const LEAST_PERIOD: u32 = 256 * LOWEST_LAG;

pub const GREATEST_PERIOD: u32 = 256 * HIGHEST_LAG;

// The highest that the lowest of eight lags can be.
pub const HIGHEST_LOW: u32 = HIGHEST_LAG - 7;

// The sample rates: of discs, and of film.
pub const CD_RATE: u32 = 44100;

pub const FILM_RATE: u32 = 48000;

// The tables at these rates: how many notes each holds, and its first.
pub const CD_NOTES: usize = 69;

pub const CD_FIRST_NOTE: u32 = 32;

pub const FILM_NOTES: usize = 70;

pub const FILM_FIRST_NOTE: u32 = 33;

// The modes: the wanted note is of the scale, or the key held.
pub const SCALE_MODE: u32 = 0;

pub const KEYBOARD_MODE: u32 = 1;

// The highest channel of a keyboard.
pub const HIGHEST_CHANNEL: u32 = 15;

// No wanted note: MIDI notes are 0 to 127.
pub const NO_NOTE: u32 = 128;

// The rate of a fresh tuner, and the least and the greatest.
pub const FRESH_RATE: u32 = 65536;

pub const LEAST_RATE: u32 = 32768;

pub const GREATEST_RATE: u32 = 131072;

// How far the position may lie behind the input: 1,000 samples.
pub const FARTHEST: u32 = 1000 * 65536;

// scale: a mask of 12 bits, bit = note number mod 12; eps in 1/1024; decay in 1/256; floor: a mean square; mode: 0 scale, 1 keyboard; channel: of the keyboard.
#[repr(C)]
#[derive(Clone, Copy)]
pub struct Settings {
    pub scale: u32,
    pub eps: u32,
    pub decay: u32,
    pub floor: u32,
    pub mode: u32,
    pub channel: u32,
}

// What is in force at a sample: the settings, the key held, 128 where there is none, and the sample rate.
#[derive(Clone, Copy)]
pub struct InForce {
    pub settings: Settings,
    pub key: u32,
    pub hertz: u32,
}

// The goal of a tracking step: the wanted note, 128 where there is none, and the raw rate toward it.
#[derive(Clone, Copy)]
pub struct Goal {
    pub note: u32,
    pub raw: u32,
}

// A rate in 1/65536, and what rounding cut off it, in 1/256 of that: 0 to 255.
#[derive(Clone, Copy)]
pub struct Smoothed {
    pub rate: u32,
    pub kept: u32,
}

// What a sound was found to be: its period in 1/256 sample, 0 where there is none; the wanted note, 128 where there is none; the rate in 1/65536, and
// what rounding cut off it.
#[repr(C)]
#[derive(Clone, Copy)]
pub struct Tone {
    pub period: u32,
    pub note: u32,
    pub rate: u32,
    pub kept: u32,
}
