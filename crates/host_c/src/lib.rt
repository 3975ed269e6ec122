// The tuner's calls for C and Rust hosts, exported: each is the call of that name in the library host, with its promise.
#![tactic(auto)]

ghost use Rattle.std.specs.Prelude.{◌≡◌, []};
ghost use Rattle.rules.specs.Rules.{defaults, cd_rate};
ghost use Rattle.cutting.specs.Cuts.{Cut};
ghost use Rattle.meters.specs.declared.Meter.{Meter};
ghost use Rattle.tuner.specs.Following.{four};
ghost use Rattle.tuner.specs.Tuners.{Took, Started, Changed, Keyed, Reset, Metered};
ghost use Rattle.nights.specs.Night.{Nighted};
ghost use Rattle.host.specs.Shows.{shown_as};

use cutting::Stretch;
use host::Shown;
use meters::Meter;
use nights::NightAnswer;
use rules::Settings;
use tuner::{Answer, Tuner};

// The version of these calls.
#[unsafe(no_mangle)]
pub extern "C" fn daxfolin_version() -> u32
    ensures { result ≡ 12 }
{
    host::daxfolin_version()
}

// Where the k-th stretch of 512 samples of a recording of so many lies: the last may be shorter, and past the end there is nothing.
#[unsafe(no_mangle)]
pub extern "C" fn daxfolin_cut(length: usize, k: usize) -> Stretch
    ensures { Cut length k result }
{
    host::daxfolin_cut(length, k)
}

// A fresh tuner with these settings at this sample rate, with a list where one is asked for and the voices of these intervals, or the default tuner beside
// the number of the first thing that is bad. What the record held is not read.
#[unsafe(no_mangle)]
pub extern "C" fn daxfolin_start(
    lent: &mut Tuner,
    hertz: u32,
    settings: Settings,
    listed: u32,
    intervals: &[i32],
    store: &[u32],
) -> u32
    ensures { Started hertz settings listed intervals.now store.now lent.new result }
{
    host::daxfolin_start(lent, hertz, settings, listed, intervals, store)
}

// The default tuner, and 0. What the record held is not read.
#[unsafe(no_mangle)]
pub extern "C" fn daxfolin_start_default(lent: &mut Tuner) -> u32
    ensures { Started cd_rate defaults 0 [] [] lent.new result }
{
    host::daxfolin_start_default(lent)
}

// The settings count from the next sample.
#[unsafe(no_mangle)]
pub extern "C" fn daxfolin_change(lent: &mut Tuner, settings: Settings) -> u32
    ensures { Changed lent.old settings lent.new result }
{
    host::daxfolin_change(lent, settings)
}

// Bytes from the keyboard; what they leave held counts from the next tracking step.
#[unsafe(no_mangle)]
pub extern "C" fn daxfolin_midi(lent: &mut Tuner, bytes: &[u8]) -> u32
    ensures { Keyed lent.old bytes.now lent.new result }
{
    host::daxfolin_midi(lent, bytes)
}

// Sample rate, settings, whether a list is kept, and the voices stay; everything else is fresh.
#[unsafe(no_mangle)]
pub extern "C" fn daxfolin_reset(lent: &mut Tuner, store: &[u32]) -> u32
    ensures { Reset lent.old store.now lent.new result }
{
    host::daxfolin_reset(lent, store)
}

// Takes a block, gives the last one again or refuses, and writes the outputs.
#[unsafe(no_mangle)]
pub extern "C" fn daxfolin_block(
    lent: &mut Tuner,
    number: u16,
    samples: &[i16],
    out: &mut [i16],
    first: &mut [i16],
    second: &mut [i16],
    third: &mut [i16],
    store: &mut [u32],
) -> Answer
    ensures { Took lent.old number samples.now (four out.old first.old second.old third.old) store.old
        lent.new result (four out.new first.new second.new third.new) store.new }
{
    host::daxfolin_block(lent, number, samples, out, first, second, third, store)
}

// A recording's blocks of so many samples, from a block number on, as by the single calls one by one; it stops at the first that is refused.
#[unsafe(no_mangle)]
pub extern "C" fn daxfolin_night(
    lent: &mut Tuner,
    number: u16,
    size: usize,
    samples: &[i16],
    out: &mut [i16],
    first: &mut [i16],
    second: &mut [i16],
    third: &mut [i16],
    store: &mut [u32],
) -> NightAnswer
    ensures { Nighted lent.old number size samples.now (four out.old first.old second.old third.old) store.old
        lent.new result (four out.new first.new second.new third.new) store.new }
{
    host::daxfolin_night(
        lent, number, size, samples, out, first, second, third, store,
    )
}

// What the meter shows.
#[unsafe(no_mangle)]
pub extern "C" fn daxfolin_meter(lent: &Tuner) -> Shown
    ensures { (m : Meter) × Metered lent.now m × (result ≡ shown_as m) }
{
    host::daxfolin_meter(lent)
}
