// The tuner's calls for hosts in C and Rust: each over a record that the host lends, whatever bytes it holds.

#![tactic(auto)]

ghost use Rattle.std.specs.Prelude.{◌≡◌, []};
ghost use Rattle.rules.specs.Rules.{defaults, cd_rate};
ghost use Rattle.cutting.specs.Cuts.{Cut};
ghost use Rattle.meters.specs.declared.Meter.{Meter};
ghost use Rattle.tuner.specs.Following.{four};
ghost use Rattle.tuner.specs.Tuners.{Took, Started, Changed, Keyed, Reset, Metered};
ghost use Rattle.nights.specs.Night.{Nighted};
ghost use Rattle.host.specs.Shows.{bare, shown_as};

use cutting::Stretch;
use meters::Meter;
use nights::NightAnswer;
use rules::{CD_RATE, Settings};
use tuner::{Answer, Tuner};

// The meter: 0 searching; 1 locking, with the found lag; 2 pitched, with three figures; 9 refused. What is not shown is 0.
#[repr(C)]
#[derive(Clone, Copy)]
pub struct Shown {
    pub state: u32,
    pub lag: f32,
    pub period: f32,
    pub wanted: f32,
    pub rate: f32,
}

// A state that shows nothing.
fn bare(state: u32) -> Shown
    ensures { result ≡ bare state }
{
    Shown {
        state,
        lag: 0.0,
        period: 0.0,
        wanted: 0.0,
        rate: 0.0,
    }
}

// The meter in numbers.
impl From<Meter> for Shown {
    ghost from_gives = { λ m r. r ≡ shown_as m };

    fn from(m: Meter) -> Shown {
        match m {
            Meter::Searching => bare(0),
            Meter::Locking(lag) => Shown { lag, ..bare(1) },
            Meter::Pitched(f) => Shown {
                period: f.period,
                wanted: f.wanted,
                rate: f.rate,
                ..bare(2)
            },
            Meter::Refused => bare(9),
        }
    }
}

// The version of these calls.
pub fn daxfolin_version() -> u32
    ensures { result ≡ 12 }
{
    12
}

// Where the k-th stretch of 512 samples of a recording of so many lies: the last may be shorter, and past the end there is nothing.
pub fn daxfolin_cut(length: usize, k: usize) -> Stretch
    ensures { Cut length k result }
{
    cutting::place(length, k)
}

// A fresh tuner with these settings at this sample rate, with a list where one is asked for and the voices of these intervals, or the default tuner beside
// the number of the first thing that is bad. What the record held is not read.
pub fn daxfolin_start(
    lent: &mut Tuner,
    hertz: u32,
    settings: Settings,
    listed: u32,
    intervals: &[i32],
    store: &[u32],
) -> u32
    ensures { Started hertz settings listed intervals.now store.now lent.new result }
{
    refusals::number(lent.start(hertz, settings, listed, intervals, store))
}

// The default tuner, and 0. What the record held is not read.
pub fn daxfolin_start_default(lent: &mut Tuner) -> u32
    ensures { Started cd_rate defaults 0 [] [] lent.new result }
{
    refusals::number(lent.start(CD_RATE, record::default_settings(), 0, &[], &[]))
}

// The settings count from the next sample.
pub fn daxfolin_change(lent: &mut Tuner, settings: Settings) -> u32
    ensures { Changed lent.old settings lent.new result }
{
    refusals::number(lent.change(settings))
}

// Bytes from the keyboard; what they leave held counts from the next tracking step.
pub fn daxfolin_midi(lent: &mut Tuner, bytes: &[u8]) -> u32
    ensures { Keyed lent.old bytes.now lent.new result }
{
    refusals::number(lent.midi(bytes))
}

// Sample rate, settings, whether a list is kept, and the voices stay; everything else is fresh.
pub fn daxfolin_reset(lent: &mut Tuner, store: &[u32]) -> u32
    ensures { Reset lent.old store.now lent.new result }
{
    refusals::number(lent.reset(store))
}

// Takes a block, gives the last one again or refuses, and writes the outputs.
pub fn daxfolin_block(
    lent: &mut Tuner,
    number: u16,
    samples: &[i16],
    out: &mut [i16],
    first: &mut [i16],
    second: &mut [i16],
    third: &mut [i16],
    store: &mut [u32],
) -> Answer
    ensures { Took lent.old number samples.now (four out.old first.old second.old third.old) store.old
        lent.new result (four out.new first.new second.new third.new) store.new }
{
    lent.block(number, samples, out, first, second, third, store)
}

// The block call over a record lent and altered there, with equal answers: it copies out, calls the step by value and stores back.
pub fn block_in_place(
    lent: &mut Tuner,
    number: u16,
    samples: &[i16],
    out: &mut [i16],
    first: &mut [i16],
    second: &mut [i16],
    third: &mut [i16],
    store: &mut [u32],
) -> Answer
    ensures { Took lent.old number samples.now (four out.old first.old second.old third.old) store.old
        lent.new result (four out.new first.new second.new third.new) store.new }
{
    let taken = lent.block_by_value(number, samples, out, first, second, third, store);
    *lent = taken.tuner;
    taken.answer
}

// A recording's blocks of so many samples, from a block number on, as by the single calls one by one; it stops at the first that is refused.
pub fn daxfolin_night(
    lent: &mut Tuner,
    number: u16,
    size: usize,
    samples: &[i16],
    out: &mut [i16],
    first: &mut [i16],
    second: &mut [i16],
    third: &mut [i16],
    store: &mut [u32],
) -> NightAnswer
    ensures { Nighted lent.old number size samples.now (four out.old first.old second.old third.old) store.old
        lent.new result (four out.new first.new second.new third.new) store.new }
{
    nights::night(
        lent, number, size, samples, out, first, second, third, store,
    )
}

// What the meter shows.
pub fn daxfolin_meter(lent: &Tuner) -> Shown
    ensures { (m : Meter) × Metered lent.now m × (result ≡ shown_as m) }
{
    Shown::from(lent.meter())
}
