// The meter: what it shows of a pitch.

#![tactic(auto)]

ghost use Rattle.std.specs.Prelude.{◌≡◌, ◌^◌, ◌<◌};
ghost use Rattle.rules.specs.Facts.{SampleRate, PitchIn};
ghost use Rattle.pitch.specs.Pitches.{pitch_of};
ghost use Rattle.meters.specs.Meters.{Exactly, Exact, shown_of};

use pitch::Pitch;

// Period and wanted period in samples, and the rate as a ratio.
#[derive(Clone, Copy)]
pub struct Figures {
    pub period: f32,
    pub wanted: f32,
    pub rate: f32,
}

// What a read of the meter shows; locking has the found lag in samples.
#[derive(Clone, Copy)]
pub enum Meter {
    Searching,
    Locking(f32),
    Pitched(Figures),
    Refused,
}

// n / 256.
// Stays: one function of n and d for this and the next two would have to ask that d is a power of two.
fn figure(n: u32) -> f32
    requires { n < 2 ^ 24 }
    ensures { Exactly n 256 result }
{
    n as f32 / 256.0
}

// n / 65536.
fn fine_figure(n: u32) -> f32
    requires { n < 2 ^ 24 }
    ensures { Exactly n 65536 result }
{
    n as f32 / 65536.0
}

// n / 1.
fn lag_figure(lag: u32) -> f32
    requires { lag < 2 ^ 24 }
    ensures { Exactly lag 1 result }
{
    lag as f32
}

// What the meter shows of a pitch that is right.
pub fn shown(hertz: u32, v: Pitch) -> Meter
    requires { SampleRate hertz × PitchIn (pitch_of v) }
    ensures { (result ≡ shown_of hertz v) × Exact hertz v result }
{
    if v.tracking != 1 {
        Meter::Searching
    } else if v.tone.period == 0 {
        Meter::Locking(lag_figure(v.tracker.last))
    } else {
        Meter::Pitched(Figures {
            period: figure(v.tone.period),
            wanted: figure(notes::wanted_period(hertz, v.tone.note)),
            rate: fine_figure(v.tone.rate),
        })
    }
}
