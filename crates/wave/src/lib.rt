// Takes as RIFF WAVE files: PCM, one channel, 16 bits, 44,100 or 48,000 samples a second.

#![tactic(auto)]

ghost use Rattle.std.specs.Prelude.{◌≡◌, ◌+◌, ◌*◌, ◌≤◌, length};
ghost use Rattle.wave.specs.Waves.{known, is_wave, plain, samples_at, no_fmt, WasRead};
ghost use Rattle.wave.specs.Judged.{fields_rate, whole_fmt, fmt_rate, Judged, take_answered, read_answered, TakeIn};

use refusals::Refusal;
use riff::{Chunk, Walk};

// The names "RIFF" and "WAVE", as the numbers of their four bytes.
pub const RIFF: u32 = 0x4646_4952;

pub const WAVE: u32 = 0x4556_4157;

// A take in a file: its sample rate, the place of its samples and their count.
#[derive(Clone, Copy)]
pub struct Take {
    pub hertz: u32,
    pub at: usize,
    pub count: usize,
}

// The take in a file, where number is 0, as it is answered.
#[repr(C)]
#[derive(Clone, Copy)]
pub struct WaveTake {
    pub number: u32,
    pub hertz: u32,
    pub at: usize,
    pub count: usize,
}

// The answer to reading: a refusal, or how many samples were written, and their rate.
#[repr(C)]
#[derive(Clone, Copy)]
pub struct WaveRead {
    pub number: u32,
    pub hertz: u32,
    pub count: usize,
}

impl WaveTake {
    pub fn refused(number: u32) -> WaveTake
        ensures { result ≡ record { number = number; hertz = 0; at = 0; count = 0 } }
    {
        WaveTake {
            number,
            hertz: 0,
            at: 0,
            count: 0,
        }
    }
}

impl From<Result<Take, Refusal>> for WaveTake {
    ghost from_gives = { λ take answered. answered ≡ take_answered take };

    fn from(take: Result<Take, Refusal>) -> WaveTake {
        match take {
            Ok(Take { hertz, at, count }) => WaveTake {
                number: 0,
                hertz,
                at,
                count,
            },
            Err(refusal) => WaveTake::refused(refusal.number()),
        }
    }
}

impl From<Result<Take, Refusal>> for WaveRead {
    ghost from_gives = { λ take answered. answered ≡ read_answered take };

    fn from(take: Result<Take, Refusal>) -> WaveRead {
        match take {
            Ok(Take { hertz, count, .. }) => WaveRead {
                number: 0,
                hertz,
                count,
            },
            Err(refusal) => WaveRead {
                number: refusal.number(),
                hertz: 0,
                count: 0,
            },
        }
    }
}

// A sample rate that is known.
#[tactic(auto, unfolding(crate::specs::Waves::known))]
pub fn known(hertz: u32) -> bool
    ensures { result ≡ known hertz }
{
    matches!(hertz, 44100 | 48000)
}

// The bytes begin as a RIFF WAVE file.
#[tactic(auto, unfolding(crate::specs::Waves::is_wave, riff::specs::Riff::number_at))]
pub fn is_wave(bytes: &[u8]) -> bool
    ensures { result ≡ is_wave bytes.now }
{
    12 <= bytes.len() && riff::four(bytes, 0) == RIFF && riff::four(bytes, 8) == WAVE
}

// The fields of a fmt from a place on: PCM, one channel, blocks of two bytes, 16 bits.
#[tactic(auto, unfolding(crate::specs::Waves::plain))]
fn is_plain(bytes: &[u8], at: usize) -> bool
    requires { at + 16 ≤ length bytes.now }
    ensures { result ≡ plain bytes.now at }
{
    riff::two(bytes, at) == 1
        && riff::two(bytes, at + 2) == 1
        && riff::two(bytes, at + 12) == 2
        && riff::two(bytes, at + 14) == 16
}

// The sample rate of a fmt by its 16 bytes from a place on; none where a field is wrong.
#[tactic(auto, unfolding(crate::specs::Waves::fields_right))]
pub fn rate(bytes: &[u8], at: usize) -> Option<u32>
    requires { at + 16 ≤ length bytes.now }
    ensures { result ≡ fields_rate bytes.now at }
{
    let hertz = riff::four(bytes, at + 4);
    let bytes_a_second = riff::four(bytes, at + 8);
    if is_plain(bytes, at) && known(hertz) && u64::from(bytes_a_second) == 2 * u64::from(hertz) {
        Some(hertz)
    } else {
        None
    }
}

// A fmt was found, and at least 16 bytes of it lie before the end.
pub fn is_whole(fmt: Option<Chunk>, end: usize) -> bool
    ensures { result ≡ whole_fmt fmt end }
{
    fmt.is_some_and(|fmt| 16 <= fmt.size && 24 <= end && fmt.at <= end - 24)
}

// The sample rate of the fmt that was found; none where it is not taken.
pub fn rate_of(bytes: &[u8], fmt: Option<Chunk>, end: usize) -> Option<u32>
    requires { end ≤ length bytes.now }
    ensures { result ≡ fmt_rate bytes.now end fmt }
{
    match fmt {
        Some(chunk) if is_whole(fmt, end) => rate(bytes, chunk.at + 8),
        _ => None,
    }
}

// No fmt before the data or the end.
#[tactic(auto, unfolding(crate::specs::Waves::no_fmt))]
pub fn no_fmt(w: Walk) -> bool
    ensures { result ≡ no_fmt w.fmt w.data }
{
    match (w.fmt, w.data) {
        (Some(fmt), Some(data)) => data.at < fmt.at,
        (fmt, _) => fmt.is_none(),
    }
}

// What a whole walk comes to, in a file that begins as RIFF WAVE: its sample rate and its data, or a refusal.
#[tactic(auto, unfolding(crate::specs::Waves::odd_data, crate::specs::Waves::no_data, riff::specs::Riff::refused_by))]
pub fn judge(
    w: Walk,
    hertz: Option<u32>,
    riff_end: usize,
    length: usize,
) -> Result<(u32, Chunk), Refusal>
    ensures { Judged w hertz riff_end length result }
{
    if no_fmt(w) {
        return Err(Refusal::NoFmt);
    }
    let hertz = hertz.ok_or(Refusal::FmtWrong)?;
    let data = w.data.ok_or(Refusal::NoData)?;
    if data.size % 2 == 1 {
        return Err(Refusal::FmtWrong);
    }
    if w.past || length < riff_end {
        return Err(Refusal::RunsPast);
    }
    Ok((hertz, data))
}

// The take in a file.
pub fn find(bytes: &[u8]) -> Result<Take, Refusal>
    ensures { TakeIn bytes.now (take_answered result) }
{
    if !is_wave(bytes) {
        return Err(Refusal::NotRiffWave);
    }
    let riff_end = 8 + riff::four(bytes, 4) as usize;
    let end = riff_end.min(bytes.len());
    let w = riff::walked(bytes, end);
    let (hertz, data) = judge(w, rate_of(bytes, w.fmt, end), riff_end, bytes.len())?;
    Ok(Take {
        hertz,
        at: data.at + 8,
        count: (data.size / 2) as usize,
    })
}

// The samples of bytes, as many as are asked for.
pub fn samples(bytes: &[u8], out: &mut [i16])
    requires { 2 * length out.old ≤ length bytes.now }
    ensures { out.new ≡ samples_at bytes.now 0 (length out.old) }
{
    for (i, sample) in out.iter_mut().enumerate() {
        *sample = riff::two(bytes, 2 * i).cast_signed();
    }
}

// The samples of a take, to the front of the output.
fn read_take(bytes: &[u8], out: &mut [i16]) -> Result<Take, Refusal>
    ensures { WasRead bytes.now out.old (read_answered result) out.new }
{
    let take = find(bytes)?;
    if out.len() < take.count {
        return Err(Refusal::NoRoom);
    }
    samples(&bytes[take.at..], &mut out[..take.count]);
    Ok(take)
}

// Reads a take: its samples to the front of the output.
pub fn read(bytes: &[u8], out: &mut [i16]) -> WaveRead
    ensures { WasRead bytes.now out.old result out.new }
{
    WaveRead::from(read_take(bytes, out))
}
