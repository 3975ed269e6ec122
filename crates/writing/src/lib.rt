// Takes written as WAVE files, in the canonical form: a header of 44 bytes, and the samples.

#![tactic(auto)]

ghost use Rattle.std.specs.Prelude.{◌≡◌, ◌+◌, ◌*◌, ◌^◌, ◌≤◌, ◌<◌, length};
ghost use Rattle.std.proofs.lemmas.List.Edits.{sets};
ghost use Rattle.wave.specs.Waves.{over};
ghost use Rattle.writing.specs.Canonical.{sample_bytes, format, header, Begun, written_answered, WasWritten, HeaderWritten};

use refusals::Refusal;

// The bytes before the samples in the canonical form.
pub const HEADER: usize = 44;

// The most samples of a take that is written.
pub const LIMIT: usize = 1000000000;

// The answer to writing: a refusal, or how many bytes were written.
#[repr(C)]
#[derive(Clone, Copy)]
pub struct WaveWritten {
    pub number: u32,
    pub length: usize,
}

impl From<Result<usize, Refusal>> for WaveWritten {
    ghost from_gives = { λ length answered. answered ≡ written_answered length };

    fn from(length: Result<usize, Refusal>) -> WaveWritten {
        match length {
            Ok(length) => WaveWritten { number: 0, length },
            Err(refusal) => WaveWritten {
                number: refusal.number(),
                length: 0,
            },
        }
    }
}

// The sixteen bytes of the canonical fmt.
fn put_format(out: &mut [u8], at: usize, hertz: u32)
    requires { (at + 16 ≤ length out.old) × (hertz < 2 ^ 31) }
    ensures { out.new ≡ sets out.old at (format hertz) }
{
    riff::put_two(out, at, 1);
    riff::put_two(out, at + 2, 1);
    riff::put_four(out, at + 4, hertz);
    riff::put_four(out, at + 8, 2 * hertz);
    riff::put_two(out, at + 12, 2);
    riff::put_two(out, at + 14, 16);
}

// The canonical header before so many bytes of samples.
pub fn put_header(out: &mut [u8], hertz: u32, size: u32)
    requires { (44 ≤ length out.old) × (hertz < 2 ^ 31) × (44 + size < 2 ^ 32) }
    ensures { out.new ≡ sets out.old 0 (header hertz size) }
{
    riff::put_head(out, 0, wave::RIFF, 36 + size);
    riff::put_four(out, 8, wave::WAVE);
    riff::put_head(out, 12, riff::FMT, 16);
    put_format(out, 20, hertz);
    riff::put_head(out, 36, riff::DATA, size);
}

// The bytes of samples, to the front of an output.
pub fn put_samples(out: &mut [u8], xs: &[i16])
    requires { 2 * length xs.now ≤ length out.old }
    ensures { out.new ≡ over (sample_bytes xs.now) out.old }
{
    for (i, x) in xs.iter().enumerate() {
        riff::put_two(out, 2 * i, u32::from(x.cast_unsigned()));
    }
}

// The canonical header before so many samples to the front of an output, where the output has room for so many bytes.
#[tactic(auto, unfolding(crate::specs::Canonical::unwritten_by, riff::specs::Riff::refused_by))]
fn begin(hertz: u32, count: usize, length: usize, out: &mut [u8]) -> Result<usize, Refusal>
    requires { 44 ≤ length }
    ensures { Begun hertz count length out.old result out.new }
{
    if !wave::known(hertz) {
        return Err(Refusal::RateUnknown);
    }
    if LIMIT < count {
        return Err(Refusal::TakeFull);
    }
    if out.len() < length {
        return Err(Refusal::NoRoom);
    }
    put_header(out, hertz, (2 * count) as u32);
    Ok(length)
}

// A take in the canonical form, to the front of the output.
fn write_take(hertz: u32, xs: &[i16], out: &mut [u8]) -> Result<usize, Refusal>
    ensures { WasWritten hertz xs.now out.old (written_answered result) out.new }
{
    let length = begin(hertz, xs.len(), HEADER + 2 * xs.len(), out)?;
    put_samples(&mut out[HEADER..length], xs);
    Ok(length)
}

// Writes a take in the canonical form to the front of the output.
pub fn write(hertz: u32, xs: &[i16], out: &mut [u8]) -> WaveWritten
    ensures { WasWritten hertz xs.now out.old result out.new }
{
    WaveWritten::from(write_take(hertz, xs, out))
}

// Writes the canonical header before so many samples to the front of the output.
pub fn write_header(hertz: u32, count: usize, out: &mut [u8]) -> WaveWritten
    ensures { HeaderWritten hertz count out.old result out.new }
{
    WaveWritten::from(begin(hertz, count, HEADER, out))
}
