// Takes as WAVE files, for hosts in C and Rust: whole files in memory, and files piece by piece. And Standard MIDI Files, byte by byte.

#![tactic(auto)]

ghost use Rattle.std.specs.Prelude.{◌≡◌};
ghost use Rattle.wave.specs.Waves.{WasRead};
ghost use Rattle.writing.specs.Canonical.{WasWritten, HeaderWritten};
ghost use Rattle.mending.specs.Mendings.{mending_of};
ghost use Rattle.seeking.specs.Seeks.{begun, given_to, found_in, mended_in};
ghost use Rattle.smf.specs.Songs.{unread, after_byte, ended};
ghost use Rattle.files.specs.Files.{SamplesMoved, BytesMoved};

use mending::Mending;
use seeking::{Piece, Seek};
use smf::Song;
use wave::{WaveRead, WaveTake};
use writing::WaveWritten;

// The version of these calls.
pub fn daxfolin_files_version() -> u32
    ensures { result ≡ 1 }
{
    1
}

// Reads the take of a file: its samples to the front of the output.
pub fn daxfolin_wave_read(bytes: &[u8], out: &mut [i16]) -> WaveRead
    ensures { WasRead bytes.now out.old result out.new }
{
    wave::read(bytes, out)
}

// Writes a take in the canonical form to the front of the output.
pub fn daxfolin_wave_write(hertz: u32, samples: &[i16], out: &mut [u8]) -> WaveWritten
    ensures { WasWritten hertz samples.now out.old result out.new }
{
    writing::write(hertz, samples, out)
}

// What is mended in a file.
pub fn daxfolin_wave_mend(bytes: &[u8]) -> Mending
    ensures { result ≡ mending_of bytes.now }
{
    mending::find(bytes)
}

// A seek for the take in a file of so many bytes.
pub fn daxfolin_seek_take(length: usize) -> Seek
    ensures { result ≡ begun length 0 }
{
    Seek::begin(length, 0)
}

// A seek for what is mended in a file of so many bytes.
pub fn daxfolin_seek_mending(length: usize) -> Seek
    ensures { result ≡ begun length 1 }
{
    Seek::begin(length, 1)
}

// What a seek wants of its file: no bytes where it is at its end.
pub fn daxfolin_seek_wanted(seek: Seek) -> Piece
    ensures { result ≡ seek.wanted }
{
    seek.wanted()
}

// A seek that is given the bytes that it wants; where they are not as many, it stays.
pub fn daxfolin_seek_give(seek: Seek, bytes: &[u8]) -> Seek
    ensures { result ≡ given_to seek bytes.now }
{
    seek.give(bytes)
}

// The take that a seek found.
pub fn daxfolin_seek_found(seek: Seek) -> WaveTake
    ensures { result ≡ found_in seek }
{
    seek.found()
}

// What is mended, by a seek.
pub fn daxfolin_seek_mended(seek: Seek) -> Mending
    ensures { result ≡ mended_in seek }
{
    seek.mended()
}

// Writes the canonical header before so many samples to the front of the output.
pub fn daxfolin_wave_header(hertz: u32, samples: usize, out: &mut [u8]) -> WaveWritten
    ensures { HeaderWritten hertz samples out.old result out.new }
{
    writing::write_header(hertz, samples, out)
}

// Bytes as samples, as many as both have room for.
pub fn daxfolin_wave_samples(bytes: &[u8], out: &mut [i16]) -> usize
    ensures { SamplesMoved bytes.now out.old result out.new }
{
    let count = (bytes.len() / 2).min(out.len());
    wave::samples(bytes, &mut out[..count]);
    count
}

// Samples as bytes, as many as both have room for.
pub fn daxfolin_wave_bytes(samples: &[i16], out: &mut [u8]) -> usize
    ensures { BytesMoved samples.now out.old result out.new }
{
    let count = samples.len().min(out.len() / 2);
    writing::put_samples(out, &samples[..count]);
    count
}

// A Standard MIDI File of which no byte was read.
pub fn daxfolin_smf_begin() -> Song
    ensures { result ≡ unread }
{
    smf::begin()
}

// Such a file after its next byte.
pub fn daxfolin_smf_byte(song: Song, b: u8) -> Song
    ensures { result ≡ after_byte song b }
{
    smf::byte(song, b)
}

// What is answered where such a file ends: the refusal, or 0.
pub fn daxfolin_smf_end(song: Song) -> u32
    ensures { result ≡ ended song }
{
    smf::end(song)
}
