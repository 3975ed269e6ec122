// The calls of WAVE and MIDI files for C and Rust hosts, exported: each is the call of that name in the library files, with its promise.
#![tactic(auto)]

ghost use Rattle.std.specs.Prelude.{◌≡◌};
ghost use Rattle.wave.specs.Waves.{WasRead};
ghost use Rattle.writing.specs.Canonical.{WasWritten, HeaderWritten};
ghost use Rattle.mending.specs.Mendings.{mending_of};
ghost use Rattle.seeking.specs.Seeks.{begun, given_to, found_in, mended_in};
ghost use Rattle.smf.specs.Songs.{unread, after_byte, ended};
ghost use Rattle.files.specs.Files.{SamplesMoved, BytesMoved};

use mending::Mending;
use seeking::{Piece, Seek};
use smf::Song;
use wave::{WaveRead, WaveTake};
use writing::WaveWritten;

// The version of these calls.
#[unsafe(no_mangle)]
pub extern "C" fn daxfolin_files_version() -> u32
    ensures { result ≡ 1 }
{
    files::daxfolin_files_version()
}

// Reads the take of a file: its samples to the front of the output.
#[unsafe(no_mangle)]
pub extern "C" fn daxfolin_wave_read(bytes: &[u8], out: &mut [i16]) -> WaveRead
    ensures { WasRead bytes.now out.old result out.new }
{
    files::daxfolin_wave_read(bytes, out)
}

// Writes a take in the canonical form to the front of the output.
#[unsafe(no_mangle)]
pub extern "C" fn daxfolin_wave_write(hertz: u32, samples: &[i16], out: &mut [u8]) -> WaveWritten
    ensures { WasWritten hertz samples.now out.old result out.new }
{
    files::daxfolin_wave_write(hertz, samples, out)
}

// What is mended in a file.
#[unsafe(no_mangle)]
pub extern "C" fn daxfolin_wave_mend(bytes: &[u8]) -> Mending
    ensures { result ≡ mending_of bytes.now }
{
    files::daxfolin_wave_mend(bytes)
}

// A seek for the take in a file of so many bytes.
#[unsafe(no_mangle)]
pub extern "C" fn daxfolin_seek_take(length: usize) -> Seek
    ensures { result ≡ begun length 0 }
{
    files::daxfolin_seek_take(length)
}

// A seek for what is mended in a file of so many bytes.
#[unsafe(no_mangle)]
pub extern "C" fn daxfolin_seek_mending(length: usize) -> Seek
    ensures { result ≡ begun length 1 }
{
    files::daxfolin_seek_mending(length)
}

// What a seek wants of its file: no bytes where it is at its end.
#[unsafe(no_mangle)]
pub extern "C" fn daxfolin_seek_wanted(seek: Seek) -> Piece
    ensures { result ≡ seek.wanted }
{
    files::daxfolin_seek_wanted(seek)
}

// A seek that is given the bytes that it wants; where they are not as many, it stays.
#[unsafe(no_mangle)]
pub extern "C" fn daxfolin_seek_give(seek: Seek, bytes: &[u8]) -> Seek
    ensures { result ≡ given_to seek bytes.now }
{
    files::daxfolin_seek_give(seek, bytes)
}

// The take that a seek found.
#[unsafe(no_mangle)]
pub extern "C" fn daxfolin_seek_found(seek: Seek) -> WaveTake
    ensures { result ≡ found_in seek }
{
    files::daxfolin_seek_found(seek)
}

// What is mended, by a seek.
#[unsafe(no_mangle)]
pub extern "C" fn daxfolin_seek_mended(seek: Seek) -> Mending
    ensures { result ≡ mended_in seek }
{
    files::daxfolin_seek_mended(seek)
}

// Writes the canonical header before so many samples to the front of the output.
#[unsafe(no_mangle)]
pub extern "C" fn daxfolin_wave_header(hertz: u32, samples: usize, out: &mut [u8]) -> WaveWritten
    ensures { HeaderWritten hertz samples out.old result out.new }
{
    files::daxfolin_wave_header(hertz, samples, out)
}

// Bytes as samples, as many as both have room for.
#[unsafe(no_mangle)]
pub extern "C" fn daxfolin_wave_samples(bytes: &[u8], out: &mut [i16]) -> usize
    ensures { SamplesMoved bytes.now out.old result out.new }
{
    files::daxfolin_wave_samples(bytes, out)
}

// Samples as bytes, as many as both have room for.
#[unsafe(no_mangle)]
pub extern "C" fn daxfolin_wave_bytes(samples: &[i16], out: &mut [u8]) -> usize
    ensures { BytesMoved samples.now out.old result out.new }
{
    files::daxfolin_wave_bytes(samples, out)
}

// A Standard MIDI File of which no byte was read.
#[unsafe(no_mangle)]
pub extern "C" fn daxfolin_smf_begin() -> Song
    ensures { result ≡ unread }
{
    files::daxfolin_smf_begin()
}

// Such a file after its next byte.
#[unsafe(no_mangle)]
pub extern "C" fn daxfolin_smf_byte(song: Song, b: u8) -> Song
    ensures { result ≡ after_byte song b }
{
    files::daxfolin_smf_byte(song, b)
}

// What is answered where such a file ends: the refusal, or 0.
#[unsafe(no_mangle)]
pub extern "C" fn daxfolin_smf_end(song: Song) -> u32
    ensures { result ≡ ended song }
{
    files::daxfolin_smf_end(song)
}
