// Standard input and output of the programs: calls that are tried again, and all bytes written. What the system does with them no contract can say; a
// reader or a writer that knows its bytes has them all.
#![tactic(auto)]

ghost use Rattle.std.specs.Prelude.{OnOk, ℕ, take};
ghost use Rattle.std.specs.Io.{ReadsAtMost};
ghost use Rattle.std.specs.Io.KnownBytes.{Appends, ReadConsumes};

use std::fs::{OpenFile, OpenOptions};
use std::io::{self, Cursor, ErrorKind, Read, Write};
use std::os::fd::AsFd;
use std::rt::{Clock, Files};
use std::time::Duration;
use std::{fs, str, thread};

// A read or a write failed, and standard error has what failed.
#[derive(Clone, Copy, Debug)]
pub struct Failed;

// Waits for a thousandth of a second.
fn pause(rt: &impl Clock) {
    thread::sleep(rt, Duration::from_millis(1));
}

// Says something of a stream on standard error, with its name, or "?" where that is no UTF-8. Where that fails there is nowhere left to say it.
fn say(rt: &impl Eprint, name: &[u8], what: &str) {
    let name = str::from_utf8(name).unwrap_or("?");
    let _ = eprintln!(rt; "{name}: {what}");
}

// The system's words for an error, without its number.
fn words(text: &str) -> &str {
    text.split_once(" (os error ")
        .map_or(text, |(words, _)| words)
}

// Says what failed, in the system's words.
pub fn fail(rt: &impl Eprint, name: &[u8], error: &io::Error) {
    let mut bytes = [0u8; 256];
    let mut all = Cursor::new(&mut bytes[..]);
    let _ = write!(all, "{error}");
    let n = (all.position() as usize).min(256);
    let text = str::from_utf8(&bytes[..n]).unwrap_or("?");
    say(rt, name, words(text));
}

// Says that an output takes no byte: such a write has no error of its own.
fn takes_nothing(rt: &impl Eprint, name: &[u8]) -> Failed {
    say(rt, name, "it takes no byte");
    Failed
}

// Whether the call that failed so is to be tried again: a signal came, or nothing is ready yet, and then after a pause.
pub fn try_again(rt: &impl Clock, error: &io::Error) -> bool {
    match error.kind() {
        ErrorKind::Interrupted => true,
        ErrorKind::WouldBlock => {
            pause(rt);
            true
        }
        _ => false,
    }
}

// A call that failed so is tried again, or standard error has what failed.
fn retry<R: Clock + Eprint>(rt: &R, name: &[u8], error: &io::Error) -> Result<(), Failed> {
    if try_again(rt, error) {
        return Ok(());
    }
    fail(rt, name, error);
    Err(Failed)
}

// Reads some bytes, none at the end of the input. A proved loop ends: no run uses up the tries.
pub fn read<I: Read, R: Clock + Eprint>(
    rt: &R,
    input: &mut I,
    buf: &mut [u8],
    name: &[u8],
) -> Result<usize, Failed>
    ensures bound { ReadsAtMost result buf.new }
    ensures bytes { ReadConsumes (I.remaining input.old) (I.remaining input.new) result buf.new }
{
    for _ in 0..u64::MAX {
        match input.read(buf) {
            Ok(n) => return Ok(n),
            Err(error) => retry(rt, name, &error)?,
        }
    }
    Err(Failed)
}

// Writes all bytes, each once. A write that takes no byte is a failed one, so that it is not tried for ever. No run uses up the tries.
pub fn write_out<W: Write, R: Clock + Eprint>(
    rt: &R,
    output: &mut W,
    bytes: &[u8],
    name: &[u8],
) -> Result<(), Failed>
    ensures all { OnOk result (Appends (W.contents output.old) (W.contents output.new) bytes.now) }
    ensures front { (n : ℕ) × Appends (W.contents output.old) (W.contents output.new) (take n bytes.now) }
{
    let mut rest = bytes;
    for _ in 0..u64::MAX {
        if rest.is_empty() {
            return Ok(());
        }
        match output.write(rest) {
            Ok(0) => return Err(takes_nothing(rt, name)),
            Ok(n) => rest = &rest[n..],
            Err(error) => retry(rt, name, &error)?,
        }
    }
    Err(Failed)
}

// Where standard output is found as a file.
const OUTPUT: &str = "/proc/self/fd/1";

// Brings what was written to where it is kept: some writes fail only then. No call of std says whether closing failed. So an output that is closed
// already is told by a copy of it, and a file is opened once more to be brought to its disk. Pipes and terminals have no more to say.
fn settled<W: AsFd, R: Files>(rt: &R, output: &W) -> io::Result<()> {
    output.as_fd().try_clone_to_owned()?;
    match open_output(rt) {
        Ok(Some(file)) => synced(&file),
        _ => Ok(()),
    }
}

// Where a file has no disk to be brought to, that is no failure.
fn synced<F: OpenFile>(file: &F) -> io::Result<()> {
    match file.sync_data() {
        Err(error)
            if matches!(
                error.kind(),
                ErrorKind::InvalidInput | ErrorKind::Unsupported
            ) => { Ok(()) }
        done => done,
    }
}

// Standard output opened once more, if it is a file.
fn open_output<R: Files>(rt: &R) -> io::Result<Option<R::File>> {
    if !fs::metadata(rt, OUTPUT)?.is_file() {
        return Ok(None);
    }
    let file = OpenOptions::new().write(true).open(rt, OUTPUT)?;
    Ok(Some(file))
}

// Writes the last bytes to standard output, and brings them to where they are kept: some writes fail only then.
pub fn write_last<W: Write + AsFd, R: Clock + Eprint + Files>(
    rt: &R,
    output: &mut W,
    bytes: &[u8],
    name: &[u8],
) {
    if write_out(rt, output, bytes, name).is_ok()
        && let Err(error) = settled(rt, output)
    {
        fail(rt, name, &error);
    }
}
