// The line program: standard input to standard output. What lines are answered is proved in the crate `lines`; here bytes are moved, and
// the program ends at a read or a write that fails, and says on standard error what failed.
#![tactic(auto)]

ghost use Rattle.std.specs.Prelude.{◌≡◌, ◌+◌, ◌≤◌, ◌<◌, length, take, drop, MatchResult};
ghost use Rattle.daxfolin.specs.Turns.{Kept, Serves, Answers, OneTurn, Working, Finishes};

use std::io::{Read, Write};
use std::os::fd::AsFd;
use std::rt::{Clock, Files};
use streams::Failed;
use tuner::Tuner;

const INPUT: &[u8] = b"daxfolin: standard input";

const OUTPUT: &[u8] = b"daxfolin: standard output";

// Answers all lines that end within the input, writes the answers, and gives the place after the last line. Where a write fails the tuner is
// as it was. The program's tuner keeps no list, so that an empty store is lent.
fn serve<W: Write, R: Clock + Eprint>(
    rt: &R,
    output: &mut W,
    t: &mut Tuner,
    input: &[u8],
    out: &mut [u8],
) -> Result<usize, Failed>
    requires { 4096 ≤ length out.old }
    ensures { MatchResult result (λ at. Serves t.old input.now t.new at) (λ _. t.new ≡ t.old) }
{
    let mut u = *t;
    let mut at = 0;
    let mut store = [0u32; 0];
    loop {
        let r = lines::answer_lines(&mut u, &input[at..], out, &mut store);
        streams::write_out(rt, output, &out[..r.length], OUTPUT)?;
        if r.at == 0 {
            *t = u;
            return Ok(at);
        }
        at += r.at;
    }
}

// Moves what is left of the input to its front. Of a line that is too long one byte too many is enough.
fn keep(buf: &mut [u8], from: usize, to: usize) -> usize
    requires { (from ≤ to) × (to ≤ length buf.old) }
    ensures { Kept buf.old from to result buf.new }
{
    let n = (to - from).min(8193);
    buf.copy_within(from..from + n, 0);
    n
}

// Answers the bytes up to a place, of which some were held, and answers how many are then held.
fn answer_read<W: Write, R: Clock + Eprint>(
    rt: &R,
    output: &mut W,
    t: &mut Tuner,
    buf: &mut [u8],
    held: usize,
    read: usize,
    out: &mut [u8],
) -> Result<usize, Failed>
    requires { (held + read ≤ length buf.old) × (held ≤ 8193) × (4096 ≤ length out.old) }
    ensures { Answers t.old (take held buf.old) (take read (drop held buf.old)) result t.new buf.new }
{
    let to = held + read;
    let at = serve(rt, output, t, &buf[..to], out)?;
    Ok(keep(buf, at, to))
}

// Reads once, after the bytes that are held, and answers: how many bytes are then held, or nothing where the input ended.
fn one_turn<I: Read, W: Write, R: Clock + Eprint>(
    rt: &R,
    input: &mut I,
    output: &mut W,
    t: &mut Tuner,
    buf: &mut [u8],
    held: usize,
    out: &mut [u8],
) -> Result<Option<usize>, Failed>
    requires { (held ≤ 8193) × (8193 < length buf.old) × (4096 ≤ length out.old) }
    ensures { OneTurn t.old (take held buf.old) result t.new buf.new }
{
    match streams::read(rt, input, &mut buf[held..], INPUT)? {
        0 => Ok(None),
        n => Ok(Some(answer_read(rt, output, t, buf, held, n, out)?)),
    }
}

// What the end of the input answers: a last line may lack its end.
fn last_line(t: &mut Tuner, held: &[u8], out: &mut [u8]) -> usize
    requires { 4096 ≤ length out.old }
    ensures { Finishes t.old held.now out.old result out.new }
{
    if held.is_empty() {
        return 0;
    }
    let mut store = [0u32; 0];
    let r = lines::answer_line(t, held, out, &mut store);
    r.length
}

// Writes what the end of the input answers, and brings the output to where it is kept: some writes fail only then.
fn finish<W: Write + AsFd, R: Clock + Eprint + Files>(
    rt: &R,
    output: &mut W,
    t: &mut Tuner,
    held: &[u8],
    out: &mut [u8],
)
    requires { Working t.old held.now × (4096 ≤ length out.old) }
{
    let n = last_line(t, held, out);
    streams::write_last(rt, output, &out[..n], OUTPUT);
}

// Reads, answers and writes until the input ends, or a read or a write fails. A proved loop ends: no run uses up the turns.
// Stays: the report's loop has this shape over other values, and one for both, with its trait and laws, would be longer than the two.
fn run<I: Read, W: Write + AsFd, R: Clock + Eprint + Files>(
    rt: &R,
    input: &mut I,
    output: &mut W,
    buf: &mut [u8],
    out: &mut [u8],
)
    requires { (8193 < length buf.old) × (4096 ≤ length out.old) }
{
    let mut t = Tuner::default();
    let mut held = 0;
    for _ in 0..u64::MAX {
        match one_turn(rt, input, output, &mut t, buf, held, out) {
            Ok(Some(n)) => held = n,
            Ok(None) => return finish(rt, output, &mut t, &buf[..held], out),
            Err(Failed) => return,
        }
    }
}

fn main(rt: HostRuntime) {
    let mut buf = [0u8; 65536];
    let mut out = [0u8; 65536];
    run(&rt, &mut rt.stdin(), &mut rt.stdout(), &mut buf, &mut out);
}
