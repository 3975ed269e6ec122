// The report: the line program's input on standard input, and the takes' figures on standard output once all is read. What is reported is proved in the
// crate `reporting`; here bytes are moved. Where a read fails nothing is printed, and standard error says what failed.
#![tactic(auto)]

ghost use Rattle.std.specs.Prelude.{◌≤◌, length};
ghost use Rattle.report.specs.Working.{Working};

use reporting::{Line, Reporting};
use std::io::{Read, Write};
use std::os::fd::AsFd;
use std::rt::{Clock, Files};
use streams::Failed;

const INPUT: &[u8] = b"report: standard input";

const OUTPUT: &[u8] = b"report: standard output";

// Writes the report of all that was read.
fn finish<W: Write + AsFd, R: Clock + Eprint + Files>(
    rt: &R,
    output: &mut W,
    r: &mut Reporting,
    line: &Line,
    out: &mut [u8],
)
    requires { Working r.old line.now out.old }
{
    let n = r.finish(line.as_slice(), out);
    streams::write_last(rt, output, &out[..n], OUTPUT);
}

// Reads until the input ends or a read fails, and then writes the report. A proved loop ends: no run uses up the turns.
fn run<I: Read, W: Write + AsFd, R: Clock + Eprint + Files>(
    rt: &R,
    input: &mut I,
    output: &mut W,
    buf: &mut [u8],
    out: &mut [u8],
)
    requires { 147147 ≤ length out.old }
{
    let mut r = Reporting::begin();
    let mut line = Line::new();
    for _ in 0..u64::MAX {
        match streams::read(rt, input, buf, INPUT) {
            Ok(0) => return finish(rt, output, &mut r, &line, out),
            Ok(n) => r.read_on(&mut line, &buf[..n], out),
            Err(Failed) => return,
        }
    }
}

fn main(rt: HostRuntime) {
    let mut buf = [0u8; 65536];
    let mut out = [0u8; 147147];
    run(&rt, &mut rt.stdin(), &mut rt.stdout(), &mut buf, &mut out);
}
