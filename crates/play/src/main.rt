// Plays a scripted take through the tuner's calls: records of 1054 bytes in, a line for each out.
// Byte 0 is the call; 2, 4 and 6 a block's number, length and room, low byte first; from 8 on a start's sample rate, then scale, eps, decay and floor;
// from 28 on the samples. Where settings are given, 2 and 6 are mode and channel. Keyboard bytes stand from 28 on, as many as the length says.
// A night has the length of its blocks from 8 on, in the place of the sample rate. No list is kept and no voice is chosen: nothing is lent for them.
#![tactic(auto)]

ghost use Rattle.std.specs.Prelude.{◌≤◌, ◌<◌};
ghost use Rattle.tuner.specs.Following.{four};
ghost use Rattle.tuner.specs.Tuners.{Took};

use meters::Meter;
use nights::NightAnswer;
use refusals::Refusal;
use rules::{CD_RATE, Settings};
use std::array;
use std::io::{self, ErrorKind, Read};
use tuner::{Answer, Done, Tuner};

// ---- a record of the script

// The number in the bytes at and at + 1.
fn word(b: &[u8; 1054], at: usize) -> u16
    requires { at < 1053 }
{
    u16::from_le_bytes([b[at], b[at + 1]])
}

fn long(b: &[u8; 1054], at: usize) -> u32
    requires { at < 1051 }
{
    u32::from_le_bytes([b[at], b[at + 1], b[at + 2], b[at + 3]])
}

fn settings(b: &[u8; 1054]) -> Settings {
    Settings {
        scale: long(b, 12),
        eps: long(b, 16),
        decay: long(b, 20),
        floor: long(b, 24),
        mode: u32::from(word(b, 2)),
        channel: u32::from(word(b, 6)),
    }
}

// At most as many as a record has room for.
fn most(n: u16) -> usize
    ensures { result ≤ 513 }
{
    usize::from(n).min(513)
}

// A sample is written as a number from 0 on, 32768 more than it is.
fn samples(b: &[u8; 1054]) -> [i16; 513] {
    array::from_fn(|i| word(b, 28 + 2 * i).wrapping_sub(32768).cast_signed())
}

// ---- a line of the answers

fn show(rt: &impl Print, x: i16) -> io::Result<()> {
    print!(rt; "{} ", i32::from(x) + 32768)
}

fn show_all(rt: &impl Print, xs: &[i16]) -> io::Result<()> {
    for x in xs {
        show(rt, *x)?;
    }
    Ok(())
}

fn say(rt: &impl Print, a: Answer) -> io::Result<()> {
    print!(rt; "{} {} {} {} ", a.number, a.written, a.repeated, a.dropped)
}

fn tell(rt: &impl Print, a: NightAnswer) -> io::Result<()> {
    print!(rt;
        "{} {} {} {} {} {} ",
        a.number, a.refused, a.taken, a.written, a.repeated, a.dropped
    )?;
    say(rt, a.again)
}

// What a start, a change, keyboard bytes and a reset answer: a number, and counts 0.
fn told(rt: &impl Print, answer: Result<(), Refusal>) -> io::Result<()> {
    print!(rt; "{} 0 0 0 ", refusals::number(answer))
}

// ---- the calls

// Keeps the tuner that a call by value hands back, and tells its answer.
fn done(rt: &impl Print, t: &mut Tuner, done: Done) -> io::Result<()> {
    *t = done.tuner;
    told(rt, done.answer)
}

// A start without a list and without voices.
fn start(rt: &impl Print, t: &mut Tuner, hertz: u32, s: Settings) -> io::Result<()> {
    done(rt, t, tuner::start(hertz, s, 0, &[], &[]))
}

fn midi(rt: &impl Print, t: &mut Tuner, b: &[u8; 1054]) -> io::Result<()> {
    let n = most(word(b, 4));
    let keyed = t.midi_by_value(&b[28..28 + n]);
    done(rt, t, keyed)
}

// The block call over a record lent: the promise of the call by value.
fn block_lent(
    lent: &mut Tuner,
    number: u16,
    samples: &[i16],
    out: &mut [i16],
    first: &mut [i16],
    second: &mut [i16],
    third: &mut [i16],
    store: &mut [u32],
) -> Answer
    ensures { Took lent.old number samples.now (four out.old first.old second.old third.old) store.old
        lent.new result (four out.new first.new second.new third.new) store.new }
{
    host::block_in_place(lent, number, samples, out, first, second, third, store)
}

// A block that lends nothing but its samples and the lead's output, by the call that the script names: 4 is by value, 11 over the record lent.
fn given(
    op: u8,
    t: &mut Tuner,
    number: u16,
    samples: &[i16],
    out: &mut [i16],
    first: &mut [i16],
    second: &mut [i16],
    third: &mut [i16],
    store: &mut [u32],
) -> Answer
    ensures { Took t.old number samples.now (four out.old first.old second.old third.old) store.old
        t.new result (four out.new first.new second.new third.new) store.new }
{
    if op == 4 {
        let taken = t.block_by_value(number, samples, out, first, second, third, store);
        *t = taken.tuner;
        taken.answer
    } else {
        block_lent(t, number, samples, out, first, second, third, store)
    }
}

// A block, with an output of so much room; all of the output is shown, what is not written too.
fn block(rt: &impl Print, op: u8, t: &mut Tuner, b: &[u8; 1054]) -> io::Result<()> {
    let n = most(word(b, 4));
    let room = most(word(b, 6));
    let xs = samples(b);
    let mut out = [7i16; 513];
    let a = given(
        op,
        t,
        word(b, 2),
        &xs[..n],
        &mut out[..room],
        &mut [],
        &mut [],
        &mut [],
        &mut [],
    );
    say(rt, a)?;
    show_all(rt, &out[..room])
}

// A night, shown like a block.
fn night(rt: &impl Print, t: &mut Tuner, b: &[u8; 1054]) -> io::Result<()> {
    let n = most(word(b, 4));
    let room = most(word(b, 6));
    let size = long(b, 8) as usize;
    let xs = samples(b);
    let mut out = [7i16; 513];
    let taken = nights::night_by_value(
        *t,
        word(b, 2),
        size,
        &xs[..n],
        &mut out[..room],
        &mut [],
        &mut [],
        &mut [],
        &mut [],
    );
    *t = taken.tuner;
    tell(rt, taken.answer)?;
    show_all(rt, &out[..room])
}

fn meter(rt: &impl Print, t: &Tuner) -> io::Result<()> {
    let state = match t.meter() {
        Meter::Searching => 0,
        Meter::Locking(_) => 1,
        Meter::Pitched(_) => 2,
        Meter::Refused => 3,
    };
    print!(rt; "{state} ")
}

// A stretch of the samples of the record, by its number.
fn stretch(rt: &impl Print, b: &[u8; 1054]) -> io::Result<()> {
    let xs = samples(b);
    let s = cutting::cut(&xs, usize::from(word(b, 2)));
    print!(rt; "{} ", s.len())?;
    match s.first() {
        Some(x) => show(rt, *x),
        None => Ok(()),
    }
}

// The record with its count near the take's limit, its phases kept.
fn age(t: &mut Tuner) {
    let n = &mut t.numbers;
    if n.count < 999999990 {
        n.count += 40 * ((999999990 - n.count) / 40);
    }
}

// The call that byte 0 names; 7, 8 and 9 make the record another by hand.
fn play(rt: &impl Print, t: &mut Tuner, b: &[u8; 1054]) -> io::Result<()> {
    match b[0] {
        0 => start(rt, t, long(b, 8), settings(b))?,
        1 => start(rt, t, CD_RATE, record::default_settings())?,
        2 => {
            let changed = t.change_by_value(settings(b));
            done(rt, t, changed)?
        }
        3 => {
            let begun = t.reset_by_value(&[]);
            done(rt, t, begun)?
        }
        4 | 11 => block(rt, b[0], t, b)?,
        5 => meter(rt, t)?,
        6 => stretch(rt, b)?,
        7 => t.numbers.behind = 65536001,
        8 => age(t),
        9 => t.numbers.behind = 0,
        10 => midi(rt, t, b)?,
        _ => night(rt, t, b)?,
    }
    println!(rt)
}

fn main(rt: HostRuntime) -> io::Result<()> {
    let mut input = rt.stdin();
    let mut t = Tuner::default();
    for _ in 0..u64::MAX {
        let mut b = [0u8; 1054];
        match input.read_exact(&mut b) {
            Ok(()) => play(&rt, &mut t, &b)?,
            Err(error) if error.kind() == ErrorKind::UnexpectedEof => return Ok(()),
            Err(error) => return Err(error),
        }
    }
    Ok(())
}
