// A night's blocks in one call: a recording is lent, and all its blocks are taken as by the single calls.

#![tactic(auto)]

ghost use Rattle.std.specs.Prelude.{◌≡◌, ◌+◌, ◌<◌, ◌≤◌, length};
ghost use Rattle.refusals.specs.Refusals.{number_of};
ghost use Rattle.rules.specs.Rules.{take_limit};
ghost use Rattle.staying.specs.Staying.{Lengths, Stays};
ghost use Rattle.tuner.specs.Following.{four};
ghost use Rattle.tuner.specs.Tuners.{kept_outs, Roomy, Took};
ghost use Rattle.nights.specs.Night.{no_night, added, stretches, OneByOne, Nighted};
ghost use Rattle.nights.specs.Going.{Small, Went, Refuses};

use refusals::Refusal;
use rules::LONGEST_BLOCK;
use tuner::{Answer, Numbers, Tuner};

// The number that refused, or 0, and the block's; how many blocks were taken, and what their answers count added up; the answer to a first block that was given
// again, else 0; and the list that is then kept. 96 bytes.
#[repr(C)]
#[derive(Clone, Copy)]
pub struct NightAnswer {
    pub number: u32,
    pub refused: u16,
    pub taken: u64,
    pub written: u64,
    pub repeated: u64,
    pub dropped: u64,
    pub pitched: u64,
    pub strayed: u64,
    pub again: Answer,
    pub rows: u32,
    pub left: u32,
}

impl NightAnswer {
    // With this number: nothing was taken and nothing given again.
    fn begin(number: u32, n: &Numbers) -> NightAnswer
        ensures { result ≡ no_night number n.now }
    {
        NightAnswer {
            number,
            refused: 0,
            taken: 0,
            written: 0,
            repeated: 0,
            dropped: 0,
            pitched: 0,
            strayed: 0,
            again: Answer {
                number: 0,
                written: 0,
                repeated: 0,
                dropped: 0,
                pitched: 0,
                strayed: 0,
                rows: 0,
                left: 0,
            },
            rows: n.list.rows,
            left: n.list.left,
        }
    }

    // One single call more, of the block with this number.
    #[tactic(auto, unfolding(crate::specs::Night::added_by))]
    fn add(&mut self, number: u16, a: Answer)
        requires { Small self.old × (self.old.taken ≤ take_limit) }
        ensures { (self.new ≡ added self.old number a) × Small self.new }
    {
        self.rows = a.rows;
        self.left = a.left;
        match a.number {
            0 => {
                self.taken += 1;
                self.written += u64::from(a.written);
                self.repeated += u64::from(a.repeated);
                self.dropped += u64::from(a.dropped);
                self.pitched += u64::from(a.pitched);
                self.strayed += u64::from(a.strayed);
            }
            1 => self.again = a,
            _ => {
                self.number = a.number;
                self.refused = number;
            }
        }
    }
}

// A block to a good record, with room in each output that is asked for: no part of the record is tested.
fn block(
    t: &mut Tuner,
    number: u16,
    samples: &[i16],
    out: &mut [i16],
    first: &mut [i16],
    second: &mut [i16],
    third: &mut [i16],
    store: &mut [u32],
) -> Answer
    requires { Stays t.old × Roomy (length samples.now) (kept_outs t.old) (four out.old first.old second.old third.old) }
    ensures { Took t.old number samples.now (four out.old first.old second.old third.old) store.old
        t.new result (four out.new first.new second.new third.new) store.new }
{
    let verdict = t.judge(number, samples, samples.len());
    t.take_by(verdict, number, samples, store);
    t.answer(verdict, out, first, second, third)
}

// The same with the outputs from a place on. An output that is not asked for may end before it.
fn block_at(
    t: &mut Tuner,
    number: u16,
    samples: &[i16],
    at: usize,
    out: &mut [i16],
    first: &mut [i16],
    second: &mut [i16],
    third: &mut [i16],
    store: &mut [u32],
) -> Answer
    requires good { Stays t.old }
    requires room { Roomy (at + length samples.now) (kept_outs t.old) (four out.old first.old second.old third.old) }
    requires place { at ≤ length out.old }
    ensures { Went at number samples.now t.old t.new result (four out.old first.old second.old third.old) (four out.new first.new second.new third.new) store.old store.new }
{
    let one = at.min(first.len());
    let two = at.min(second.len());
    let three = at.min(third.len());
    block(
        t,
        number,
        samples,
        &mut out[at..],
        &mut first[one..],
        &mut second[two..],
        &mut third[three..],
        store,
    )
}

// All blocks to a good record, until one is refused.
fn go(
    t: &mut Tuner,
    number: u16,
    size: usize,
    samples: &[i16],
    out: &mut [i16],
    first: &mut [i16],
    second: &mut [i16],
    third: &mut [i16],
    store: &mut [u32],
) -> NightAnswer
    requires { (0 < size) × Stays t.old × Roomy (length samples.now) (kept_outs t.old) (four out.old first.old second.old third.old) }
    ensures { OneByOne t.old number (no_night 0 t.old.numbers) (stretches size samples.now) (four out.old first.old second.old third.old) store.old
        t.new result (four out.new first.new second.new third.new) store.new }
{
    let mut sum = NightAnswer::begin(0, &t.numbers);
    let mut next = number;
    let mut at = 0;
    for stretch in samples.chunks(size) {
        let a = block_at(t, next, stretch, at, out, first, second, third, store);
        sum.add(next, a);
        if a.number > 1 {
            return sum;
        }
        next = next.wrapping_add(1);
        at += stretch.len();
    }
    sum
}

// How long the record's arrays are: what its type says. No code comes of it.
fn lengths(t: &Tuner)
    ensures { Lengths t.now }
{
    let _energies = &t.energies;
    let _correlations = &t.correlations;
    let _heard = &t.heard;
    let _eighths = &t.eighths;
    let _outs = &t.outs;
    let _voices = &t.numbers.voices[..];
}

// A night is refused before its first block: 9, then 3, then 4.
fn check(
    t: &Tuner,
    size: usize,
    samples: &[i16],
    out: &[i16],
    first: &[i16],
    second: &[i16],
    third: &[i16],
) -> Result<(), Refusal>
    ensures { Refuses t.now size samples.now (four out.now first.now second.now third.now) (number_of result) }
{
    if !t.is_good() {
        return Err(Refusal::RecordOutOfRange);
    }
    if size == 0 || size > LONGEST_BLOCK {
        return Err(Refusal::BlockOver512);
    }
    let room = singers::least_room(
        u64::from(t.numbers.chosen),
        out.len(),
        first.len(),
        second.len(),
        third.len(),
    );
    if room < samples.len() {
        return Err(Refusal::OutputShort);
    }
    Ok(())
}

// A recording's blocks of so many samples, from a block number on, as by the single calls one by one; it stops at the first that is refused.
pub fn night(
    t: &mut Tuner,
    number: u16,
    size: usize,
    samples: &[i16],
    out: &mut [i16],
    first: &mut [i16],
    second: &mut [i16],
    third: &mut [i16],
    store: &mut [u32],
) -> NightAnswer
    ensures { Nighted t.old number size samples.now (four out.old first.old second.old third.old) store.old
        t.new result (four out.new first.new second.new third.new) store.new }
{
    lengths(t);
    match check(t, size, samples, out, first, second, third) {
        Ok(()) => go(t, number, size, samples, out, first, second, third, store),
        Err(refusal) => NightAnswer::begin(refusal.number(), &t.numbers),
    }
}

// What a night leaves, and its answer.
#[derive(Clone, Copy)]
pub struct NightTaken {
    pub tuner: Tuner,
    pub answer: NightAnswer,
}

// The same by value: the tuner is handed in, and the new tuner handed back.
pub fn night_by_value(
    t: Tuner,
    number: u16,
    size: usize,
    samples: &[i16],
    out: &mut [i16],
    first: &mut [i16],
    second: &mut [i16],
    third: &mut [i16],
    store: &mut [u32],
) -> NightTaken
    ensures { Nighted t number size samples.now (four out.old first.old second.old third.old) store.old
        result.tuner result.answer (four out.new first.new second.new third.new) store.new }
{
    let mut after = t;
    let answer = night(
        &mut after, number, size, samples, out, first, second, third, store,
    );
    NightTaken {
        tuner: after,
        answer,
    }
}
