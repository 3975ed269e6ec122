// The verdict on a block whose record is good and that fits: taken, given again, or refused.

#![tactic(auto)]

ghost use Rattle.std.specs.Prelude.{◌≡◌, ◌+◌, ◌-◌, ◌≤◌, length, drop};
ghost use Rattle.rules.specs.Rules.{take_limit, longest_block, kept_samples};
ghost use Rattle.whole.specs.Tests.{Decides};
ghost use Rattle.answers.specs.Numbering.{HasNumber, following, judged_number, Numbered, plain};

use refusals::Refusal;
use rules::KEPT_SAMPLES;

// Document 01's number, and the samples written, cycles repeated and cycles dropped.
#[repr(C)]
#[derive(Clone, Copy)]
pub struct Answer {
    pub number: u32,
    pub written: u16,
    pub repeated: u16,
    pub dropped: u16,
}

// What becomes of a block that is not refused.
#[derive(Clone, Copy, Debug, PartialEq, Eq)]
pub enum Turn {
    Taken,
    GivenAgain,
}

// The number that a verdict is answered by.
pub fn number(verdict: Result<Turn, Refusal>) -> u32
    ensures { result ≡ judged_number verdict }
{
    match verdict {
        Ok(Turn::Taken) => 0,
        Ok(Turn::GivenAgain) => 1,
        Err(refusal) => refusal.number(),
    }
}

// The answer with this number and counts 0.
pub fn plain(number: u32) -> Answer
    ensures { result ≡ plain number }
{
    Answer {
        number,
        written: 0,
        repeated: 0,
        dropped: 0,
    }
}

// The samples are those of the last block: the newest of the store, so many as it had.
fn again(samples: &[i16], store: &[i16; KEPT_SAMPLES], size: u16) -> bool
    requires { size ≤ longest_block }
    ensures { Decides result (samples.now ≡ drop (kept_samples - size) store.now) }
{
    samples == &store[KEPT_SAMPLES - usize::from(size)..]
}

// There is a last block, and it has this number.
fn is_last(size: u16, last: u16, number: u16) -> bool
    ensures { Decides result (HasNumber size last number) }
{
    size != 0 && number == last
}

// The first block of a take is 0 and 65535 is followed by 0.
fn next_number(size: u16, last: u16) -> u16
    ensures { result ≡ following size last }
{
    if size == 0 { 0 } else { last.wrapping_add(1) }
}

// The verdict where the record is good and the block fits.
pub fn judge(
    count: u64,
    last: u16,
    size: u16,
    store: &[i16; KEPT_SAMPLES],
    number: u16,
    samples: &[i16],
) -> Result<Turn, Refusal>
    requires { (count ≤ take_limit) × (size ≤ longest_block) × (length samples.now ≤ longest_block) }
    ensures { Numbered count last size store.now number samples.now (judged_number result) }
{
    if is_last(size, last, number) {
        return if again(samples, store, size) {
            Ok(Turn::GivenAgain)
        } else {
            Err(Refusal::OtherSamples)
        };
    }
    if number != next_number(size, last) {
        return Err(Refusal::NumberNeither);
    }
    if count + samples.len() as u64 > rules::TAKE_LIMIT {
        return Err(Refusal::TakeFull);
    }
    Ok(Turn::Taken)
}
