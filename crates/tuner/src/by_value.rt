// The calls by value: the tuner is handed in, and each step hands the new tuner back.

ghost use Rattle.refusals.specs.Refusals.{number_of};
ghost use Rattle.tuner.specs.Following.{four};
ghost use Rattle.tuner.specs.Tuners.{Took, Started, Changed, Keyed, Reset};

use crate::{Answer, Tuner};
use refusals::Refusal;
use rules::Settings;

// What a block leaves, and its answer.
#[derive(Clone, Copy)]
pub struct Taken {
    pub tuner: Tuner,
    pub answer: Answer,
}

// What a call leaves that answers no more than whether it is taken.
#[derive(Clone, Copy)]
pub struct Done {
    pub tuner: Tuner,
    pub answer: Result<(), Refusal>,
}

// A fresh tuner, or the default one where something is bad.
pub fn start(hertz: u32, s: Settings, listed: u32, intervals: &[i32], store: &[u32]) -> Done
    ensures { Started hertz s listed intervals.now store.now result.tuner (number_of result.answer) }
{
    let mut begun = Tuner::default();
    let answer = begun.start(hertz, s, listed, intervals, store);
    Done {
        tuner: begun,
        answer,
    }
}

impl Tuner {
    // The settings count from the next sample.
    pub fn change_by_value(self, s: Settings) -> Done
        ensures { Changed self s result.tuner (number_of result.answer) }
    {
        let mut changed = self;
        let answer = changed.change(s);
        Done {
            tuner: changed,
            answer,
        }
    }

    // Bytes from the keyboard; what they leave held counts from the next tracking step.
    pub fn midi_by_value(self, bytes: &[u8]) -> Done
        ensures { Keyed self bytes.now result.tuner (number_of result.answer) }
    {
        let mut keyed = self;
        let answer = keyed.midi(bytes);
        Done {
            tuner: keyed,
            answer,
        }
    }

    // Everything fresh but what `begun_again` keeps.
    pub fn reset_by_value(self, store: &[u32]) -> Done
        ensures { Reset self store.now result.tuner (number_of result.answer) }
    {
        let mut emptied = self;
        let answer = emptied.reset(store);
        Done {
            tuner: emptied,
            answer,
        }
    }

    // Takes a block, gives the last one again or refuses, and writes the outputs.
    pub fn block_by_value(
        self,
        number: u16,
        samples: &[i16],
        out: &mut [i16],
        first: &mut [i16],
        second: &mut [i16],
        third: &mut [i16],
        store: &mut [u32],
    ) -> Taken
        ensures { Took self number samples.now (four out.old first.old second.old third.old) store.old
            result.tuner result.answer (four out.new first.new second.new third.new) store.new }
    {
        let mut after = self;
        let answer = after.block(number, samples, out, first, second, third, store);
        Taken {
            tuner: after,
            answer,
        }
    }
}
