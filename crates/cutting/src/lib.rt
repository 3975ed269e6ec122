// Cutting: a recording's stretches of 512 samples.

#![tactic(auto)]

ghost use Rattle.std.specs.Prelude.{◌≡◌, ◌*◌, take, drop};
ghost use Rattle.rules.specs.Rules.{longest_block};
ghost use Rattle.cutting.specs.Cuts.{Cut};

use rules::LONGEST_BLOCK;

// A stretch of a recording: the sample where it begins, and how many it has.
#[repr(C)]
#[derive(Clone, Copy)]
pub struct Stretch {
    pub from: usize,
    pub count: usize,
}

// Where the k-th stretch of a recording of so many samples lies: the last may be shorter, and past the end there is nothing.
pub fn place(length: usize, k: usize) -> Stretch
    ensures { Cut length k result }
{
    let from = LONGEST_BLOCK.saturating_mul(k).min(length);
    Stretch {
        from,
        count: (length - from).min(LONGEST_BLOCK),
    }
}

// That stretch of the caller's own samples.
pub fn cut(recording: &[i16], k: usize) -> &[i16]
    ensures { result.now ≡ take longest_block (drop (longest_block * k) recording.now) }
{
    let s = place(recording.len(), k);
    &recording[s.from..s.from + s.count]
}
