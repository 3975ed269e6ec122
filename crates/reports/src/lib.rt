// The figures of a report: counted over what a block tells of its samples, added up, and written as a line.

#![tactic(auto)]

ghost use Rattle.std.specs.Prelude.{◌≡◌, ◌+◌, ◌≤◌, length};
ghost use Rattle.rules.specs.Rules.{longest_block};
ghost use Rattle.text.specs.Text.{Put};
ghost use Rattle.reports.specs.Reports.{added, no_figures, mean_of, remainder_of, figures_line, too_many};
ghost use Rattle.reports.specs.Counting.{block_figures, Within, most};

use refusals::Refusal;
use rules::FRESH_RATE;
use std::ops::Add;
use text::Decimal;

// A take's figures: samples, pitched samples, cycles repeated, cycles dropped, and the sum over samples of the rate's distance from 65536.
#[repr(C)]
#[derive(Clone, Copy, Default)]
pub struct Figures {
    pub samples: u64,
    pub pitched: u64,
    pub repeated: u64,
    pub dropped: u64,
    pub sum: u64,
}

// Figures added up.
impl Add for Figures {
    type Output = Figures;

    ghost can_add = { λ a b. Within most a × Within most b };

    ghost add_gives = { λ a b r. r ≡ added a b };

    #[tactic(auto, unfolding(crate::specs::Reports::added))]
    fn add(self, other: Figures) -> Figures {
        Figures {
            samples: self.samples + other.samples,
            pitched: self.pitched + other.pitched,
            repeated: self.repeated + other.repeated,
            dropped: self.dropped + other.dropped,
            sum: self.sum + other.sum,
        }
    }
}

impl Figures {
    // The figures of a block, by the periods and the rates told of its samples and the cycles counted.
    pub fn of_block(periods: &[u32], rates: &[u32], repeated: u16, dropped: u16) -> Figures
        requires { (length periods.now ≤ longest_block) × (length rates.now ≡ length periods.now) }
        ensures { result ≡ block_figures (length periods.now) periods.now rates.now repeated dropped }
    {
        let mut pitched = 0;
        let mut sum = 0;
        for (period, rate) in periods.iter().zip(rates) {
            pitched += u64::from(*period != 0);
            sum += u64::from(rate.abs_diff(FRESH_RATE));
        }
        Figures {
            samples: periods.len() as u64,
            pitched,
            repeated: u64::from(repeated),
            dropped: u64::from(dropped),
            sum,
        }
    }

    // The whole part of the mean.
    #[tactic(auto, using(std::proofs::lemmas::Bool::Decides::nat_tests), unfolding(crate::specs::Reports::mean_of))]
    fn mean(self) -> u64
        ensures { result ≡ mean_of self }
    {
        self.sum.checked_div(self.samples).unwrap_or(0)
    }

    // Its remainder over the sample count.
    #[tactic(auto, using(std::proofs::lemmas::Bool::Decides::nat_tests), unfolding(crate::specs::Reports::remainder_of))]
    fn remainder(self) -> u64
        ensures { result ≡ remainder_of self }
    {
        self.sum.checked_rem(self.samples).unwrap_or(0)
    }

    // Writes their line, and answers the place after it.
    pub fn put_line(self, out: &mut [u8], at: usize) -> usize
        requires { at + 147 ≤ length out.old }
        ensures put { Put out.old at (figures_line self) out.new result }
        ensures within { result ≤ at + 147 }
    {
        let at = self.samples.put(out, at);
        let at = text::put_field(out, at, self.pitched);
        let at = text::put_field(out, at, self.repeated);
        let at = text::put_field(out, at, self.dropped);
        let at = text::put_field(out, at, self.sum);
        let at = text::put_field(out, at, self.mean());
        let at = text::put_field(out, at, self.remainder());
        out[at] = b'\n';
        at + 1
    }
}

// Writes the refusal of more takes than are reported.
pub fn put_too_many(out: &mut [u8]) -> usize
    requires { 6 ≤ length out.old }
    ensures { Put out.old 0 too_many out.new result }
{
    text::put_line(out, 0, Refusal::TooManyTakes.number())
}
