// A report over the bytes of an input, in pieces of any length: what is kept while they come, and the report at their end.

#![tactic(auto)]

ghost use Rattle.std.specs.Prelude.{◌≡◌, List, [], ◌∷◌, ◌++◌, ℕ, ◌≤◌, length, take};
ghost use Rattle.tuner.specs.declared.Tuner.{Tuner};
ghost use Rattle.reports.specs.Reports.{report_of};
ghost use Rattle.reports.specs.Counting.{Within, most};
ghost use Rattle.reporting.specs.Reporting.{Takes, Report};
ghost use Rattle.reporting.specs.Keeping.{Keeps, Kept, LineReported, SoFar, with_tuner};
ghost use Rattle.reporting.specs.Counts.{counted_of};
ghost use Rattle.reporting.specs.Steps.{GoesOn, held_in};

mod line;

pub use line::Line;
use reports::Figures;
use tuner::{Answer, Tuner};

// More takes are not reported.
const MOST_TAKES: u32 = 1000;

// The tuner; how many takes began, 1,001 for more than 1,000; the newest one's figures, those of all before it added up, and how many bytes of the output
// their lines take.
#[derive(Clone, Copy)]
pub struct Reporting {
    pub tuner: Tuner,
    pub takes: u32,
    pub now: Figures,
    pub before: Figures,
    pub length: usize,
}

// What an answer counts: nothing where it is refused or given again.
fn counted(a: Answer) -> Figures
    ensures { result ≡ counted_of a }
{
    if a.number != 0 {
        return Figures::default();
    }
    Figures {
        samples: u64::from(a.written),
        pitched: u64::from(a.pitched),
        repeated: u64::from(a.repeated),
        dropped: u64::from(a.dropped),
        sum: u64::from(a.strayed),
    }
}

impl Reporting {
    // The opening is a take.
    pub fn begin() -> Reporting
        ensures { (out : List ℕ) → SoFar [] result [] out }
    {
        Reporting {
            tuner: Tuner::default(),
            takes: 1,
            now: Figures::default(),
            before: Figures::default(),
            length: 0,
        }
    }

    // A take began, and the tuner before that is not known here: the line of the one before it is written, unless there are too many.
    fn begin_take(&mut self, out: &mut [u8])
        requires { ((t : Tuner) × Kept (with_tuner t self.old) out.old) × (147147 ≤ length out.old) × (self.old.tuner.numbers.count ≡ 0) }
        ensures { (self.new.tuner ≡ self.old.tuner) × ((t : Tuner) (takes : Takes) → Keeps (with_tuner t self.old) out.old takes → Keeps self.new out.new ([] ∷ takes)) }
    {
        if self.takes >= MOST_TAKES {
            self.takes = MOST_TAKES + 1;
            return;
        }
        self.length = self.now.put_line(out, self.length);
        self.before = self.before + self.now;
        self.now = Figures::default();
        self.takes += 1;
    }

    // The newest take went on with a block of these figures, which count unless there are too many takes.
    fn go_on(&mut self, f: Figures)
        requires { (self.old.takes ≤ 1000 → Within most self.old.now) × Within most f }
        ensures { (t : Tuner) → GoesOn (with_tuner t self.old) self.old.tuner f self.new }
    {
        if self.takes <= MOST_TAKES {
            self.now = self.now + f;
        }
    }

    // One line, given without its end: the line program answers it, and what it answers is not printed.
    fn report_line(&mut self, line: &[u8], out: &mut [u8])
        requires { Kept self.old out.old × (147147 ≤ length out.old) }
        ensures { (takes : Takes) → Keeps self.old out.old takes → LineReported self.old.tuner line.now takes self.new out.new }
    {
        let mut said = [0u8; 4096];
        let mut store = [0u32; 0];
        let reply = lines::answer_line(&mut self.tuner, line, &mut said, &mut store);
        if reply.begins {
            self.begin_take(out);
        } else {
            self.go_on(counted(reply.answer));
        }
    }

    // A piece of the input, after the bytes that are held.
    pub fn read_on(&mut self, line: &mut Line, input: &[u8], out: &mut [u8])
        requires { ((before : List ℕ) × SoFar before self.old (held_in line.old) out.old) × (147147 ≤ length out.old) }
        ensures { (before : List ℕ) → SoFar before self.old (held_in line.old) out.old → SoFar (before ++ input.now) self.new (held_in line.new) out.new }
    {
        for b in input {
            if *b == b'\n' {
                self.report_line(line.as_slice(), out);
                line.clear();
            } else {
                line.push(*b);
            }
        }
    }

    // The lines of the takes and the total, or 28 alone.
    fn write_report(&self, out: &mut [u8]) -> usize
        requires { Kept self.now out.old × (147147 ≤ length out.old) }
        ensures { (result ≤ length out.new) × ((takes : Takes) → Keeps self.entry.now out.old takes → take result out.new ≡ report_of takes) }
    {
        if self.takes > MOST_TAKES {
            return reports::put_too_many(out);
        }
        let at = self.now.put_line(out, self.length);
        let total = self.before + self.now;
        total.put_line(out, at)
    }

    // The end of the input, where a last line may lack its end: writes the report, and answers how many bytes it has.
    pub fn finish(&mut self, held: &[u8], out: &mut [u8]) -> usize
        requires { ((input : List ℕ) × SoFar input self.old held.now out.old) × (147147 ≤ length out.old) }
        ensures { (result ≤ length out.new) × ((input : List ℕ) → SoFar input self.old held.now out.old → Report input (take result out.new)) }
    {
        if held.is_empty() {
            return self.write_report(out);
        }
        self.report_line(held, out);
        self.write_report(out)
    }
}
