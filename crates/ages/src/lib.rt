// Samples, oldest first: which of them is how far back.

#![tactic(auto)]

ghost use Rattle.std.specs.Prelude.{◌≡◌, ◌≤◌, ◌<◌, length};
ghost use Rattle.rules.specs.Rules.{eighth_sample};
ghost use Rattle.ages.specs.Ages.{past, Samples};

// The sample of k samples ago: the newest stands last.
#[tactic(auto, using(crate::specs::Ages::past_at))]
pub fn back(s: &[i16], k: usize) -> i16
    requires { k < length s.now }
    ensures { result ≡ past s.now k }
{
    s[s.len() - 1 - k]
}

// The sum of the newest eight, divided by 8 and rounded down.
pub fn eighth_sample(s: &[i16]) -> i16
    requires { (8 ≤ length s.now) × Samples s.now }
    ensures { result ≡ eighth_sample (past s.now) }
{
    let mut sum = 0;
    for k in 0..8 {
        sum += i32::from(back(s, k));
    }
    (sum >> 3) as i16
}
