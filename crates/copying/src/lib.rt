// Samples copied between stores: the kept ones and a block's laid one after the other, and what is newest kept again.

#![tactic(auto)]

ghost use Rattle.std.specs.Prelude.{◌≡◌, ◌++◌, [], ◌+◌, ◌≤◌, pos, length, take, drop, replicate};
ghost use Rattle.ages.specs.Ages.{Samples};
ghost use Rattle.copying.specs.Copies.{laid, Joined};

// Lays the samples xs into a store from a place on.
pub fn lay(into: &mut [i16], from: usize, xs: &[i16])
    requires { from + length xs.now ≤ length into.old }
    ensures laid { into.new ≡ laid into.old from xs.now }
    ensures samples { Samples into.old → Samples into.new }
{
    // Stays: a loop, since after `copy_from_slice` a proof does not know that the copied samples have 16 bits.
    for (i, x) in xs.iter().enumerate() {
        into[from + i] = *x;
    }
}

// The kept samples at the front of a store, with places for what comes after them.
pub fn front(all: &mut [i16], kept: &[i16])
    requires { (length kept.now ≤ length all.old) × Samples all.old }
    ensures { Joined kept.now [] (length all.old) all.new }
{
    lay(all, 0, kept);
}

// The kept samples, and the block's after them, in one store.
pub fn join(all: &mut [i16], kept: &[i16], new: &[i16])
    requires { (length kept.now + length new.now ≤ length all.old) × Samples all.old }
    ensures { Joined kept.now new.now (length all.old) all.new }
{
    front(all, kept);
    lay(all, kept.len(), new);
}

// Fills a store with the samples after the first n.
pub fn keep(into: &mut [i16], all: &[i16], n: usize)
    requires { n + length into.old ≤ length all.now }
    ensures { into.new ≡ take (length into.old) (drop n all.now) }
{
    into.copy_from_slice(&all[n..n + into.len()]);
}

// Writes the first n of the kept samples.
pub fn give(kept: &[i16], out: &mut [i16], n: usize)
    requires { (n ≤ length kept.now) × (n ≤ length out.old) }
    ensures { out.new ≡ take n kept.now ++ drop n out.old }
{
    // Stays: by copy_from_slice the archive for C needs memmove from outside.
    lay(out, 0, &kept[..n]);
}

// All of a store is 0.
pub fn clear(all: &mut [i16])
    ensures { all.new ≡ replicate (length all.old) (pos 0) }
{
    all.fill(0);
}
