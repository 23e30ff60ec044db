// How steps take these bits and leave them.
ghost use Rattle.std.specs.Prelude.{◌≡◌, ℕ, ◌<◌, ◌≤◌, Bool, false, IfOk, length, slice_index_or};
ghost use Rattle.limits.specs.Limits.{heaviest};
ghost use Rattle.machine.specs.Carrying.{count_of, entering, leaving, no_carry};
ghost use Rattle.program.specs.Machine.{put};

use crate::carries::{Carries, Carry};
use limits::HEAVIEST;
use std::alloc::{AllocError, Global};

// What fell out of the first n steps enters them; the others stay, so that a light form costs little. A function on a
// slice: what is written to a part that `split_at_mut` lends of a vector is not known to the proof.
fn hand_on(bits: &mut [Carry], n: usize)
    requires { n ≤ length bits.old }
    ensures { (k : ℕ) → k < n → (slice_index_or bits.new k no_carry).enter ≡ (slice_index_or bits.old k no_carry).leave }
{
    let (used, _) = bits.split_at_mut(n);
    for carry in used.iter_mut() {
        carry.enter = carry.leave;
    }
}

// No bit enters the first n steps.
fn forget(bits: &mut [Carry], n: usize)
    requires { n ≤ length bits.old }
    ensures { (k : ℕ) → k < n → (slice_index_or bits.new k no_carry).enter ≡ false }
{
    let (used, _) = bits.split_at_mut(n);
    for carry in used.iter_mut() {
        *carry = Carry::default();
    }
}

impl Carries {
    // Those of the heaviest form; a lighter one uses the first of them. No bit is set.
    pub(crate) fn new(heap: Global) -> Result<Carries, AllocError>
        ensures { IfOk result (λ c. (count_of c ≡ heaviest) × ((k : ℕ) → entering c k ≡ false)) }
    {
        let bits = vec![in heap; Carry::default(); HEAVIEST as usize]?;
        Ok(Carries { bits })
    }

    // Makes a step: the carry's bit enters, and the bit that falls out is kept for the next block.
    pub(crate) fn through<B, F: FnOnce(bool) -> (B, bool)>(&mut self, k: usize, step: F) -> B
        requires range { k < count_of self.old }
        requires callable { F.IsAlwaysCallable step }
        ensures long { count_of self.new ≡ count_of self.old }
        ensures entering { entering self.new ≡ entering self.old }
        ensures leaving { (out : Bool) × F.post step (entering self.old k) record { 0 = result; 1 = out } × (leaving self.new ≡ put (leaving self.old) k out) }
    {
        let (marks, leave) = step(self.bits[k].enter);
        self.bits[k].leave = leave;
        marks
    }

    // To the next block: what fell out of the first n steps enters there.
    pub(crate) fn hand_on(&mut self, n: usize)
        requires { n ≤ count_of self.old }
        ensures long { count_of self.new ≡ count_of self.old }
        ensures entering { (k : ℕ) → k < n → entering self.new k ≡ leaving self.old k }
    {
        hand_on(self.bits.as_mut_slice(), n);
    }

    // No bit enters the first n steps.
    pub(crate) fn forget(&mut self, n: usize)
        requires { n ≤ count_of self.old }
        ensures long { count_of self.new ≡ count_of self.old }
        ensures entering { (k : ℕ) → k < n → entering self.new k ≡ false }
    {
        forget(self.bits.as_mut_slice(), n);
    }
}
