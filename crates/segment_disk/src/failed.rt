// How an outside says that a call failed. Whoever has it keeps a count of faults, which rises with
// each failed call and at nothing else: so callers tell by it a fault that was met.
ghost use Rattle.std.specs.Prelude.{◌≡◌, ℕ, ◌+◌, ◌-◌, ◌^◌, ◌⊎◌};

/// A call of the outside that failed. Its object's count of faults tells it from an answer made up.
#[derive(Clone, Copy, Debug, PartialEq, Eq)]
pub struct Failed;

/// Counts a fault. The count stops at the last value that it can have.
pub fn count_fault(faults: &mut u64) -> Failed
    ensures { (faults.new ≡ faults.old + 1)
        ⊎ ((faults.new ≡ faults.old) × (faults.new ≡ 2 ^ 64 - 1)) }
{
    *faults = faults.saturating_add(1);
    Failed
}
