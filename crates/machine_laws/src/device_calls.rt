//! Calls of the device, each with every outcome: laws proved by a function that does nothing. Only
//! words of the log, or zeros, are ever written; a page is written again with the same words below
//! what is durable; and no call follows one that failed. So what a crash leaves is as it was said,
//! also where it comes within a call.

ghost use Rattle.std.specs.Prelude.{ℕ, List};
ghost use Rattle.segment_disk.specs.Tape.{create_call, sync_call, write_call};
ghost use Rattle.machine_state.specs.Moves.{CallOutcome, after_create, after_sync, after_write};
ghost use Rattle.machine_state.specs.Steps.{MayStep, create, sync, write};
ghost use Rattle.machine_laws.specs.DurableBehind.{CallsFrom, IsDurableBehind};

/// A segment is made, a page written, a segment synced, by the pass that has the writer in hand:
/// done, failed and counted, or failed and not counted.
pub fn calls_keep_durability()
    ensures create { (c : CallsFrom) (segment : ℕ) (outcome : CallOutcome) (met : ℕ)
        → MayStep c.view (create segment outcome)
        → IsDurableBehind c (create segment outcome) met (after_create segment
        (create_call ((c.opening).setup).seg_size segment) outcome c.writer) }
    ensures write { (c : CallsFrom) (segment page upto : ℕ) (bytes : List ℕ) (outcome : CallOutcome)
        (met : ℕ) → MayStep c.view (write segment page upto bytes outcome)
        → IsDurableBehind c (write segment page upto bytes outcome) met (after_write segment upto
        (write_call ((c.opening).setup).seg_size segment page bytes) outcome c.writer) }
    ensures sync { (c : CallsFrom) (segment : ℕ) (outcome : CallOutcome) (met : ℕ)
        → MayStep c.view (sync segment outcome)
        → IsDurableBehind c (sync segment outcome) met (after_sync
        (sync_call ((c.opening).setup).seg_size segment) outcome c.writer) }
{}
