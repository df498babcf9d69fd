//! What a crash of the host leaves, proved by a function that does nothing.

ghost use Rattle.std.specs.Prelude.{◌≡◌, ℕ, Bool, Some, slice_get};
ghost use Rattle.segment_disk.specs.declared.disk.Call.{Call};
ghost use Rattle.segment_disk.specs.DiskImage.{DiskImage, LeftAt, MayLeave};
ghost use Rattle.segment_disk.specs.Tape.{Tape, after_call, failed_call, state_at};

/// The host has made so many calls of the tape, and the next one failed: it may have had its effect
/// or not. Whatever a crash leaves then, it may leave of the tape in the midst of that call. (What
/// it leaves between two calls, or within one, is what `LeftAt` says.)
pub fn failed_calls_leave_no_more()
    ensures { (tape : Tape) (made : ℕ) (call : Call) (there : Bool) (image : DiskImage)
        → slice_get tape.calls made ≡ Some call
        → MayLeave (after_call (state_at tape made) (failed_call there call)) image
        → LeftAt tape made image }
{}
