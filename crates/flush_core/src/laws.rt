//! Laws of the definitions, each proved by a function that does nothing: what a caller of `Writer`
//! may say of crashes without knowing its calls.

ghost use Rattle.std.specs.Prelude.{◌≡◌, ℕ, ◌+◌, ◌/◌, ◌<◌, ◌≤◌, ◌++◌, false, List, length, Option, IfSome};
ghost use mathlib.Core.Option.{none, some};
ghost use Rattle.byte_position.specs.Geometry.{pages_of};
ghost use Rattle.segment_disk.specs.declared.disk.Call.{Call};
ghost use Rattle.segment_disk.specs.Tape.{DiskState, Tape};
ghost use Rattle.segment_disk.specs.DiskImage.{DiskImage, LeftAt, MayLeave};
ghost use Rattle.flush_core.specs.Calls.{page_calls, put_calls};
ghost use Rattle.flush_core.specs.SettledLog.{SettledLogsAreWhole, SettlingKeepsLawful, SyncedLogsAreLawful};
ghost use Rattle.flush_core.specs.declared.planning.SettlePlan.{SettlePlan};
ghost use Rattle.flush_core.specs.Planned.{IsPlanOf, call_count, settled_tape};
ghost use Rattle.flush_core.specs.Settled.{HasSettled};
ghost use Rattle.flush_core.specs.Pages.{ArePutUpto, HoldsPages, HoldsPut, PutPages};

/// A law: where nothing waits for a sync, every image that a crash leaves holds just the pages that
/// were put.
pub fn synced_images_hold_what_was_put()
    ensures { (size written made : ℕ) (state : DiskState) (pages : PutPages) (image : DiskImage)
        → ArePutUpto written pages → HoldsPut size written made false state pages
        → MayLeave state image → HoldsPages size made image pages }
{}

/// A law: a disk whose calls go on leaves at earlier moments what it left before.
pub fn later_calls_change_no_earlier_image()
    ensures { (tape : Tape) (more : List Call) (moment : ℕ) (image : DiskImage)
        → moment < length tape.calls
        → LeftAt (record tape { calls = tape.calls ++ more }) moment image
        → LeftAt tape moment image }
{}

/// A law: once a log was settled, whatever a crash leaves is the log that was found and nothing
/// else. While it is settled each image that a crash leaves is lawful for the order for which it
/// was before; and from the end of the first syncs on, up to where the log was found to end.
pub fn settled_logs_are_found_again()
    ensures whole { SettledLogsAreWhole }
    ensures lawful { SettlingKeepsLawful }
    ensures synced { SyncedLogsAreLawful }
{}

/// A law: what settling leaves on the tape is known before its first call, and so is how many calls
/// it makes, by its plan.
pub fn settled_tapes_are_planned()
    ensures tape { (size end count : ℕ) (old new : Option Tape) (old_moment new_moment : ℕ)
        → HasSettled size end count old new old_moment new_moment
        → new ≡ settled_tape size end count old }
    ensures counted { (size end count : ℕ) (old : Option Tape) (plan : SettlePlan) (moment : ℕ)
        → IsPlanOf size end count old plan → IfSome old (λ t. moment ≡ length t.calls)
        → IfSome (settled_tape size end count old)
        (λ t. moment + call_count plan ≡ length t.calls) }
{}

/// A law: where what waits for a sync is of the segment under way, which is made, or where nothing
/// waits, a page is put by the calls of a writer that has its disk for itself.
pub fn settling_is_for_other_segments()
    ensures own { (size made page upto : ℕ) (bytes : List ℕ) → page / pages_of size ≤ made
        → page_calls size made (some (page / pages_of size)) page upto bytes
        ≡ put_calls size made page upto bytes }
    ensures free { (size made page upto : ℕ) (bytes : List ℕ)
        → page_calls size made none page upto bytes ≡ put_calls size made page upto bytes }
{}
