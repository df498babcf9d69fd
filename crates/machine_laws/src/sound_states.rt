//! What a state that keeps the invariant shows of locks, turns, copies, positions and watchers,
//! each proved by a function that does nothing (PostgreSQL's xlog.c: WALInsertLockAcquire,
//! WALInsertLockUpdateInsertingAt, WaitXLogInsertionsToFinish, LogwrtResult).

ghost use Rattle.std.specs.Prelude.{ℕ, List};
ghost use mathlib.Core.Option.{Option};
ghost use Rattle.segment_disk.specs.Tape.{DiskState};
ghost use Rattle.machine_state.specs.Words.{Opening, end_form, order_end};
ghost use Rattle.machine_state.specs.Views.{Plain, View};
ghost use Rattle.machine_state.specs.Sound.{IsSound};
ghost use Rattle.machine_laws.specs.SoundLocks.{EntriesAreWholeOrInFlight, LocksHaveHolders, LocksTellCopies, TurnsHaveHolders};
ghost use Rattle.machine_laws.specs.SoundPositions.{PositionsAreOrdered};
ghost use Rattle.machine_laws.specs.SoundWatches.{WatchersSeeCopies};

/// A lock's word is not 0 exactly where one view holds the lock, and no two hold it. The word of
/// each turn is 0, or one more than the number of the one view that has the turn; the writer is
/// away exactly where some view has it in hand, and that one has the turn to write. An entry of the
/// order is whole and in flight nowhere, or in flight in one view, under locks that this view
/// holds.
pub fn sound_locks_and_turns_have_one_holder()
    ensures locks { (first : DiskState) (opening : Opening) (words : List ℕ) (home : Option Plain)
        (views : List View)
        (k : IsSound first opening words home views) → LocksHaveHolders words views }
    ensures turns { (first : DiskState) (opening : Opening) (words : List ℕ) (home : Option Plain)
        (views : List View)
        (k : IsSound first opening words home views) → TurnsHaveHolders words home views }
    ensures entries { (first : DiskState) (opening : Opening) (words : List ℕ) (home : Option Plain)
        (views : List View) (k : IsSound first opening words home views)
        → EntriesAreWholeOrInFlight opening k.order words views }
{}

/// A lock's word above 1 is one more than an address that lies not past the next word that the
/// lock's holder is to copy of its entry in flight, and not past the entry's end where none is
/// left; or, where nothing is in flight under the lock, not past the reserved end.
pub fn sound_locks_tell_no_more_than_is_copied()
    ensures told { (first : DiskState) (opening : Opening) (words : List ℕ) (home : Option Plain)
        (views : List View)
        (k : IsSound first opening words home views)
        → LocksTellCopies (opening.setup).seg_size (end_form opening.setup
        (order_end opening k.order)) words views }
{}

/// What a pass was promised lies not above the flushed and the moment word, the flushed word not
/// above the written one, and this not above the end of what is reserved nor above any word that is
/// still to copy. The written word is at most where the writer stands, at home or in a view's hand,
/// and is just that while the writer is at home and the down word is 0. Below the written word the
/// disk reads as the log, where it tells what it holds and held at the opening what a log may begin
/// on.
pub fn sound_positions_are_ordered()
    ensures positions { (first : DiskState) (opening : Opening) (words : List ℕ)
        (home : Option Plain)
        (views : List View) (k : IsSound first opening words home views)
        → PositionsAreOrdered first opening k.order words home views }
{}

/// A pass watches for no more than it has seen reserved, and each entry in flight under a lock that
/// it has visited, of which a word lies below the end watched for, has all its words below the
/// bound copied.
pub fn sound_watchers_see_copies()
    ensures watchers { (first : DiskState) (opening : Opening) (words : List ℕ)
        (home : Option Plain)
        (views : List View) (k : IsSound first opening words home views)
        → WatchersSeeCopies opening.setup views }
{}
