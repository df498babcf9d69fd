//! Laws of what the words of insertion locks tell of the copies under them (PostgreSQL's xlog.c,
//! WALInsertLockUpdateInsertingAt), each proved by a function that does nothing. `later` is what
//! the locks' words are behind a step. A copy only goes on, so what was told of it stays true; and
//! a lock that is taken tells nothing of the copy before.

ghost use Rattle.std.specs.Prelude.{◌≡◌, ℕ, ◌+◌, ◌<◌, ◌≤◌, Contains, List, [], ◌∷◌, ◌++◌, set};
ghost use Rattle.wal_page.specs.EntryWords.{address_of_word};
ghost use Rattle.machine_state.specs.Views.{HasAt, Copy, Copying, Landed, Working, View, working_of};
ghost use Rattle.machine_state.specs.Locked.{AreHeld, ProgressHolds, most_told};
ghost use Rattle.machine_state.specs.Moves.{landed, without_lock, one_more, after_take_lock};
ghost use Rattle.machine_state.specs.Steps.{exchanged};
ghost use Rattle.machine_laws.specs.Locks.{ChangesAt, idle};

/// No lock tells more than is copied: still where no lock's word changes, and where the holder of
/// one tells how far it is.
pub fn locks_tell_no_more_than_is_copied()
    ensures same { (size end : ℕ) (lock later : ℕ → ℕ) (parts : List Working) → AreHeld lock parts
        → ProgressHolds size end lock parts → ((j : ℕ) → j < 8 → later j ≡ lock j)
        → ProgressHolds size end later parts }
    ensures advanced { (size end : ℕ) (lock later : ℕ → ℕ) (parts : List Working) (id i : ℕ)
        (w : Working) → AreHeld lock parts → ProgressHolds size end lock parts
        → HasAt parts id w → Contains w.locks i → ChangesAt lock later i
        → later i ≤ most_told size end i w.flight → ProgressHolds size end later parts }
{}

/// A lock that is taken tells nothing yet, and one that is given back no more.
pub fn locks_tell_nothing_at_first()
    ensures taken { (size end : ℕ) (lock later : ℕ → ℕ) (parts : List Working) (id i : ℕ) (v : View)
        → AreHeld lock parts → ProgressHolds size end lock parts → HasAt parts id v.working
        → ChangesAt lock later i → later i ≡ exchanged v 0 1 (lock i)
        → ProgressHolds size end later (set parts id (working_of (after_take_lock i (lock i) v))) }
    ensures released { (size end : ℕ) (lock later : ℕ → ℕ) (parts : List Working) (id i : ℕ)
        (w : Working) → AreHeld lock parts → ProgressHolds size end lock parts → HasAt parts id w
        → Contains w.locks i → ChangesAt lock later i → later i ≡ 0
        → ProgressHolds size end later (set parts id (record {
          locks = without_lock i w.locks;
          flight = landed i w.flight;
        })) }
{}

/// An entry begins its flight at or above the reserved end, which is all that a lock without one
/// tells; and what is told stays true while more of it is copied, and more is reserved. `end` is
/// the reserved end, as an address.
pub fn what_is_told_of_copies_stays_true()
    ensures begun { (size end : ℕ) (lock : ℕ → ℕ) (parts : List Working) (id : ℕ) (w : Working)
        (c : Copy) → ProgressHolds size end lock parts → HasAt parts id w → w.flight ≡ Landed
        → end ≤ address_of_word size c.entry c.copied → ProgressHolds size end lock
        (set parts id (record { locks = w.locks; flight = Copying c })) }
    ensures later { (size end later : ℕ) (lock : ℕ → ℕ) (parts : List Working) → end ≤ later
        → ProgressHolds size end lock parts → ProgressHolds size later lock parts }
    ensures copied_on { (size end : ℕ) (lock : ℕ → ℕ) (parts : List Working) (id : ℕ) (w : Working)
        → ProgressHolds size end lock parts → HasAt parts id w → ProgressHolds size end lock
        (set parts id (record { locks = w.locks; flight = one_more w.flight })) }
{}

/// Views come and go: one that has nothing in hand comes in or is taken in, and what one has in
/// hand goes to a new one.
pub fn what_locks_tell_outlives_their_views()
    ensures split { (size end : ℕ) (lock : ℕ → ℕ) (parts : List Working)
        → ProgressHolds size end lock parts → ProgressHolds size end lock (parts ++ idle ∷ []) }
    ensures joined { (size end : ℕ) (lock : ℕ → ℕ) (parts : List Working) (id other : ℕ)
        (w x : Working) → ProgressHolds size end lock parts → HasAt parts id w → HasAt parts other x
        → x.locks ≡ [] → x.flight ≡ Landed
        → ProgressHolds size end lock (set (set parts other idle) id w) }
    ensures given_up { (size end : ℕ) (lock : ℕ → ℕ) (parts : List Working) (id : ℕ) (w : Working)
        → ProgressHolds size end lock parts → HasAt parts id w
        → ProgressHolds size end lock (set parts id idle ++ w ∷ []) }
{}
