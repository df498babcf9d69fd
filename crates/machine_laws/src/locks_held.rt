//! Laws of who holds which insertion lock (PostgreSQL's xlog.c, WALInsertLockAcquire and
//! WALInsertLockRelease), each proved by a function that does nothing. `later` is what the locks'
//! words are behind a step. An entry in flight always stands under a lock that its view holds: that
//! is how a watcher finds it.

ghost use Rattle.std.specs.Prelude.{◌≡◌, ◌≢◌, ℕ, ◌<◌, Contains, List, [], ◌∷◌, ◌++◌, set};
ghost use Rattle.machine_state.specs.Views.{HasAt, Copy, Copying, Flight, Landed, Working, AreSomeOf, View, working_of};
ghost use Rattle.machine_state.specs.Locked.{AreHeld};
ghost use Rattle.machine_state.specs.Moves.{landed, without_lock, one_more, after_take_lock};
ghost use Rattle.machine_state.specs.Steps.{exchanged};
ghost use Rattle.machine_laws.specs.Locks.{ChangesAt, idle};

/// What is said of locks held stays true where no lock's word changes, and where one that is held
/// comes to tell more.
pub fn held_locks_stay_held()
    ensures same { (lock later : ℕ → ℕ) (parts : List Working) → AreHeld lock parts
        → ((j : ℕ) → j < 8 → later j ≡ lock j) → AreHeld later parts }
    ensures told { (lock later : ℕ → ℕ) (parts : List Working) (id i : ℕ) (w : Working)
        → AreHeld lock parts → HasAt parts id w → Contains w.locks i → ChangesAt lock later i
        → later i ≢ 0 → AreHeld later parts }
{}

/// A lock that is asked for is taken where it is free, and one that is held is given back.
pub fn locks_are_taken_and_given_back()
    ensures taken { (lock later : ℕ → ℕ) (parts : List Working) (id i : ℕ) (v : View)
        → AreHeld lock parts → HasAt parts id v.working → i < 8 → ChangesAt lock later i
        → later i ≡ exchanged v 0 1 (lock i)
        → AreHeld later (set parts id (working_of (after_take_lock i (lock i) v))) }
    ensures released { (lock later : ℕ → ℕ) (parts : List Working) (id i : ℕ) (w : Working)
        → AreHeld lock parts → HasAt parts id w → Contains w.locks i → ChangesAt lock later i
        → later i ≡ 0 → AreHeld later (set parts id (record {
          locks = without_lock i w.locks;
          flight = landed i w.flight;
        })) }
{}

/// An entry begins its flight under locks that its view holds, at least one, and stays under them.
pub fn entries_are_copied_under_locks_held()
    ensures begun { (lock : ℕ → ℕ) (parts : List Working) (id : ℕ) (w : Working) (c : Copy)
        → AreHeld lock parts → HasAt parts id w → AreSomeOf c.locks w.locks
        → AreHeld lock (set parts id (record { locks = w.locks; flight = Copying c })) }
    ensures copied_on { (lock : ℕ → ℕ) (parts : List Working) (id : ℕ) (w : Working)
        → AreHeld lock parts → HasAt parts id w → AreHeld lock
        (set parts id (record { locks = w.locks; flight = one_more w.flight })) }
{}

/// Views come and go: one that has nothing in hand comes in or is taken in, and what one has in
/// hand goes to a new one.
pub fn held_locks_outlive_their_views()
    ensures split { (lock : ℕ → ℕ) (parts : List Working) → AreHeld lock parts
        → AreHeld lock (parts ++ idle ∷ []) }
    ensures joined { (lock : ℕ → ℕ) (parts : List Working) (id other : ℕ) (w x : Working)
        → AreHeld lock parts → HasAt parts id w → HasAt parts other x → x.locks ≡ []
        → x.flight ≡ Landed → AreHeld lock (set (set parts other idle) id w) }
    ensures given_up { (lock : ℕ → ℕ) (parts : List Working) (id : ℕ) (w : Working)
        → AreHeld lock parts → HasAt parts id w
        → AreHeld lock (set parts id idle ++ w ∷ []) }
{}
