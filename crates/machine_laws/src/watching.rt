//! Laws of those who watch the copies under the insertion locks (PostgreSQL's xlog.c,
//! WaitXLogInsertionsToFinish), each proved by a function that does nothing. A watcher sees a
//! reserved end, then visits the locks one by one, while others take, tell and release them: what
//! it has learnt stays true, since an entry that comes later lies behind that end, and a copy under
//! a lock that it visited only goes on.

ghost use Rattle.std.specs.Prelude.{◌≡◌, ◌≢◌, ℕ, ◌≤◌, List, [], ◌∷◌, ◌++◌, set, map};
ghost use Rattle.byte_position.specs.Geometry.{IsSegmentSize};
ghost use Rattle.wal_page.specs.Order.{Entry};
ghost use Rattle.machine_state.specs.Words.{end_form, order_end, Opening};
ghost use Rattle.machine_state.specs.Views.{HasAt, Copy, Copying, Landed, Watching, Working, View, working_of, watching_of, flight_of};
ghost use Rattle.machine_state.specs.Locked.{AreHeld, ProgressHolds};
ghost use Rattle.machine_state.specs.Watched.{WatchHolds};
ghost use Rattle.machine_state.specs.Positioned.{IsCopiedBelow};
ghost use Rattle.machine_state.specs.Moves.{landed, one_more, copied_below, after_load_lock, after_take_lock};
ghost use Rattle.machine_laws.specs.Locks.{idle, unwatching};

/// A watch begins with the first lock, at most for the end of what is reserved, and goes on lock by
/// lock: one that is free guards no copy, nor does the watcher's own where it copies nothing, and
/// one that is held tells how far its copy is.
pub fn watches_go_from_lock_to_lock()
    ensures { (opening : Opening) (order : List Entry) (lock : ℕ → ℕ) (works : List Working)
        (watches : List Watching) (id i limit : ℕ) (v : View)
        → IsSegmentSize opening.setup.seg_size → AreHeld lock works
        → ProgressHolds opening.setup.seg_size
        (end_form opening.setup (order_end opening order)) lock works
        → v.opening.setup ≡ opening.setup
        → v.reserving.seen ≤ order_end opening order
        → WatchHolds opening.setup.seg_size
        (end_form opening.setup (order_end opening order)) works watches
        → HasAt works id v.working → HasAt watches id v.watching
        → WatchHolds opening.setup.seg_size
        (end_form opening.setup (order_end opening order)) works
        (set watches id (watching_of (after_load_lock i limit (lock i) v))) }
{}

/// An entry that begins its flight lies where no watch reaches; one that is copied further or
/// lands, and a lock that is asked for, leave what watchers know.
pub fn copies_go_on_before_their_watchers()
    ensures begun { (opening : Opening) (order : List Entry) (works : List Working)
        (watches : List Watching) (id : ℕ) (c : Copy) (locks : List ℕ)
        → IsSegmentSize opening.setup.seg_size → WatchHolds opening.setup.seg_size
        (end_form opening.setup (order_end opening order)) works watches
        → c.entry.start ≡ order_end opening order
        → WatchHolds opening.setup.seg_size
        (end_form opening.setup (order_end opening (order ++ c.entry ∷ [])))
        (set works id (record { locks = locks; flight = Copying c })) watches }
    ensures copied_on { (size end : ℕ) (works : List Working) (watches : List Watching) (id : ℕ)
        (w : Working) → WatchHolds size end works watches → HasAt works id w
        → WatchHolds size end
        (set works id (record { locks = w.locks; flight = one_more w.flight })) watches }
    ensures released { (size end : ℕ) (works : List Working) (watches : List Watching)
        (id i : ℕ) (w : Working) (locks : List ℕ) → WatchHolds size end works watches
        → HasAt works id w → WatchHolds size end
        (set works id (record { locks = locks; flight = landed i w.flight })) watches }
    ensures taken { (size end : ℕ) (works : List Working) (watches : List Watching) (id i : ℕ)
        (v : View) → WatchHolds size end works watches → HasAt works id v.working
        → (met : ℕ) → WatchHolds size end
        (set works id (working_of (after_take_lock i met v))) watches }
{}

/// Views come and go: one that is about nothing comes in or is taken in, and what one has in hand
/// goes to a new one, which watches nothing.
pub fn watches_stay_good_as_views_come_and_go()
    ensures split { (size end : ℕ) (works : List Working) (watches : List Watching)
        → WatchHolds size end works watches
        → WatchHolds size end (works ++ idle ∷ []) (watches ++ unwatching ∷ []) }
    ensures joined { (size end : ℕ) (works : List Working) (watches : List Watching)
        (id other : ℕ) (w x : Working) (y : Watching) → WatchHolds size end works watches
        → HasAt works id w → HasAt works other x → x.locks ≡ [] → x.flight ≡ Landed
        → HasAt watches id y → id ≢ other
        → WatchHolds size end (set (set works other idle) id w)
        (set (set watches other unwatching) id y) }
    ensures given_up { (size end : ℕ) (works : List Working) (watches : List Watching) (id : ℕ)
        (w : Working) → WatchHolds size end works watches → HasAt works id w
        → WatchHolds size end (set works id idle ++ w ∷ []) (watches ++ unwatching ∷ []) }
{}

/// What a watcher knows that has visited all locks lies below the end of what is reserved, and no
/// entry in flight has a word below it that is still to copy.
pub fn what_a_watcher_knows_is_copied()
    ensures { (size end : ℕ) (lock : ℕ → ℕ) (views : List View) (id : ℕ) (v : View)
        → AreHeld lock (map working_of views)
        → WatchHolds size end (map working_of views) (map watching_of views)
        → HasAt views id v → (copied_below v.watching ≤ end)
        × IsCopiedBelow size (map flight_of views) (copied_below v.watching) }
{}
