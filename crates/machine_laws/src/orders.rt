//! Laws of the machine's steps on the reserved order, each proved by a function that does nothing
//! (PostgreSQL's xlog.c, ReserveXLogInsertLocation). In each the view is live and has its part in
//! the order; what the step loads and stores is told by the machine itself (`value_behind`,
//! `view_behind`). Only who has the position (word 0) locked stores into it and into the last start
//! (word 1): so what it has met of them is so until it unlocks the position, whatever others do.

ghost use Rattle.std.specs.Prelude.{◌≡◌, ◌≢◌, ℕ, ◌<◌, ◌≤◌, true, List, [], ◌∷◌, ◌++◌, set, All, IsSome};
ghost use mathlib.Core.Option.{Option};
ghost use Rattle.wal_types.specs.declared.record.Record.{Record};
ghost use Rattle.wal_page.specs.Order.{Entry};
ghost use Rattle.segment_disk.specs.Tape.{DiskState};
ghost use Rattle.machine_state.specs.Views.{HasAt, Free, Plain, Reserving, View};
ghost use Rattle.machine_state.specs.Words.{Opening, end_form, order_end, GoesOnAtPlace};
ghost use Rattle.machine_state.specs.Steps.{StepKind, MayStep, value_behind, view_behind};
ghost use Rattle.machine_state.specs.Ordered.{OrderHolds, entries_under};
ghost use Rattle.machine_state.specs.Moves.{entry_reserved, after_split, split_off, after_join, spent, without_work, orphan_of};
ghost use Rattle.machine_state.specs.Steps.{place_at, load_position, load_flushed, store_position};
ghost use Rattle.machine_state.specs.Steps.{lock_position, load_prev, store_prev, give_position_back, stay};
ghost use Rattle.machine_laws.specs.OrderParts.{TakesPart, HoldsWith};
ghost use Rattle.machine_laws.specs.SharedOrders.{OrderIsShared};
ghost use Rattle.machine_state.specs.Sound.{IsSound};

/// The position is locked only where nobody has it locked, and what its holder loads is the last
/// start; so the position that it gives back is the one that was.
pub fn positions_are_locked_and_given_back()
    ensures lock_position { (order : List Entry) (position prev : ℕ) (parts : List Reserving)
        (id : ℕ) (v : View) (home : Option Plain) (expected : ℕ)
        → TakesPart order position prev parts id v → MayStep v (lock_position expected)
        → HoldsWith order (value_behind v (lock_position expected) position) prev parts id v
        (view_behind v (lock_position expected) position home) }
    ensures load_prev { (order : List Entry) (position prev : ℕ) (parts : List Reserving)
        (id : ℕ) (v : View) (home : Option Plain)
        → TakesPart order position prev parts id v → MayStep v load_prev
        → HoldsWith order position prev parts id v (view_behind v load_prev prev home) }
    ensures store_prev { (order : List Entry) (position prev : ℕ) (parts : List Reserving)
        (id : ℕ) (v : View) (home : Option Plain)
        → TakesPart order position prev parts id v → MayStep v store_prev
        → HoldsWith order position (value_behind v store_prev prev) parts id v
        (view_behind v store_prev prev home) }
    ensures give_position_back { (order : List Entry) (position prev : ℕ)
        (parts : List Reserving) (id : ℕ) (v : View) (home : Option Plain) (value : Record)
        → TakesPart order position prev parts id v → MayStep v (give_position_back value)
        → HoldsWith order (value_behind v (give_position_back value) position) prev parts id v
        (view_behind v (give_position_back value) position home) }
    ensures stay { (order : List Entry) (position prev : ℕ) (parts : List Reserving) (id : ℕ)
        (v : View) (home : Option Plain)
        → TakesPart order position prev parts id v → MayStep v stay
        → HoldsWith order (value_behind v stay position) prev parts id v
        (view_behind v stay position home) }
{}

/// An entry that is reserved is the order's last, and its pass's: other passes keep theirs, and
/// where one stopped before, a front of the order still ends.
pub fn orders_grow_by_one_entry()
    ensures store_position { (order : List Entry) (position prev : ℕ) (parts : List Reserving)
        (id : ℕ) (v : View) (home : Option Plain) (locks : List ℕ) (value : Record)
        → TakesPart order position prev parts id v → MayStep v (store_position locks value)
        → HoldsWith
        (order ++ entry_reserved (v.reserving).number (place_at v (v.reserving).place) value ∷ [])
        (value_behind v (store_position locks value) position) prev parts id v
        (view_behind v (store_position locks value) position home) }
{}

/// What a pass has seen is reserved: the position without its lock bit, and the byte position of an
/// address up to which the log is durable, loaded or stored, where that is not above the reserved
/// end.
pub fn seen_positions_are_reserved()
    ensures load_position { (order : List Entry) (position prev : ℕ) (parts : List Reserving)
        (id : ℕ) (v : View) (home : Option Plain)
        → TakesPart order position prev parts id v
        → HoldsWith order position prev parts id v
        (view_behind v load_position position home) }
    ensures load_flushed { (order : List Entry) (position prev : ℕ) (parts : List Reserving)
        (id : ℕ) (v : View) (home : Option Plain) (met : ℕ)
        → TakesPart order position prev parts id v
        → met ≤ end_form (v.opening).setup (order_end v.opening order)
        → HoldsWith order position prev parts id v (view_behind v load_flushed met home) }
{}

/// Passes that are split off, taken in or left behind share the order as before: a number is one
/// pass's, or one pass's to give away, or ended with all that it reserved.
pub fn passes_share_one_order()
    ensures split { (order : List Entry) (position prev : ℕ) (parts : List Reserving) (id : ℕ)
        (v : View) → TakesPart order position prev parts id v
        → (v.reserving).spare < (v.reserving).spare_end
        → OrderHolds v.opening order position prev
        (set parts id (after_split v).reserving ++ (split_off v).reserving ∷ []) }
    ensures join { (order : List Entry) (position prev : ℕ) (parts : List Reserving) (id : ℕ)
        (v : View) (other : ℕ) (w : View) → TakesPart order position prev parts id v
        → HasAt parts other w.reserving → (w.reserving).live ≡ true → id ≢ other
        → (w.reserving).place ≡ Free
        → OrderHolds v.opening order position prev
        (set (set parts other (spent w).reserving) id (after_join v w).reserving) }
    ensures give_up { (order : List Entry) (position prev : ℕ) (parts : List Reserving) (id : ℕ)
        (v : View) → TakesPart order position prev parts id v
        → OrderHolds v.opening order position prev
        (set parts id (without_work v).reserving ++ (orphan_of v).reserving ∷ []) }
{}

/// What the passes reserved fixes the order: two orders without a gap from the place on, each entry
/// some pass's, are one where the entries of each pass agree.
pub fn passes_fix_the_order()
    ensures one_order { (opening : Opening) (es fs : List Entry) → GoesOnAtPlace opening es
        → GoesOnAtPlace opening fs → All (λ e. IsSome e.pass) es → All (λ e. IsSome e.pass) fs
        → ((n : ℕ) → entries_under n es ≡ entries_under n fs) → es ≡ fs }
{}

/// A sound state shows the reserved order as its users know it: the numbers of the passes (a pass's
/// own, those that it may give away, those of passes that it took in) all differ and are below how
/// many there may be; the order ends at the position word less its lock bit, and no pass has seen
/// more; each position at which a log was full is where a front of the order ends that holds what
/// that log held by then; the word of the last start is that of the order's last entry, but while
/// the position is locked the view that locked it says whether the next start is stored; and the
/// order holds the logs of the live passes and of the passes that they took in, and nothing else.
pub fn sound_orders_are_shared()
    ensures shared { (first : DiskState) (opening : Opening) (words : List ℕ) (home : Option Plain)
        (views : List View) (s : IsSound first opening words home views)
        → OrderIsShared opening s.order words views }
{}
