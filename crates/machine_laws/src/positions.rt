//! Laws of the machine's steps on the written and flushed positions (PostgreSQL's
//! xlog.c, LogwrtResult), each proved by a function that does nothing. In each the view has its
//! part in them; what the step loads and stores is told by the machine itself (`value_behind`,
//! `view_behind`, `home_behind`). Both words are stored with the writer in hand and never fall: so
//! what a pass has met is a lower bound for good, and what is known to be copied stays so.

ghost use Rattle.std.specs.Prelude.{◌≡◌, ◌≢◌, ℕ, ◌≤◌, true, List, [], ◌∷◌, ◌++◌, map, set};
ghost use mathlib.Core.Option.{Option};
ghost use Rattle.segment_disk.specs.Tape.{DiskState, create_call, sync_call, write_call};
ghost use Rattle.wal_types.specs.declared.record.Record.{Record};
ghost use Rattle.machine_state.specs.Words.{end_form, order_end};
ghost use Rattle.machine_state.specs.Views.{HasAt, Plain, Reserving, Receipts, View, flight_of, receipts_of, watching_of, working_of, writing_of};
ghost use Rattle.machine_state.specs.Ordered.{OrderHolds};
ghost use Rattle.machine_state.specs.Locked.{AreHeld};
ghost use Rattle.machine_state.specs.Watched.{WatchHolds};
ghost use Rattle.machine_state.specs.Durable.{DurabilityHolds};
ghost use Rattle.machine_state.specs.Sound.{IsSound};
ghost use Rattle.machine_state.specs.Moves.{CallOutcome, entry_reserved, after_split, split_off, after_join, spent, without_work, orphan_of, after_create, after_write, after_sync};
ghost use Rattle.machine_state.specs.Failed.{KnowsOfFault};
ghost use Rattle.machine_state.specs.Steps.{MayStep, place_at, value_behind, view_behind, home_behind};
ghost use Rattle.machine_state.specs.Steps.{take_write_turn, release_write_turn, slot_out, slot_in};
ghost use Rattle.machine_state.specs.Steps.{load_ring_word, load_written, load_flushed, load_moment, load_down};
ghost use Rattle.machine_state.specs.Steps.{store_position, store_ring_word, release, store_written, store_moment};
ghost use Rattle.machine_state.specs.Steps.{store_flushed, set_down, create, write, sync};
ghost use Rattle.machine_laws.specs.PositionParts.{Positions, positions_in, HasPositions, HoldAmong, HoldBehind};

/// A view that takes or gives the turn to write, or loads a word, knows no more of positions than
/// the words say.
pub fn what_is_met_is_not_above_the_words()
    ensures take_write_turn { (p : Positions) (id : ℕ) (v : View) → HasPositions p id v
        → HoldBehind p id v (view_behind v take_write_turn p.turn p.home) }
    ensures release_write_turn { (p : Positions) (id : ℕ) (v : View) → HasPositions p id v
        → HoldBehind p id v (view_behind v release_write_turn p.turn p.home) }
    ensures load_ring_word { (p : Positions) (id : ℕ) (v : View) → HasPositions p id v
        → (k met : ℕ) → HoldBehind p id v (view_behind v (load_ring_word k) met p.home) }
    ensures load_written { (p : Positions) (id : ℕ) (v : View) → HasPositions p id v
        → HoldBehind p id v (view_behind v load_written p.written p.home) }
    ensures load_flushed { (p : Positions) (id : ℕ) (v : View) → HasPositions p id v
        → HoldBehind p id v (view_behind v load_flushed p.flushed p.home) }
    ensures load_moment { (p : Positions) (id : ℕ) (v : View) → HasPositions p id v
        → (met : ℕ) → HoldBehind p id v (view_behind v load_moment met p.home) }
    ensures load_down { (p : Positions) (id : ℕ) (v : View) → HasPositions p id v
        → (met : ℕ) → HoldBehind p id v (view_behind v load_down met p.home) }
{}

/// What is copied below an address stays copied, as copies go on and end; and a new entry begins
/// above all that is written or known to be copied.
pub fn copies_only_go_on()
    ensures store_ring_word { (p : Positions) (id : ℕ) (v : View) → HasPositions p id v
        → (met : ℕ) → HoldBehind p id v (view_behind v store_ring_word met p.home) }
    ensures release { (p : Positions) (id : ℕ) (v : View) → HasPositions p id v
        → (lock met : ℕ) → HoldBehind p id v (view_behind v (release lock) met p.home) }
    ensures store_position { (p : Positions) (id : ℕ) (v : View) → HasPositions p id v
        → (position prev : ℕ) (reservings : List Reserving) (locks : List ℕ) (value : Record)
        → OrderHolds v.opening p.order position prev reservings
        → HasAt reservings id v.reserving → (v.reserving).live ≡ true
        → MayStep v (store_position locks value)
        → HoldBehind (record p {
          order = p.order
              ++ entry_reserved (v.reserving).number (place_at v (v.reserving).place) value ∷ [];
        }) id v (view_behind v (store_position locks value) position p.home) }
{}

/// The words of the positions only rise, and not above the writer's own; the flushed one not above
/// the written one, so what is durable is reserved.
pub fn positions_only_rise()
    ensures written_rises { (p : Positions) (id : ℕ) (v : View) → HasPositions p id v
        → MayStep v store_written → p.written ≤ value_behind v store_written p.written }
    ensures flushed_rises { (p : Positions) (id : ℕ) (v : View) → HasPositions p id v
        → MayStep v store_flushed → p.flushed ≤ value_behind v store_flushed p.flushed }
    ensures store_written { (p : Positions) (id : ℕ) (v : View) → HasPositions p id v
        → MayStep v store_written
        → HoldBehind (record p { written = value_behind v store_written p.written }) id v
        (view_behind v store_written p.written p.home) }
    ensures store_moment { (p : Positions) (id : ℕ) (v : View) → HasPositions p id v
        → (met : ℕ) → HoldBehind p id v (view_behind v store_moment met p.home) }
    ensures store_flushed { (p : Positions) (id : ℕ) (v : View) → HasPositions p id v
        → MayStep v store_flushed
        → HoldBehind (record p { flushed = value_behind v store_flushed p.flushed }) id v
        (view_behind v store_flushed p.flushed p.home) }
    ensures set_down { (p : Positions) (id : ℕ) (v : View) → HasPositions p id v
        → MayStep v set_down
        → HoldBehind (record p { down = value_behind v set_down p.down }) id v
        (view_behind v set_down p.down p.home) }
    ensures reserved { (p : Positions) (id : ℕ) (v : View) → HasPositions p id v
        → p.flushed ≤ end_form (v.opening).setup (order_end v.opening p.order) }
{}

/// With the writer out, its holder knows what a watcher knows that visited each lock; and it comes
/// home with the written word at its own position, or with the down word set.
pub fn the_writer_goes_out_and_home()
    ensures slot_out { (p : Positions) (id : ℕ) (v : View) → HasPositions p id v
        → (lock : ℕ → ℕ) (views : List View) → p.flights ≡ map flight_of views
        → HasAt views id v → AreHeld lock (map working_of views)
        → WatchHolds ((v.opening).setup).seg_size (end_form (v.opening).setup
        (order_end v.opening p.order)) (map working_of views) (map watching_of views)
        → MayStep v slot_out
        → HoldBehind (record p { home = home_behind v slot_out p.home }) id v
        (view_behind v slot_out p.turn p.home) }
    ensures slot_in { (p : Positions) (id : ℕ) (v : View) → HasPositions p id v
        → (met : ℕ) → (KnowsOfFault v → p.down ≢ 0)
        → MayStep v slot_in
        → HoldBehind (record p { home = home_behind v slot_in p.home }) id v
        (view_behind v slot_in met p.home) }
{}

/// A call of the device, however it ends, leaves the log readable up to the writer's position,
/// which only a write that is done raises.
pub fn calls_leave_the_log_readable()
    ensures create { (p : Positions) (id : ℕ) (v : View) → HasPositions p id v
        → (moment : ℕ) (tolds : List Receipts)
        → DurabilityHolds p.first v.opening p.order p.flushed moment p.down p.home p.writer tolds
        → (met segment : ℕ) (outcome : CallOutcome) → MayStep v (create segment outcome)
        → HoldBehind (record p {
          writer = after_create segment
              (create_call ((v.opening).setup).seg_size segment) outcome p.writer;
        }) id v (view_behind v (create segment outcome) met p.home) }
    ensures write { (p : Positions) (id : ℕ) (v : View) → HasPositions p id v
        → (moment : ℕ) (tolds : List Receipts)
        → DurabilityHolds p.first v.opening p.order p.flushed moment p.down p.home p.writer tolds
        → (met segment page upto : ℕ) (bytes : List ℕ) (outcome : CallOutcome)
        → HasAt tolds id (receipts_of v) → MayStep v (write segment page upto bytes outcome)
        → HoldBehind (record p {
          writer = after_write segment upto
              (write_call ((v.opening).setup).seg_size segment page bytes) outcome p.writer;
        }) id v (view_behind v (write segment page upto bytes outcome) met p.home) }
    ensures sync { (p : Positions) (id : ℕ) (v : View) → HasPositions p id v
        → (moment : ℕ) (tolds : List Receipts)
        → DurabilityHolds p.first v.opening p.order p.flushed moment p.down p.home p.writer tolds
        → (met segment : ℕ) (outcome : CallOutcome) → MayStep v (sync segment outcome)
        → HoldBehind (record p {
          writer = after_sync (sync_call ((v.opening).setup).seg_size segment) outcome
              p.writer;
        }) id v (view_behind v (sync segment outcome) met p.home) }
{}

/// Passes that are split off or taken in copy nothing, and one that gives up leaves its copy with a
/// view of its own.
pub fn passes_leave_the_positions()
    ensures split { (p : Positions) (id : ℕ) (v : View) → HasPositions p id v
        → HoldAmong p v
        (set p.flights id (flight_of (after_split v)) ++ flight_of (split_off v) ∷ [])
        (set p.parts id (writing_of (after_split v)) ++ writing_of (split_off v) ∷ []) }
    ensures join { (p : Positions) (id : ℕ) (v : View) → HasPositions p id v
        → (other : ℕ) (w : View) → HoldAmong p v
        (set (set p.flights other (flight_of (spent w))) id (flight_of (after_join v w)))
        (set (set p.parts other (writing_of (spent w))) id (writing_of (after_join v w))) }
    ensures give_up { (p : Positions) (id : ℕ) (v : View) → HasPositions p id v → HoldAmong p v
        (set p.flights id (flight_of (without_work v)) ++ flight_of (orphan_of v) ∷ [])
        (set p.parts id (writing_of (without_work v)) ++ writing_of (orphan_of v) ∷ []) }
{}

/// Each view of a sound machine has its part in the positions, and what holds behind a step of one
/// view holds of the parts of all views.
pub fn sound_machines_have_positions()
    ensures has_positions { (first : DiskState) (words : List ℕ) (home : Option Plain)
        (views : List View) (id : ℕ)
        (v : View) (s : IsSound first v.opening words home views) → HasAt views id v
        → HasPositions (positions_in v.opening words home views s) id v }
    ensures holds_of_all { (p : Positions) (views : List View) (id : ℕ) (v w : View)
        → p.flights ≡ map flight_of views → p.parts ≡ map writing_of views
        → HoldBehind p id v w
        → HoldAmong p v (map flight_of (set views id w)) (map writing_of (set views id w)) }
{}
