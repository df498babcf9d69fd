//! An entry joins the order, a law proved by a function that does nothing. It does by the store of
//! the position (word 0), by who has that locked (PostgreSQL's xlog.c, ReserveXLogInsertLocation).
//! The new entry lies behind all that is written or was promised: so no promise speaks of it, and
//! none that was made before is touched.

ghost use Rattle.std.specs.Prelude.{◌≡◌, ℕ, List, [], ◌∷◌, ◌++◌, map, set};
ghost use mathlib.Core.Option.{Option};
ghost use Rattle.wal_types.specs.declared.record.Record.{Record};
ghost use Rattle.wal_page.specs.Order.{Entry};
ghost use Rattle.segment_disk.specs.Tape.{DiskState};
ghost use Rattle.machine_state.specs.Words.{Opening, order_end, GoesOnAtPlace};
ghost use Rattle.machine_state.specs.Views.{HasAt, Flight, Plain, Stored, Receipts, View, Writing, receipts_of, writing_of};
ghost use Rattle.machine_state.specs.Ordered.{AtPlace};
ghost use Rattle.machine_state.specs.Positioned.{PositionsHold};
ghost use Rattle.machine_state.specs.Durable.{DurabilityHolds};
ghost use Rattle.machine_state.specs.Moves.{entry_reserved};
ghost use Rattle.machine_state.specs.Sound.{IsSetup};
ghost use Rattle.machine_state.specs.Steps.{store_position, view_behind};

/// A pass that has the position locked reserves an entry: what was lawful, durable or promised
/// stays so, and nothing that was put before has a word of the entry.
pub fn reserving_keeps_durability()
    ensures store_position { (first : DiskState) (o : Opening) (order : List Entry)
        (flushed moment down : ℕ)
        (home : Option Plain) (writer : Plain) (views : List View)
        (id met : ℕ) (locks : List ℕ) (value : Record) (v : View) (at prev : ℕ)
        (last word locked holder written : ℕ) (flights : List Flight)
        → DurabilityHolds first o order flushed moment down home writer (map receipts_of views)
        → HasAt views id v → IsSetup o.setup → GoesOnAtPlace o order
        → AtPlace (o.setup).seg_size (order_end o order) last word
        locked holder id (v.reserving).place
        → PositionsHold first o order written flushed down home writer flights
        (map writing_of views)
        → (v.reserving).place ≡ Stored at prev
        → DurabilityHolds first o (order ++ entry_reserved (v.reserving).number at value ∷ [])
        flushed moment
        down home writer
        (set (map receipts_of views) id
        (receipts_of (view_behind v (store_position locks value) met home))) }
{}
