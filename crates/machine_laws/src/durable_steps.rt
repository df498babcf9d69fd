//! Steps that change no entry and make no call, each law proved by a function that does nothing
//! (PostgreSQL's xlog.c, XLogFlush). The moment is stored behind a sync, and the flushed address
//! behind the moment, by who has the writer in hand. A pass that loads the flushed address and then
//! the moment is promised what it met, and one that stores both what it stored: whatever is stored
//! meanwhile, the moment is not below the one from which on all below the address is durable.

ghost use Rattle.std.specs.Prelude.{◌≡◌, ◌≢◌, ℕ, ◌≤◌, List, [], ◌∷◌, ◌++◌, set};
ghost use mathlib.Core.Option.{Option};
ghost use Rattle.wal_page.specs.Order.{Entry};
ghost use Rattle.segment_disk.specs.Tape.{DiskState};
ghost use Rattle.machine_state.specs.Words.{Opening};
ghost use Rattle.machine_state.specs.Views.{HasAt, Flight, Hold, Lent, Out, Plain, Receipts, View, Writing, receipts_of, writer_of};
ghost use Rattle.machine_state.specs.Locked.{IsWriteTurn};
ghost use Rattle.machine_state.specs.Positioned.{PositionsHold};
ghost use Rattle.machine_state.specs.Durable.{DurabilityHolds, IsStaged};
ghost use Rattle.machine_state.specs.Sound.{IsSetup};
ghost use Rattle.machine_state.specs.Moves.{after_join, after_split, orphan_of, split_off, spent, without_work};
ghost use Rattle.machine_state.specs.Steps.{MayStep, home_behind, value_behind, view_behind, load_down, load_flushed, load_moment, load_ring_word, load_written, release_write_turn, set_down, slot_in, slot_out, store_flushed, store_moment, store_written, take_write_turn};

/// What a pass loads: the positions, a promise of the moment met, the down value, a word of the
/// ring, which is the log's as far as all is copied. What else leaves its entries and its writing,
/// leaves this.
pub fn loads_keep_durability()
    ensures same { (first : DiskState) (o : Opening) (order : List Entry) (flushed moment down : ℕ)
        (home : Option Plain) (writer : Plain) (parts : List Receipts)
        (id : ℕ) (v w : View)
        → DurabilityHolds first o order flushed moment down home writer parts
        → HasAt parts id (receipts_of v)
        → receipts_of w ≡ receipts_of v
        → DurabilityHolds first o order flushed moment down home writer
        (set parts id (receipts_of w)) }
    ensures load_written { (first : DiskState) (o : Opening) (order : List Entry)
        (flushed moment down : ℕ)
        (home : Option Plain) (writer : Plain) (parts : List Receipts)
        (id met : ℕ) (v : View)
        → DurabilityHolds first o order flushed moment down home writer parts
        → HasAt parts id (receipts_of v)
        → DurabilityHolds first o order flushed moment down home writer
        (set parts id (receipts_of (view_behind v load_written met home))) }
    ensures load_flushed { (first : DiskState) (o : Opening) (order : List Entry)
        (flushed moment down : ℕ)
        (home : Option Plain) (writer : Plain) (parts : List Receipts)
        (id met : ℕ) (v : View)
        → DurabilityHolds first o order flushed moment down home writer parts
        → HasAt parts id (receipts_of v)
        → DurabilityHolds first o order flushed moment down home writer
        (set parts id (receipts_of (view_behind v load_flushed met home))) }
    ensures load_moment { (first : DiskState) (o : Opening) (order : List Entry)
        (flushed moment down : ℕ)
        (home : Option Plain) (writer : Plain) (parts : List Receipts)
        (id : ℕ) (v : View)
        → DurabilityHolds first o order flushed moment down home writer parts
        → HasAt parts id (receipts_of v)
        → (v.writing).flushed ≤ flushed
        → DurabilityHolds first o order flushed moment down home writer
        (set parts id (receipts_of (view_behind v load_moment moment home))) }
    ensures load_down { (first : DiskState) (o : Opening) (order : List Entry)
        (flushed moment down : ℕ)
        (home : Option Plain) (writer : Plain) (parts : List Receipts)
        (id : ℕ) (v : View)
        → DurabilityHolds first o order flushed moment down home writer parts
        → HasAt parts id (receipts_of v)
        → DurabilityHolds first o order flushed moment down home writer
        (set parts id (receipts_of (view_behind v load_down down home))) }
    ensures load_ring_word { (first : DiskState) (o : Opening) (order : List Entry)
        (flushed moment down : ℕ)
        (home : Option Plain) (writer : Plain) (parts : List Receipts)
        (id k met : ℕ) (v : View)
        → DurabilityHolds first o order flushed moment down home writer parts
        → HasAt parts id (receipts_of v)
        → ((l : Lent) → (v.writing).hold ≡ Out l → IsStaged o order l.known (k, met))
        → DurabilityHolds first o order flushed moment down home writer
        (set parts id (receipts_of (view_behind v (load_ring_word k) met home))) }
{}

/// The turn to write is taken and let go, the writer taken in hand and put back.
pub fn turns_keep_durability()
    ensures take { (first : DiskState) (o : Opening) (order : List Entry) (flushed moment down : ℕ)
        (home : Option Plain) (writer : Plain) (parts : List Receipts)
        (id met : ℕ) (v : View)
        → DurabilityHolds first o order flushed moment down home writer parts
        → HasAt parts id (receipts_of v)
        → DurabilityHolds first o order flushed moment down home writer
        (set parts id (receipts_of (view_behind v take_write_turn met home))) }
    ensures slot_out { (first : DiskState) (o : Opening) (order : List Entry)
        (flushed moment down : ℕ)
        (home : Option Plain) (writer : Plain) (parts : List Receipts)
        (id met : ℕ) (v : View) (turn : ℕ) (writers : List (ℕ × Hold))
        → DurabilityHolds first o order flushed moment down home writer parts
        → HasAt parts id (receipts_of v)
        → IsWriteTurn turn home writer writers → HasAt writers id (writer_of v)
        → MayStep v slot_out
        → DurabilityHolds first o order flushed moment down (home_behind v slot_out home) writer
        (set parts id (receipts_of (view_behind v slot_out met home))) }
    ensures slot_in { (first : DiskState) (o : Opening) (order : List Entry)
        (flushed moment down : ℕ)
        (home : Option Plain) (writer : Plain) (parts : List Receipts)
        (id met : ℕ) (v : View) (turn : ℕ) (writers : List (ℕ × Hold))
        → DurabilityHolds first o order flushed moment down home writer parts
        → HasAt parts id (receipts_of v)
        → IsWriteTurn turn home writer writers → HasAt writers id (writer_of v)
        → MayStep v slot_in
        → DurabilityHolds first o order flushed moment down (home_behind v slot_in home) writer
        (set parts id (receipts_of (view_behind v slot_in met home))) }
    ensures release { (first : DiskState) (o : Opening) (order : List Entry)
        (flushed moment down : ℕ)
        (home : Option Plain) (writer : Plain) (parts : List Receipts)
        (id met : ℕ) (v : View)
        → DurabilityHolds first o order flushed moment down home writer parts
        → HasAt parts id (receipts_of v)
        → DurabilityHolds first o order flushed moment down home writer
        (set parts id (receipts_of (view_behind v release_write_turn met home))) }
{}

/// What the writer's holder stores: how far it has written, the moment from which all of that is
/// durable, how far it is durable, of which it is promised that it is so from that moment on, that
/// the disk has failed. No other view has the writer in hand then.
pub fn stores_keep_durability()
    ensures written { (first : DiskState) (o : Opening) (order : List Entry)
        (flushed moment down : ℕ)
        (home : Option Plain) (writer : Plain) (parts : List Receipts)
        (id met : ℕ) (v : View)
        → DurabilityHolds first o order flushed moment down home writer parts
        → HasAt parts id (receipts_of v)
        → DurabilityHolds first o order flushed moment down home writer
        (set parts id (receipts_of (view_behind v store_written met home))) }
    ensures moment { (first : DiskState) (o : Opening) (order : List Entry)
        (flushed moment down : ℕ)
        (home : Option Plain) (writer : Plain) (parts : List Receipts)
        (id met : ℕ) (v : View) (turn : ℕ) (writers : List (ℕ × Hold))
        → DurabilityHolds first o order flushed moment down home writer parts
        → HasAt parts id (receipts_of v)
        → IsWriteTurn turn home writer writers → HasAt writers id (writer_of v)
        → MayStep v store_moment
        → DurabilityHolds first o order flushed (value_behind v store_moment met) down home writer
        (set parts id (receipts_of (view_behind v store_moment met home))) }
    ensures flushed { (first : DiskState) (o : Opening) (order : List Entry)
        (flushed moment down : ℕ)
        (home : Option Plain) (writer : Plain) (parts : List Receipts)
        (id met : ℕ) (v : View) (turn : ℕ) (writers : List (ℕ × Hold))
        (written : ℕ) (flights : List Flight) (writings : List Writing)
        → DurabilityHolds first o order flushed moment down home writer parts
        → HasAt parts id (receipts_of v) → IsSetup o.setup
        → IsWriteTurn turn home writer writers → HasAt writers id (writer_of v)
        → PositionsHold first o order written flushed down home writer flights writings
        → MayStep v store_flushed
        → DurabilityHolds first o order (value_behind v store_flushed met) moment down home writer
        (set parts id (receipts_of (view_behind v store_flushed met home))) }
    ensures down { (first : DiskState) (o : Opening) (order : List Entry) (flushed moment down : ℕ)
        (home : Option Plain) (writer : Plain) (parts : List Receipts)
        (id met : ℕ) (v : View) (turn : ℕ) (writers : List (ℕ × Hold))
        → DurabilityHolds first o order flushed moment down home writer parts
        → HasAt parts id (receipts_of v)
        → IsWriteTurn turn home writer writers → HasAt writers id (writer_of v)
        → ((j : ℕ) (x : Receipts) (l : Lent) → HasAt parts j x → (x.writing).hold ≡ Out l → j ≡ id)
        → MayStep v set_down
        → DurabilityHolds first o order flushed moment (value_behind v set_down met) home writer
        (set parts id (receipts_of (view_behind v set_down met home))) }
{}

/// Passes are split off, taken in, and give up.
pub fn passes_keep_durability()
    ensures split { (first : DiskState) (o : Opening) (order : List Entry) (flushed moment down : ℕ)
        (home : Option Plain) (writer : Plain) (parts : List Receipts)
        (id : ℕ) (v : View)
        → DurabilityHolds first o order flushed moment down home writer parts
        → HasAt parts id (receipts_of v)
        → DurabilityHolds first o order flushed moment down home writer
        (set parts id (receipts_of (after_split v)) ++ receipts_of (split_off v) ∷ []) }
    ensures join { (first : DiskState) (o : Opening) (order : List Entry) (flushed moment down : ℕ)
        (home : Option Plain) (writer : Plain) (parts : List Receipts)
        (id other : ℕ) (v w : View)
        → DurabilityHolds first o order flushed moment down home writer parts
        → HasAt parts id (receipts_of v)
        → HasAt parts other (receipts_of w) → id ≢ other
        → DurabilityHolds first o order flushed moment down home writer
        (set (set parts other (receipts_of (spent w))) id (receipts_of (after_join v w))) }
    ensures give_up { (first : DiskState) (o : Opening) (order : List Entry)
        (flushed moment down : ℕ)
        (home : Option Plain) (writer : Plain) (parts : List Receipts)
        (id : ℕ) (v : View)
        → DurabilityHolds first o order flushed moment down home writer parts
        → HasAt parts id (receipts_of v)
        → DurabilityHolds first o order flushed moment down home writer
        (set parts id (receipts_of (without_work v)) ++ receipts_of (orphan_of v) ∷ []) }
{}
