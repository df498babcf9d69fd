//! The log's words in memory, through each kind of step that changes what is said of them; and what
//! a load of one of the ring's words meets (PostgreSQL's xlog.c, CopyXLogRecordToWAL, XLogWrite).
//! Each word is stored by the one copy that owns it, so copies under different locks do not meet; a
//! load for a write, below what is known to be copied, meets the log's word and no older one.

ghost use Rattle.std.specs.Prelude.{◌≡◌, ◌≢◌, ℕ, ◌+◌, ◌/◌, ◌<◌, ◌≤◌, Contains, List, [], ◌∷◌, ◌++◌, set};
ghost use mathlib.Core.Option.{Option};
ghost use Rattle.byte_position.specs.Geometry.{IsSegmentSize};
ghost use Rattle.wal_page.specs.Order.{Entry};
ghost use Rattle.wal_page.specs.LogPlace.{IsPlace};
ghost use Rattle.wal_page.specs.EntryWords.{address_of_word, words_owned};
ghost use Rattle.segment_disk.specs.Tape.{DiskState};
ghost use Rattle.machine_state.specs.Words.{Opening, order_end, last_start, GoesOnAtPlace};
ghost use Rattle.machine_state.specs.Views.{HasAt, Copy, Flight, Landed, Copying, Stage, Plain, Lent, Out, Writing};
ghost use Rattle.machine_state.specs.Moves.{landed, one_more};
ghost use Rattle.machine_state.specs.Steps.{CopiesOn, IsToBeWritten, number_of_next, next_word, ring_place};
ghost use Rattle.machine_state.specs.Ringed.{RingHolds, log_word_of};
ghost use Rattle.machine_state.specs.Paged.{PagesHold};
ghost use Rattle.machine_state.specs.Positioned.{PositionsHold};
ghost use Rattle.machine_state.specs.Durable.{IsStaged};
ghost use Rattle.machine_laws.specs.WordsPut.{IsPut};

/// An entry is reserved, and its copy begins; each of its words is stored; its locks are released
/// where all of them are copied.
pub fn copies_keep_the_ring()
    ensures begun { (opening : Opening) (order : List Entry) (reach : ℕ) (memory : ℕ → ℕ)
        (flights : List Flight) (id : ℕ) (e : Entry) (prev : ℕ) (locks : List ℕ)
        → IsSegmentSize opening.setup.seg_size → GoesOnAtPlace opening order
        → RingHolds opening order reach memory flights → HasAt flights id Landed
        → e.start ≡ order_end opening order
        → prev ≡ last_start opening order
        → RingHolds opening (order ++ e ∷ []) reach memory
        (set flights id (Copying (record { entry = e; prev = prev; locks = locks; copied = 0 }))) }
    ensures stored { (opening : Opening) (order : List Entry) (reach : ℕ)
        (memory memory_behind : ℕ → ℕ) (flights : List Flight) (stage : Stage)
        (initialised written : ℕ) (ends ring : ℕ → ℕ)
        (confirmed : List ℕ) (id met : ℕ) (c : Copy)
        → IsSegmentSize opening.setup.seg_size
        → IsPlace opening.setup.seg_size opening.place → GoesOnAtPlace opening order
        → RingHolds opening order reach memory flights
        → PagesHold opening.setup.ring_pages reach stage initialised written ends ring memory
        confirmed
        → HasAt flights id (Copying c) → HasAt confirmed id met → CopiesOn opening.setup met c
        → IsPut memory (number_of_next opening.setup (Copying c)) (next_word opening.setup c)
        memory_behind
        → RingHolds opening order reach memory_behind (set flights id (one_more (Copying c))) }
    ensures released { (opening : Opening) (order : List Entry) (reach : ℕ) (memory : ℕ → ℕ)
        (flights : List Flight) (id lock : ℕ) (flight : Flight)
        → IsSegmentSize opening.setup.seg_size
        → IsPlace opening.setup.seg_size opening.place → GoesOnAtPlace opening order
        → RingHolds opening order reach memory flights → HasAt flights id flight
        → ((c : Copy) → flight ≡ Copying c → Contains c.locks lock
        → c.copied ≡ words_owned opening.setup.seg_size c.entry)
        → RingHolds opening order reach memory (set flights id (landed lock flight)) }
{}

/// In memory each word of an entry in flight that counts as copied is the log's, and each word of
/// an entry of the order that is in no flight.
pub fn copied_words_are_the_logs()
    ensures in_flight { (opening : Opening) (order : List Entry) (reach : ℕ) (memory : ℕ → ℕ)
        (flights : List Flight) (id n : ℕ) (c : Copy)
        → IsSegmentSize opening.setup.seg_size
        → IsPlace opening.setup.seg_size opening.place → GoesOnAtPlace opening order
        → RingHolds opening order reach memory flights → HasAt flights id (Copying c)
        → n < c.copied → memory (address_of_word opening.setup.seg_size c.entry n / 8)
        ≡ log_word_of opening order (address_of_word opening.setup.seg_size c.entry n) }
    ensures in_no_flight { (opening : Opening) (order : List Entry) (reach : ℕ) (memory : ℕ → ℕ)
        (flights : List Flight) (front back : List Entry) (e : Entry) (n : ℕ)
        → IsSegmentSize opening.setup.seg_size
        → IsPlace opening.setup.seg_size opening.place → GoesOnAtPlace opening order
        → RingHolds opening order reach memory flights → order ≡ front ++ e ∷ back
        → ((id : ℕ) (c : Copy) → HasAt flights id (Copying c) → (c.entry).start ≢ e.start)
        → n < words_owned opening.setup.seg_size e
        → memory (address_of_word opening.setup.seg_size e n / 8)
        ≡ log_word_of opening order (address_of_word opening.setup.seg_size e n) }
{}

/// Pages more are mapped.
pub fn mapping_keeps_the_ring()
    ensures { (opening : Opening) (order : List Entry) (reach further : ℕ) (memory : ℕ → ℕ)
        (flights : List Flight)
        → RingHolds opening order reach memory flights → reach ≤ further
        → RingHolds opening order further memory flights }
{}

/// A pass comes to be, as one is split off or gives up its copy, and one goes, as it is taken in;
/// and a pass may change in all but its copy.
pub fn passes_keep_the_ring()
    ensures stays { (opening : Opening) (order : List Entry) (reach : ℕ) (memory : ℕ → ℕ)
        (flights : List Flight) (id : ℕ) (flight : Flight)
        → RingHolds opening order reach memory flights → HasAt flights id flight
        → RingHolds opening order reach memory (set flights id flight) }
    ensures split_off { (opening : Opening) (order : List Entry) (reach : ℕ) (memory : ℕ → ℕ)
        (flights : List Flight) (id : ℕ) (flight : Flight)
        → RingHolds opening order reach memory flights → HasAt flights id flight
        → RingHolds opening order reach memory (set flights id flight ++ Landed ∷ []) }
    ensures taken_in { (opening : Opening) (order : List Entry) (reach : ℕ) (memory : ℕ → ℕ)
        (flights : List Flight) (id other : ℕ) (flight : Flight)
        → RingHolds opening order reach memory flights → HasAt flights id flight
        → HasAt flights other Landed
        → RingHolds opening order reach memory (set (set flights other Landed) id flight) }
    ensures given_up { (opening : Opening) (order : List Entry) (reach : ℕ) (memory : ℕ → ℕ)
        (flights : List Flight) (id : ℕ) (flight : Flight)
        → RingHolds opening order reach memory flights → HasAt flights id flight
        → RingHolds opening order reach memory (set flights id Landed ++ flight ∷ []) }
{}

/// What the writer's holder loads from the ring for a write is 0 or the log's word, and the log's
/// where the word lies in what was known to be copied.
pub fn loaded_words_are_the_logs()
    ensures { (first : DiskState) (o : Opening) (order : List Entry) (reach : ℕ) (memory : ℕ → ℕ)
        (flights : List Flight) (stage : Stage) (initialised written flushed down : ℕ)
        (ends ring : ℕ → ℕ) (confirmed : List ℕ) (home : Option Plain) (writer : Plain)
        (parts : List Writing) (id k : ℕ) (x : Writing) (l : Lent)
        → IsSegmentSize (o.setup).seg_size → IsPlace (o.setup).seg_size o.place
        → GoesOnAtPlace o order
        → RingHolds o order reach memory flights
        → PagesHold (o.setup).ring_pages reach stage initialised written ends ring memory
        confirmed
        → PositionsHold first o order written flushed down home writer flights parts
        → HasAt parts id x → x.hold ≡ Out l → l.writer ≡ writer → IsToBeWritten k l
        → IsStaged o order l.known (k, ring (ring_place o.setup k)) }
{}
