//! What the machine promises of segment switches, each proved by a function that does nothing
//! (PostgreSQL's xlog.c: ReserveXLogSwitch, CopyXLogRecordToWAL).

ghost use Rattle.std.specs.Prelude.{◌≡◌, ℕ, ◌*◌, ◌/◌, ◌<◌, Contains, IsTrue, List};
ghost use mathlib.Core.Option.{Option};
ghost use Rattle.segment_disk.specs.Tape.{DiskState};
ghost use Rattle.wal_types.specs.declared.record.Record.{Record};
ghost use Rattle.wal_spelling.specs.Record.{is_switch, switch_record};
ghost use Rattle.wal_page.specs.EntryWords.{words_owned};
ghost use Rattle.machine_state.specs.Words.{Opening, word_of_ring};
ghost use Rattle.machine_state.specs.Views.{Copy, Copying, HasAt, Landed, Plain, View};
ghost use Rattle.machine_state.specs.Steps.{MayStep, ring_place, store_position};
ghost use Rattle.machine_state.specs.Sound.{IsSound};
ghost use Rattle.machine_state.specs.Shown.{IsPresent};
ghost use Rattle.machine_laws.specs.SoundLocks.{HoldsLock};
ghost use Rattle.machine_laws.specs.Switches.{CopiesBehindAllLocks, IsBehindSwitch};

/// A switch is reserved by a pass that holds all eight insertion locks, and stands under each of
/// them; so nothing is in flight when it is. Behind its record each word that the ring has is 0 up
/// to the next entry, also where another page has a header.
pub fn switches_stand_alone_before_zeros()
    ensures locks { (v : View) (locks : List ℕ) (value : Record)
        → MayStep v (store_position locks value) → value ≡ switch_record → (lock : ℕ) → lock < 8
        → Contains locks lock × HoldsLock lock v }
    ensures alone { (first : DiskState) (opening : Opening) (words : List ℕ) (home : Option Plain)
        (views : List View) (id : ℕ) (v : View) (locks : List ℕ)
        → IsSound first opening words home views → HasAt views id v
        → MayStep v (store_position locks switch_record) → (other : ℕ) (w : View)
        → HasAt views other w → (w.working).flight ≡ Landed }
    ensures zeros { (first : DiskState) (opening : Opening) (words : List ℕ) (home : Option Plain)
        (views : List View) (s : IsSound first opening words home views) (k : ℕ)
        → IsBehindSwitch (opening.setup).seg_size s.order (8 * k)
        → IsPresent opening.setup words (k / 1024)
        → word_of_ring opening.setup words (ring_place opening.setup k) ≡ 0 }
{}

/// As long as a word of a switch is left to copy, its pass holds all eight insertion locks, none of
/// which tells more than is copied, and nobody else has an entry in flight: so a watch for an
/// address behind the switch's next word passes none of the locks.
pub fn switches_in_flight_stand_alone()
    ensures alone { (first : DiskState) (opening : Opening) (words : List ℕ) (home : Option Plain)
        (views : List View) (id : ℕ) (v : View) (c : Copy)
        → IsSound first opening words home views → HasAt views id v
        → (v.working).flight ≡ Copying c → IsTrue (is_switch (c.entry).value)
        → c.copied < words_owned (opening.setup).seg_size c.entry
        → CopiesBehindAllLocks (opening.setup).seg_size words views id v c }
{}
