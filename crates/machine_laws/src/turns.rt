//! Laws of the turn to map a page and of the turn to write (PostgreSQL's
//! WALBufMappingLock and WALWriteLock), each proved by a function that does nothing. At most one
//! view has a turn, and it alone maps, or has the writer in hand: so who has it changes page ends
//! and the initialised end, or calls the device and stores what it did, with nobody else between.

ghost use Rattle.std.specs.Prelude.{◌≡◌, ◌≢◌, ◌⊎◌, ℕ, ◌+◌, List, [], ◌∷◌, ◌++◌, set, ◌==◌, if◌then◌else◌};
ghost use mathlib.Core.Option.{Option, none, some};
ghost use Rattle.machine_state.specs.Views.{HasAt, Stage, Away, Taken, Looked, Ready, Zeroing, Published, Plain, Lent, Hold, Idle, Turned, Out, View, mapper_of, writer_of};
ghost use Rattle.machine_state.specs.Locked.{HasTurn, IsMappingTurn, IsWriteTurn};
ghost use Rattle.machine_state.specs.Paged.{IsOpen};
ghost use Rattle.machine_state.specs.Moves.{looked, ready, after_take_mapping_turn, after_take_write_turn};
ghost use Rattle.machine_state.specs.Steps.{exchanged};

/// The turn to map a page is taken by whoever asks for it and finds it free, and given back by the
/// one that has it.
pub fn the_mapping_turn_goes_round()
    ensures taken { (turn : ℕ) (stage : Stage) (mappers : List (ℕ × Stage)) (id : ℕ) (v : View)
        → IsMappingTurn turn stage mappers → HasAt mappers id (mapper_of v)
        → IsMappingTurn (exchanged v 0 (v.reserving.number + 1) turn)
        (if turn == 0 then Taken else stage)
        (set mappers id (mapper_of (after_take_mapping_turn turn v))) }
    ensures released { (turn : ℕ) (stage : Stage) (mappers : List (ℕ × Stage)) (id : ℕ)
        (m : ℕ × Stage) → IsMappingTurn turn stage mappers → HasAt mappers id m → IsOpen m.1
        → IsMappingTurn 0 Away (set mappers id (m.0, Away)) }
{}

/// The one that has the turn to map a page goes from stage to stage, and nobody else has a stage
/// but Away, at which the loads leave it.
pub fn the_mapping_turn_has_the_stage_of_its_holder()
    ensures its { (turn : ℕ) (stage : Stage) (mappers : List (ℕ × Stage)) (id : ℕ) (m : ℕ × Stage)
        → IsMappingTurn turn stage mappers → HasAt mappers id m → HasTurn m.1 → stage ≡ m.1 }
    ensures goes_on { (turn : ℕ) (stage next : Stage) (mappers : List (ℕ × Stage)) (id : ℕ)
        (m : ℕ × Stage) → IsMappingTurn turn stage mappers → HasAt mappers id m → HasTurn m.1
        → HasTurn next → IsMappingTurn turn next (set mappers id (m.0, next)) }
    ensures loads_initialised { (turn : ℕ) (stage : Stage) (mappers : List (ℕ × Stage))
        (id met : ℕ) (m : ℕ × Stage) → IsMappingTurn turn stage mappers → HasAt mappers id m
        → ((stage ≡ m.1) × IsMappingTurn turn (looked met m.1)
        (set mappers id (m.0, looked met m.1)))
        ⊎ ((m.1 ≡ Away) × (set mappers id (m.0, looked met m.1) ≡ mappers)) }
    ensures loads_written { (turn : ℕ) (stage : Stage) (mappers : List (ℕ × Stage))
        (id met : ℕ) (m : ℕ × Stage) → IsMappingTurn turn stage mappers → HasAt mappers id m
        → ((stage ≡ m.1) × IsMappingTurn turn (ready met m.1)
        (set mappers id (m.0, ready met m.1)))
        ⊎ ((m.1 ≡ Away) × (set mappers id (m.0, ready met m.1) ≡ mappers)) }
{}

/// Views come and go, and the turn to map a page stays where it is: one that does not have it comes
/// in (also behind one that gives up) or is taken in.
pub fn the_mapping_turn_stays_as_views_come_and_go()
    ensures added { (turn : ℕ) (stage : Stage) (mappers : List (ℕ × Stage)) (number : ℕ)
        → IsMappingTurn turn stage mappers
        → IsMappingTurn turn stage (mappers ++ (number, Away) ∷ []) }
    ensures joined { (turn : ℕ) (stage : Stage) (mappers : List (ℕ × Stage)) (id other : ℕ)
        (m x : ℕ × Stage) → IsMappingTurn turn stage mappers → HasAt mappers id m
        → HasAt mappers other x → x.1 ≡ Away
        → IsMappingTurn turn stage (set (set mappers other (x.0, Away)) id m) }
{}

/// The turn to write is taken by whoever asks for it and finds it free, and given back by the one
/// that has it, with the writer at home.
pub fn the_write_turn_goes_round()
    ensures taken { (turn : ℕ) (home : Option Plain) (writer : Plain) (writers : List (ℕ × Hold))
        (id : ℕ) (v : View) → IsWriteTurn turn home writer writers
        → HasAt writers id (writer_of v)
        → IsWriteTurn (exchanged v 0 (v.reserving.number + 1) turn) home writer
        (set writers id (writer_of (after_take_write_turn turn v))) }
    ensures released { (turn : ℕ) (home : Option Plain) (writer : Plain)
        (writers : List (ℕ × Hold)) (id : ℕ) (m : ℕ × Hold)
        → IsWriteTurn turn home writer writers → HasAt writers id m → m.1 ≡ Turned
        → IsWriteTurn 0 home writer (set writers id (m.0, Idle)) }
{}

/// The one that has the turn to write takes the writer from home, changes it, and gives it back.
pub fn the_writer_is_with_the_turns_holder()
    ensures at_home { (turn : ℕ) (home : Option Plain) (writer : Plain)
        (writers : List (ℕ × Hold)) (id : ℕ) (m : ℕ × Hold)
        → IsWriteTurn turn home writer writers → HasAt writers id m → m.1 ≡ Turned
        → home ≡ some writer }
    ensures in_hand { (turn : ℕ) (home : Option Plain) (writer : Plain)
        (writers : List (ℕ × Hold)) (id : ℕ) (m : ℕ × Hold) (l : Lent)
        → IsWriteTurn turn home writer writers → HasAt writers id m → m.1 ≡ Out l
        → (home ≡ none) × (l.writer ≡ writer) }
    ensures slot_out { (turn : ℕ) (home : Option Plain) (writer : Plain)
        (writers : List (ℕ × Hold)) (id : ℕ) (m : ℕ × Hold) (l : Lent)
        → IsWriteTurn turn home writer writers → HasAt writers id m → m.1 ≡ Turned
        → l.writer ≡ writer → IsWriteTurn turn none writer (set writers id (m.0, Out l)) }
    ensures slot_in { (turn : ℕ) (home : Option Plain) (writer : Plain)
        (writers : List (ℕ × Hold)) (id : ℕ) (m : ℕ × Hold) (l : Lent)
        → IsWriteTurn turn home writer writers → HasAt writers id m → m.1 ≡ Out l
        → IsWriteTurn turn (some l.writer) writer (set writers id (m.0, Turned)) }
    ensures changed { (turn : ℕ) (home : Option Plain) (writer : Plain)
        (writers : List (ℕ × Hold)) (id : ℕ) (m : ℕ × Hold) (l next : Lent)
        → IsWriteTurn turn home writer writers → HasAt writers id m → m.1 ≡ Out l
        → IsWriteTurn turn home next.writer (set writers id (m.0, Out next)) }
{}

/// Views come and go, and the turn to write stays where it is: one that does not have it comes in
/// (also behind one that gives up) or is taken in.
pub fn the_write_turn_stays_as_views_come_and_go()
    ensures added { (turn : ℕ) (home : Option Plain) (writer : Plain) (writers : List (ℕ × Hold))
        (number : ℕ) → IsWriteTurn turn home writer writers
        → IsWriteTurn turn home writer (writers ++ (number, Idle) ∷ []) }
    ensures joined { (turn : ℕ) (home : Option Plain) (writer : Plain)
        (writers : List (ℕ × Hold)) (id other : ℕ) (m x : ℕ × Hold)
        → IsWriteTurn turn home writer writers → HasAt writers id m → HasAt writers other x
        → x.1 ≡ Idle → IsWriteTurn turn home writer (set (set writers other (x.0, Idle)) id m) }
{}
