//! What holds of each image that a crash leaves, and of the down value: laws proved by functions
//! that do nothing. By these alone the users of a log speak of crashes: they need not know how the
//! pages came to the disk.

ghost use Rattle.std.specs.Prelude.{◌≡◌, ◌≢◌, ℕ, List, [], ◌++◌, IfSome};
ghost use Rattle.segment_disk.specs.declared.disk.Call.{Call};
ghost use mathlib.Core.Option.{Option};
ghost use Rattle.wal_page.specs.Order.{Entry};
ghost use Rattle.wal_page.specs.LogPlace.{IsPlace, new_place};
ghost use Rattle.flush_core.specs.Lawful.{IsLawful};
ghost use Rattle.byte_position.specs.Geometry.{IsSegmentSize};
ghost use Rattle.segment_disk.specs.DiskImage.{DiskImage};
ghost use Rattle.segment_disk.specs.Tape.{DiskState};
ghost use Rattle.machine_state.specs.Words.{Opening, GoesOnAtPlace};
ghost use Rattle.machine_state.specs.Views.{HasAt, Hold, Plain, Receipts, View, writer_of};
ghost use Rattle.machine_state.specs.Suited.{BeganSuited, IfSuited, tape_from};
ghost use Rattle.machine_state.specs.Locked.{IsWriteTurn};
ghost use Rattle.machine_state.specs.Durable.{DurabilityHolds};
ghost use Rattle.machine_state.specs.Moves.{CallOutcome, with_outcome};
ghost use Rattle.machine_state.specs.Sound.{IsSetup};
ghost use Rattle.machine_state.specs.Steps.{MayStep, create, set_down, sync, value_behind, write};
ghost use Rattle.machine_laws.specs.Crashes.{CrashesLeave, DownTells, IsLawfulBehind};
ghost use Rattle.machine_laws.specs.WholeOrders.{IsWholeOrder, LiesBehind};

/// Where the disk tells what it holds, and held at the opening what a log may begin on, a crash at
/// any moment since the opening leaves nothing but words of the log or zeros; and one at a moment
/// from a promise's on leaves all of the log below the address that the promise names, in pages
/// that are there.
pub fn crashes_leave_what_was_promised()
    ensures lawful { (first : DiskState) (o : Opening) (order : List Entry)
        (flushed moment down : ℕ)
        (home : Option Plain) (writer : Plain) (parts : List Receipts)
        → DurabilityHolds first o order flushed moment down home writer parts → IsSetup o.setup
        → IsPlace (o.setup).seg_size o.place
        → IfSuited first o writer (λ t. CrashesLeave o order flushed moment t parts) }
{}

/// A call of the device, however it ends, leaves what the disk held when the log was opened: what
/// was one on which a log may begin stays one of which all this is said.
pub fn calls_leave_what_the_log_began_on()
    ensures { (first : DiskState) (o : Opening) (order : List Entry) (flushed moment down : ℕ)
        (home : Option Plain) (writer : Plain) (parts : List Receipts) (call : Call)
        (outcome : CallOutcome)
        → DurabilityHolds first o order flushed moment down home writer parts
        → IfSome (tape_from first writer.calls) (BeganSuited o)
        → IfSome (tape_from first (with_outcome call outcome writer).calls) (BeganSuited o) }
{}

/// What the down value tells; once it is not 0 it stays, and no call of the device follows.
pub fn down_tells_of_the_fault()
    ensures tells { (first : DiskState) (o : Opening) (order : List Entry) (flushed moment down : ℕ)
        (home : Option Plain) (writer : Plain) (parts : List Receipts)
        → DurabilityHolds first o order flushed moment down home writer parts
        → DownTells o down home writer parts }
    ensures stays { (first : DiskState) (o : Opening) (order : List Entry) (flushed moment down : ℕ)
        (home : Option Plain) (writer : Plain) (parts : List Receipts)
        (id met : ℕ) (v : View) (turn : ℕ) (writers : List (ℕ × Hold))
        → DurabilityHolds first o order flushed moment down home writer parts → down ≢ 0
        → IsWriteTurn turn home writer writers → HasAt writers id (writer_of v)
        → MayStep v set_down → value_behind v set_down met ≡ down }
    ensures no_call { (first : DiskState) (o : Opening) (order : List Entry)
        (flushed moment down : ℕ)
        (home : Option Plain) (writer : Plain) (parts : List Receipts)
        (id : ℕ) (v : View) (turn : ℕ) (writers : List (ℕ × Hold))
        (segment page upto : ℕ) (bytes : List ℕ) (outcome : CallOutcome)
        → DurabilityHolds first o order flushed moment down home writer parts → down ≢ 0
        → IsWriteTurn turn home writer writers → HasAt writers id (writer_of v)
        → (¬ MayStep v (create segment outcome))
        × (¬ MayStep v (write segment page upto bytes outcome))
        × (¬ MayStep v (sync segment outcome)) }
{}

/// Where what lies below the place is known entry by entry, it is one order with what follows, and
/// an image of the log behind the place is one of that order. Below a new log's place nothing lies.
pub fn whole_orders_have_the_same_images()
    ensures lawful { (opening : Opening) (order whole : List Entry) (image : DiskImage) (upto : ℕ)
        → IsSegmentSize opening.setup.seg_size → IsWholeOrder opening order whole
        → IsLawfulBehind opening order image upto
        → IsLawful opening.setup.seg_size opening.setup.sysid image whole upto }
    ensures whole { (opening : Opening) (front order : List Entry)
        → IsSegmentSize opening.setup.seg_size → LiesBehind opening front
        → GoesOnAtPlace opening order → IsWholeOrder opening order (front ++ order) }
    ensures fresh { (opening : Opening) → IsSegmentSize opening.setup.seg_size
        → opening.place ≡ new_place opening.setup.seg_size → LiesBehind opening [] }
{}
