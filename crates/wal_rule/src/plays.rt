// What each step tells its pass: the view behind it. Each type here is a kind of call of
// atomic_table, and `then` says of it what a seat with the view and slots `m`, which met the number
// `r`, has behind the step as `n`. That the rule of the table allows the step, and that this is so
// behind it, is proved where the step is made; nothing here runs.
ghost use Rattle.std.specs.Prelude.{◌≡◌, [], ◌∷◌, None, Ok, Option, Result};
ghost use mathlib.Core.Option.{none};
ghost use Rattle.segment_disk.specs.Tape.{Tape};
ghost use Rattle.flush_core.specs.declared.writer.DiskFault.{DiskFault};
ghost use Rattle.machine_state.specs.Steps.{StepKind, load_position, slot_in, view_behind};
ghost use Rattle.wal_rule.specs.Beginning.{IsUnbegunWriter, reading_view, waiting_view};
ghost use Rattle.wal_rule.specs.Called.{DeviceCall, DeviceCallEnds, syncs};
ghost use Rattle.wal_rule.specs.Ruled.{IsOutOf};
ghost use Rattle.machine_state.specs.Views.{View};
ghost use Rattle.machine_state.specs.Opened.{first_view};
ghost use Rattle.wal_rule.specs.Passes.{no_view};
ghost use Rattle.machine_state.specs.Moves.{after_join, after_split, orphan_of, split_off, without_work};
ghost use Rattle.wal_rule.specs.Slotted.{slot_disk, slot_plain};
ghost use Rattle.wal_rule.specs.Stepping.{Meets, Stands};

use crate::seats::PassView;
use crate::writer::LogWriter;
use atomic_table::{Join, Play, Split};
use segment_disk::Disk;
use std::marker::{Brand, PhantomData};

/// Which kind of step it is, for the proof alone.
pub trait OfKind {
    ghost kind: { StepKind };
}

impl OfKind for Brand {
    ghost kind = { load_position };
}

/// A step that moves no writer and calls no device.
pub struct Quietly<K: OfKind> {
    kind: PhantomData<K>,
}

impl<D, K: OfKind> Play<LogWriter<D>, PassView> for Quietly<K> {
    ghost then = { λ st m r n. (n ≡ (view_behind m.0 K.kind r none, m.1)) × Stands n.0 };
}

/// A load or an exchange that moves no writer, which tells also that its number was met.
pub struct Finds<K: OfKind> {
    kind: PhantomData<K>,
}

impl<D, K: OfKind> Play<LogWriter<D>, PassView> for Finds<K> {
    ghost then = { λ st m r n. (n ≡ (view_behind m.0 K.kind r none, m.1)) × Stands n.0
        × Meets m.0 K.kind r };
}

/// A new pass has the least spare number.
pub struct SplitsOff;

impl Split<PassView> for SplitsOff {
    ghost left = { after_split };

    ghost right = { split_off };
}

/// A pass gives up its copy, which stays with a view of its own.
pub struct GivesCopyUp;

impl Split<PassView> for GivesCopyUp {
    ghost left = { without_work };

    ghost right = { orphan_of };
}

/// What is left of a pass that was taken in, which its call picks for the proof alone.
pub trait Leaves {
    ghost left: { View };
}

impl Leaves for Brand {
    ghost left = { no_view };
}

/// A pass takes another one in; `left` is what is left of that one.
pub struct TakesIn<B: Leaves> {
    leaves: PhantomData<B>,
}

impl<B: Leaves> Join<PassView> for TakesIn<B> {
    ghost both = { after_join };

    ghost spent = { B.left };
}

/// The disk's tape at the opening, which a call picks for the proof alone.
pub trait BeganOn {
    ghost began: { Option Tape };
}

impl BeganOn for Brand {
    ghost began = { None };
}

/// The writer goes out of its slot: it is the log's, on a disk whose tape goes on from `began`.
pub struct SlotOut<D, B: BeganOn> {
    disk: PhantomData<D>,
    began: PhantomData<B>,
}

impl<D: Disk, B: BeganOn> Play<LogWriter<D>, PassView> for SlotOut<D, B> {
    ghost then = { λ st m r n. (w : _)
        × IsOutOf D.tape D.moment D.faults B.began (m.0).opening r w m n × Stands n.0 };
}

/// The writer goes back into its slot, and the seat keeps the turn.
pub struct SlotIn;

impl<D> Play<LogWriter<D>, PassView> for SlotIn {
    ghost then = { λ st m r n. (n ≡ (view_behind m.0 slot_in r none, [])) × Stands n.0 };
}

/// The writer of a table that is not begun goes out, and its disk may be read or settled: it is the
/// one that the view told.
pub struct GoesOut<D, B: BeganOn> {
    disk: PhantomData<D>,
    began: PhantomData<B>,
}

impl<D: Disk, B: BeganOn> Play<LogWriter<D>, PassView> for GoesOut<D, B> {
    ghost then = { λ st m r n. (w : _) × IsUnbegunWriter D.tape (m.0).opening B.began w
        × (m.0 ≡ waiting_view (m.0).opening (slot_plain D.tape D.moment w)
        (D.faults (slot_disk w))) × (n ≡ (reading_view (m.0).opening, (0, w) ∷ [])) };
}

/// The writer comes back, and the table is begun.
pub struct Begins;

impl<D> Play<LogWriter<D>, PassView> for Begins {
    ghost then = { λ st m r n. (n ≡ (first_view (m.0).opening, [])) × Stands n.0 };
}

/// The writer comes back, and the table is still not begun.
pub struct WaitsAgain<D> {
    disk: PhantomData<D>,
}

impl<D: Disk> Play<LogWriter<D>, PassView> for WaitsAgain<D> {
    ghost then = { λ st m r n. (w : _) → m.1 ≡ (0, w) ∷ []
        → n ≡ (
          waiting_view (m.0).opening (slot_plain D.tape D.moment w) (D.faults (slot_disk w)),
          [],
        ) };
}

/// A load that changes nothing of what the pass knows.
pub struct LooksOn;

impl<D> Play<LogWriter<D>, PassView> for LooksOn {
    ghost then = { λ st m r n. (n ≡ m) × Stands n.0 };
}

/// A call of the device and how it ended, which a call of the table picks for the proof alone.
pub trait OfCall {
    ghost call: { DeviceCall };

    ghost ended: { Result Unit DiskFault };

    ghost began: { Option Tape };
}

impl OfCall for Brand {
    ghost call = { syncs 0 };

    ghost ended = { Ok tt };

    ghost began = { None };
}

/// The writer in hand has made a call of the device; by this load the view is told how it ended.
pub struct CatchesUp<D, B: OfCall> {
    disk: PhantomData<D>,
    call: PhantomData<B>,
}

impl<D: Disk, B: OfCall> Play<LogWriter<D>, PassView> for CatchesUp<D, B> {
    ghost then = { λ st m r n. DeviceCallEnds D.tape D.moment D.faults B.began (m.0).opening
        B.call B.ended m.0 n × Stands n.0 };
}
