// A table that is not begun. It has all its memory, its words and its writer, and one seat, which
// is no pass's: the seat's view is not live and has the writer as out, as no view has of a table
// that is begun. So no step of the machine can be made with it, and nobody else is there. Where the
// writer is at home the view tells it (`waiting_view`): its plain data and the disk's count of
// faults. Where the seat has it in hand (`reading_view`) its disk may be read or settled. Then
// either the writer goes home and the seat becomes the first pass's, with all numbers (`start`):
// only where the disk has the tape, the moment and the count of faults that are fixed of the table.
// From then on its rule is the machine's invariant, and nothing of this may be called. Or the table
// is ended, and the disk comes back as it is (`end_unbegun`).
ghost use Rattle.std.specs.Prelude.{◌≡◌, [], ◌∷◌, IfErr, IfOk};
ghost use Rattle.segment_disk.specs.Tape.{IsUncalled};
ghost use Rattle.machine_state.specs.Opened.{AreFirstWords, IsOpenable, first_view};
ghost use Rattle.wal_rule.specs.Beginning.{IsUnbegunWriter, IsUncalledWriter, reading_view, waiting_view};
ghost use Rattle.wal_rule.specs.Founded.{founded_opening};
ghost use Rattle.wal_rule.specs.Opening.{IsAsFounded, IsUnsettledWriter, IsWaitingSeat};
ghost use Rattle.wal_rule.specs.Slotted.{slot_disk, slot_plain};
ghost use Rattle.wal_rule.specs.Tables.{IsSeatOn, began_of_table, opening_of_table, table_number};

use crate::memory::{WRITE_TURN_PLACE, memory_of};
use crate::plays::{BeganOn, Begins, GoesOut, WaitsAgain};
use crate::seats::Founding;
use crate::table::{LogSeat, LogTable};
use crate::writer::LogWriter;
use atomic_table::{Refused, Table};
use machine_state::LogShape;
use segment_disk::Disk;
use std::alloc::{AllocFailed, Global};

impl<D: Disk> LogTable<D> {
    /// A table with all its memory, and its only seat, which waits. It makes no device call.
    pub(crate) fn waiting(
        alloc: Global,
        words: &[u64],
        writer: LogWriter<D>,
        shape: LogShape,
        founding: &Founding<D>,
    ) -> Result<(LogTable<D>, LogSeat<D>), D>
        requires openable { IsOpenable (founded_opening founding.now) }
        requires shape { shape ≡ founding.now.setup }
        requires words { AreFirstWords (founded_opening founding.now) words.now }
        requires writer { IsUnsettledWriter D.tape D.moment D.faults founding.now writer }
        ensures key { IfOk result (λ t. t.0.table.shared.key ≡ founding.now) }
        ensures seat { IfOk result (λ t. IsWaitingSeat D.tape D.moment t.0 t.1) }
        ensures refused { IfErr result (λ disk. disk ≡ slot_disk writer) }
    {
        let Ok(memory) = memory_of(alloc, words) else {
            return Err(writer.into_disk());
        };
        let mut slots = Vec::new(alloc);
        if let Err(failed) = slots.push(writer) {
            let AllocFailed { value } = failed;
            slots.destroy_empty();
            return Err(value.into_disk());
        }
        match Table::new(alloc, &memory, slots, founding) {
            Ok((table, seat)) => Ok((LogTable { table, shape }, seat)),
            Err(Refused { slots }) => Err(only_one(slots).into_disk()),
        }
    }

    /// Takes the writer of a new table in hand: its disk is as it was handed in.
    pub(crate) fn take_out<B: BeganOn>(&self, seat: &mut LogSeat<D>)
        requires seat { IsWaitingSeat D.tape D.moment self.now seat.old }
        requires began { B.began ≡ began_of_table D.tape self.now }
        ensures table { seat.new.table_id ≡ table_number self.now }
        ensures out { (w : _)
            × IsAsFounded D.tape D.moment D.faults self.now.table.shared.key w
            × (seat.new.me ≡ (reading_view (opening_of_table self.now), (0, w) ∷ [])) }
    {
        self.table
            .shared
            .load::<GoesOut<D, B>>(seat, WRITE_TURN_PLACE);
    }

    /// Gives the writer back, and makes the seat the first pass's: the log begins sound.
    pub(crate) fn start(&self, seat: &mut LogSeat<D>)
        requires openable { IsOpenable (opening_of_table self.now) }
        requires table { seat.old.table_id ≡ table_number self.now }
        // The writer stands as at the opening, and the disk has not failed since.
        requires out { (w : _) × IsUncalledWriter D.tape D.moment (opening_of_table self.now)
            (began_of_table D.tape self.now) w
            × (D.faults (slot_disk w) ≡ (opening_of_table self.now).faults)
            × (seat.old.me ≡ (reading_view (opening_of_table self.now), (0, w) ∷ [])) }
        ensures view { seat.new.me ≡ (first_view (opening_of_table self.now), []) }
        ensures seat { IsSeatOn self.now seat.new }
    {
        self.table.shared.load::<Begins>(seat, WRITE_TURN_PLACE);
    }

    /// Ends the table: the disk comes back as it is in the seat's hand.
    pub(crate) fn end_unbegun(self, mut seat: LogSeat<D>) -> D
        requires table { seat.table_id ≡ table_number self }
        requires out { (w : _) × IsUnbegunWriter D.tape (opening_of_table self)
            (began_of_table D.tape self) w
            × (seat.me ≡ (reading_view (opening_of_table self), (0, w) ∷ [])) }
        ensures { (w : _) → seat.me.1 ≡ (0, w) ∷ []
            → IsUncalled D.tape D.moment (slot_disk w) result
            × (D.faults result ≡ D.faults (slot_disk w)) }
    {
        self.wait_again(&mut seat);
        let LogTable { table, shape: _ } = self;
        let mut closed = table.close_with(seat);
        let writer = closed.take(0);
        closed.free();
        writer.into_disk()
    }

    // Gives the writer back, with the table not begun: the seat waits again, and tells the writer
    // as it is then.
    fn wait_again(&self, seat: &mut LogSeat<D>)
        requires table { seat.old.table_id ≡ table_number self.now }
        requires out { (w : _) × IsUnbegunWriter D.tape (opening_of_table self.now)
            (began_of_table D.tape self.now) w
            × (seat.old.me ≡ (reading_view (opening_of_table self.now), (0, w) ∷ [])) }
        ensures table { seat.new.table_id ≡ table_number self.now }
        ensures waits { (w : _) → seat.old.me.1 ≡ (0, w) ∷ [] → seat.new.me
            ≡ (
              waiting_view (opening_of_table self.now) (slot_plain D.tape D.moment w)
                  (D.faults (slot_disk w)),
              [],
            ) }
    {
        self.table
            .shared
            .load::<WaitsAgain<D>>(seat, WRITE_TURN_PLACE);
    }
}

// The only value of a list.
fn only_one<T>(mut slots: Vec<T>) -> T
    requires { (x : _) × (slots.items ≡ x ∷ []) }
    ensures { slots.items ≡ result ∷ [] }
{
    let Some(one) = slots.pop() else {
        unreachable!();
    };
    slots.destroy_empty();
    one
}
