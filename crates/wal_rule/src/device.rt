// Calls of the device, each one step of the table, by the pass that has the writer in hand
// (PostgreSQL's xlog.c, XLogFileInit, XLogWrite, issue_xlog_fsync, with WALWriteLock held). Others
// step meanwhile, and no word changes by it: the load of the turn's word behind each call is the
// step by which the view is told of it. What a call rests on (`may`) is asked of one that is done:
// the writer has met no fault; a segment is made while none waits for a sync, and before its first
// page is written; a page's words were loaded, and are copied as far as it is written. However the
// call ends, the writer stays in hand; behind a fault it keeps the disk's count, and its view lets
// no further call be made: down is to be set, and the writer put back.
ghost use Rattle.std.specs.Prelude.{◌≡◌};
ghost use Rattle.machine_state.specs.Moves.{Done};
ghost use Rattle.machine_state.specs.Steps.{create, sync, write, MayStep};
ghost use Rattle.wal_rule.specs.Called.{DeviceCallEnds, IsCalled, creates, step_of_call, syncs, writes};
ghost use Rattle.wal_rule.specs.Ruled.{HasInHand};
ghost use Rattle.machine_state.specs.Views.{Lent};
ghost use Rattle.wal_rule.specs.SeatedPasses.{Steps, began_of, opening_of, view_of};

use crate::memory::WRITE_TURN_PLACE;
use crate::plays::{CatchesUp, OfCall};
use crate::seated::SeatedPass;
use byte_position::Page;
use flush_core::DiskFault;
use segment_disk::Disk;
use std::marker::Brand;

impl<'a, D: Disk> SeatedPass<'a, D> {
    /// Makes the segment under way (PostgreSQL's xlog.c, XLogFileInit): the one behind the last
    /// that was made, in which a byte is to be written next.
    pub fn create(&mut self, segment: u64) -> Result<(), DiskFault>
        // The writer is in hand, as the view keeps it, and this segment is next.
        requires out { (l : Lent) × (w : _) × HasInHand D.tape D.moment D.faults
            (began_of D.tape self.old) (opening_of self.old) self.old.seat.me l w }
        requires may { MayStep (view_of self.old) (create segment Done) }
        // The view is behind the machine's step, by the outcome that the answer tells.
        ensures ended { DeviceCallEnds D.tape D.moment D.faults (began_of D.tape self.old)
            (opening_of self.old) (creates segment) result (view_of self.old) self.new.seat.me }
        ensures table { self.new.table ≡ self.old.table }
    {
        let writer = self.seat.slot_mut(&self.table.table.shared, 0);
        writer.reaches(segment);
        let ended = writer.create(segment);
        self.catch_up::<Brand, _>(&segment, &ended);
        ended
    }

    /// Writes the page under way, which is whole up to an address (XLogWrite). It is the page of
    /// the written address, in a segment that is made; its bytes are the words that were loaded,
    /// and all below `upto` is known to be copied. So far the log is written then; it is durable so
    /// far only behind a sync.
    pub fn write_page(
        &mut self,
        segment: u64,
        page: u32,
        upto: u64,
        bytes: &Page,
    ) -> Result<(), DiskFault>
        // The writer is in hand, as the view keeps it, and this page is next.
        requires out { (l : Lent) × (w : _) × HasInHand D.tape D.moment D.faults
            (began_of D.tape self.old) (opening_of self.old) self.old.seat.me l w }
        requires may { MayStep (view_of self.old) (write segment page upto bytes.now Done) }
        ensures ended { DeviceCallEnds D.tape D.moment D.faults (began_of D.tape self.old)
            (opening_of self.old) (writes segment page upto bytes.now) result (view_of self.old)
            self.new.seat.me }
        ensures table { self.new.table ≡ self.old.table }
    {
        let writer = self.seat.slot_mut(&self.table.table.shared, 0);
        writer.reaches(segment);
        let ended = writer.write_page(segment, page, upto, bytes);
        self.catch_up::<Brand, _>(&(segment, page, upto, bytes), &ended);
        ended
    }

    /// Makes the writes that wait for it durable (issue_xlog_fsync), those of the one segment that
    /// waits. At an error they wait still, and nothing is said of what the disk kept.
    pub fn sync(&mut self, segment: u64) -> Result<(), DiskFault>
        // The writer is in hand, as the view keeps it, and this segment waits.
        requires out { (l : Lent) × (w : _) × HasInHand D.tape D.moment D.faults
            (began_of D.tape self.old) (opening_of self.old) self.old.seat.me l w }
        requires may { MayStep (view_of self.old) (sync segment Done) }
        ensures ended { DeviceCallEnds D.tape D.moment D.faults (began_of D.tape self.old)
            (opening_of self.old) (syncs segment) result (view_of self.old) self.new.seat.me }
        ensures table { self.new.table ≡ self.old.table }
    {
        let writer = self.seat.slot_mut(&self.table.table.shared, 0);
        let ended = writer.sync(segment);
        self.catch_up::<Brand, _>(&segment, &ended);
        ended
    }

    // Tells the pass's view of the call that its writer has made, which it does not tell yet
    // (`called`). Operands and answer are there for the proof alone, which picks `B` by them.
    fn catch_up<B: OfCall, A>(&mut self, _operands: &A, _ended: &Result<(), DiskFault>)
        requires began { B.began ≡ began_of D.tape self.old }
        requires may { MayStep (view_of self.old) (step_of_call B.call Done) }
        requires called { IsCalled D.tape D.moment D.faults B.began (opening_of self.old)
            B.call B.ended self.old.seat.me }
        ensures ended { DeviceCallEnds D.tape D.moment D.faults B.began (opening_of self.old)
            B.call B.ended (view_of self.old) self.new.seat.me }
        ensures table { self.new.table ≡ self.old.table }
    {
        self.table
            .table
            .shared
            .load::<CatchesUp<D, B>>(&mut self.seat, WRITE_TURN_PLACE);
    }
}
