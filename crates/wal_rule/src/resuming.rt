// A table is made of a log that was found and planned to be settled. All its memory is taken before
// the first counted call of its disk: so want of it is told with the very disk. What is fixed of
// the table is told ahead, since the plan knows how many calls it makes: the moment and the tape
// behind the settling. Then the disk is settled by the writer in hand, while the table is not
// begun. If each call was made, the disk is as was fixed, and the table is begun with its first
// pass. If one failed, the table is ended and the disk comes back: what it holds is known only as
// far as `HasNotSettled` tells.
ghost use Rattle.std.specs.Prelude.{◌≡◌, ◌+◌, ◌<◌, ◌^◌, [], IfErr, IfOk};
ghost use Rattle.flush_core.specs.Planned.{IsPlanOf, call_count};
ghost use Rattle.flush_core.specs.Settled.{HasSettled};
ghost use Rattle.machine_state.specs.Opened.{AreFirstWords, IsOpenable, first_view};
ghost use Rattle.machine_state.specs.Words.{found_end};
ghost use Rattle.wal_rule.specs.Founded.{disk_of_founding, founded_opening};
ghost use Rattle.wal_rule.specs.Opening.{IsUnsettledWriter, IsWaitingSeat, TellsResumeErr};
ghost use Rattle.wal_rule.specs.Slotted.{slot_disk};
ghost use Rattle.wal_rule.specs.Tables.{IsSeatOn, began_of_table, opening_of_table};

use crate::plays::BeganOn;
use crate::seats::Founding;
use crate::table::{LogSeat, LogTable};
use crate::writer::LogWriter;
use flush_core::SettlePlan;
use machine_state::LogShape;
use segment_disk::Disk;
use std::alloc::Global;
use std::marker::Brand;

/// Why a log was not gone on with. The disk comes back.
#[derive(Drop)]
pub enum ResumeErr<D> {
    /// There is no memory; no call of the disk was made.
    Memory(D),
    /// The disk failed while it was settled: its count of faults then.
    Disk { disk: D, faults: u64 },
}

impl<D: Disk> LogTable<D> {
    /// The table of a log that was found, which goes on behind it, and the seat of its first pass.
    /// Once it has all its memory, it settles the disk by the plan; it makes no other device call.
    pub fn resume(
        alloc: Global,
        words: &[u64],
        writer: LogWriter<D>,
        shape: LogShape,
        founding: &Founding<D>,
        plan: &SettlePlan,
    ) -> Result<(LogTable<D>, LogSeat<D>), ResumeErr<D>>
        // The words and the writer are those of a log that goes on behind what was found, and what
        // is fixed of the table is what the writer's disk tells now, and its moment behind the
        // planned calls.
        requires openable { IsOpenable (founded_opening founding.now) }
        requires shape { shape ≡ founding.now.setup }
        requires words { AreFirstWords (founded_opening founding.now) words.now }
        requires writer { IsUnsettledWriter D.tape D.moment D.faults founding.now writer }
        requires plan { IsPlanOf founding.now.setup.seg_size
            (found_end (founded_opening founding.now)) founding.now.made
            (D.tape (slot_disk writer)) plan.now }
        requires moment { D.moment (slot_disk writer) + call_count plan.now < 2 ^ 64
            → founding.now.moment ≡ D.moment (slot_disk writer) + call_count plan.now }
        // At Ok the seat is the first pass's, and the disk was settled up to where the log begins.
        ensures key { IfOk result (λ t. t.0.table.shared.key ≡ founding.now) }
        ensures seat { IfOk result (λ t. (t.1.me
            ≡ (first_view (founded_opening founding.now), [])) × IsSeatOn t.0 t.1) }
        ensures settled { IfOk result (λ t. HasSettled founding.now.setup.seg_size
            (found_end (founded_opening founding.now)) founding.now.made
            (D.tape (slot_disk writer)) (began_of_table D.tape t.0)
            (D.moment (slot_disk writer)) (opening_of_table t.0).moment) }
        ensures refused { IfErr result (λ e. TellsResumeErr D.tape D.moment D.faults
            founding.now.setup.seg_size (found_end (founded_opening founding.now))
            (slot_disk writer) e) }
    {
        match LogTable::waiting(alloc, words, writer, shape, founding) {
            Ok((table, seat)) => table.begin_settled::<Brand>(seat, plan),
            Err(disk) => Err(ResumeErr::Memory(disk)),
        }
    }

    // Settles a new table's disk. Where no call of it fails, the table is begun.
    fn begin_settled<B: BeganOn>(
        self,
        mut seat: LogSeat<D>,
        plan: &SettlePlan,
    ) -> Result<(LogTable<D>, LogSeat<D>), ResumeErr<D>>
        requires openable { IsOpenable (opening_of_table self) }
        // The seat waits, and nothing was called since what is fixed was told.
        requires seat { IsWaitingSeat D.tape D.moment self seat }
        requires began { B.began ≡ began_of_table D.tape self }
        requires failed { D.faults (disk_of_founding self.table.shared.key)
            ≡ (opening_of_table self).faults }
        requires plan { IsPlanOf (opening_of_table self).setup.seg_size
            (found_end (opening_of_table self)) (opening_of_table self).made
            (D.tape (disk_of_founding self.table.shared.key)) plan.now }
        requires moment { D.moment (disk_of_founding self.table.shared.key) + call_count plan.now
            < 2 ^ 64 → (opening_of_table self).moment
            ≡ D.moment (disk_of_founding self.table.shared.key) + call_count plan.now }
        // At Ok the table is begun, with the first pass's seat; else table and seat are gone, and
        // the disk comes back.
        ensures same { IfOk result (λ t. t.0 ≡ self) }
        ensures seat { IfOk result (λ t. (t.1.me
            ≡ (first_view (opening_of_table self), [])) × IsSeatOn self t.1) }
        ensures settled { IfOk result (λ t. HasSettled (opening_of_table self).setup.seg_size
            (found_end (opening_of_table self)) (opening_of_table self).made
            (D.tape (disk_of_founding self.table.shared.key)) (began_of_table D.tape self)
            (D.moment (disk_of_founding self.table.shared.key)) (opening_of_table self).moment) }
        ensures refused { IfErr result (λ e. TellsResumeErr D.tape D.moment D.faults
            (opening_of_table self).setup.seg_size (found_end (opening_of_table self))
            (disk_of_founding self.table.shared.key) e) }
    {
        self.take_out::<B>(&mut seat);
        let writer = seat.slot_mut(&self.table.shared, 0);
        match writer.settle(plan) {
            Ok(()) => {
                self.start(&mut seat);
                Ok((self, seat))
            }
            Err(_) => {
                let disk = self.end_unbegun(seat);
                let faults = disk.faults();
                Err(ResumeErr::Disk { disk, faults })
            }
        }
    }
}
