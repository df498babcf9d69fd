// A table is made of a log that holds nothing. All its memory is taken before its disk is read: so
// nothing is read of a disk for which there was no memory. Then page 0 of segment 1 is read, while
// the table is not begun. If it is not there the table is begun with its first pass. If it is
// there, or the read failed, the table is ended and the disk comes back, of which no call was
// counted.
ghost use Rattle.std.specs.Prelude.{◌≡◌, [], IfErr, IfOk, IfSome, None};
ghost use Rattle.segment_disk.specs.Tape.{page_of_segment, state_now};
ghost use Rattle.machine_state.specs.Opened.{AreFirstWords, IsOpenable, first_view};
ghost use Rattle.wal_rule.specs.Founded.{disk_of_founding, founded_opening};
ghost use Rattle.wal_rule.specs.Opening.{IsFoundedNow, IsFoundedWriter, IsWaitingSeat, TellsOpenErr};
ghost use Rattle.wal_rule.specs.Slotted.{slot_disk};
ghost use Rattle.wal_rule.specs.Tables.{IsSeatOn, began_of_table, opening_of_table};

use crate::plays::BeganOn;
use crate::seats::Founding;
use crate::table::{LogSeat, LogTable};
use crate::writer::LogWriter;
use machine_state::LogShape;
use segment_disk::Disk;
use std::alloc::Global;
use std::marker::Brand;

/// Why a table was not opened. The disk comes back.
#[derive(Drop)]
pub enum OpenErr<D> {
    /// There is no memory; the disk was not read.
    Memory(D),
    /// The read of the first page failed.
    Disk(D),
    /// Page 0 of segment 1 is there.
    NotEmpty(D),
}

impl<D: Disk> LogTable<D> {
    /// The table of a log that holds nothing, and the seat of its first pass. Once it has all its
    /// memory, it reads page 0 of segment 1, which must not be there: its only device call.
    pub fn open(
        alloc: Global,
        words: &[u64],
        writer: LogWriter<D>,
        shape: LogShape,
        founding: &Founding<D>,
    ) -> Result<(LogTable<D>, LogSeat<D>), OpenErr<D>>
        // The words and the writer are those of a new log, and what is fixed of the table is what
        // the writer's disk tells now.
        requires openable { IsOpenable (founded_opening founding.now) }
        requires made { founding.now.made ≡ 0 }
        requires shape { shape ≡ founding.now.setup }
        requires words { AreFirstWords (founded_opening founding.now) words.now }
        requires writer { IsFoundedWriter D.tape D.moment D.faults founding.now writer }
        // At Ok the seat is the first pass's, and the disk had no page 0 of segment 1.
        ensures key { IfOk result (λ t. t.0.table.shared.key ≡ founding.now) }
        ensures seat { IfOk result (λ t. (t.1.me
            ≡ (first_view (founded_opening founding.now), [])) × IsSeatOn t.0 t.1) }
        ensures began { IfOk result (λ t. began_of_table D.tape t.0 ≡ D.tape (slot_disk writer)) }
        ensures empty { IfOk result (λ t. IfSome (D.tape (slot_disk writer))
            (λ t. page_of_segment (state_now t 1) 0 ≡ None)) }
        ensures refused { IfErr result
            (λ e. TellsOpenErr D.tape D.moment D.faults (slot_disk writer) e) }
    {
        match LogTable::waiting(alloc, words, writer, shape, founding) {
            Ok((table, seat)) => table.begin::<Brand>(seat),
            Err(disk) => Err(OpenErr::Memory(disk)),
        }
    }

    // Reads the first page of a new table's disk. Where it is not there, the table is begun.
    fn begin<B: BeganOn>(
        self,
        mut seat: LogSeat<D>,
    ) -> Result<(LogTable<D>, LogSeat<D>), OpenErr<D>>
        requires openable { IsOpenable (opening_of_table self) }
        requires made { self.table.shared.key.made ≡ 0 }
        // The seat waits, and nothing was called since what is fixed was told.
        requires seat { IsWaitingSeat D.tape D.moment self seat }
        requires began { B.began ≡ began_of_table D.tape self }
        requires told { IsFoundedNow D.moment D.faults self }
        // At Ok the table is begun, with the first pass's seat; else table and seat are gone, and
        // the disk comes back.
        ensures same { IfOk result (λ t. t.0 ≡ self) }
        ensures seat { IfOk result (λ t. (t.1.me
            ≡ (first_view (opening_of_table self), [])) × IsSeatOn self t.1) }
        ensures began { IfOk result (λ t. began_of_table D.tape t.0
            ≡ D.tape (disk_of_founding self.table.shared.key)) }
        ensures empty { IfOk result (λ t. IfSome
            (D.tape (disk_of_founding self.table.shared.key))
            (λ t. page_of_segment (state_now t 1) 0 ≡ None)) }
        ensures refused { IfErr result (λ e. TellsOpenErr D.tape D.moment D.faults
            (disk_of_founding self.table.shared.key) e) }
    {
        self.take_out::<B>(&mut seat);
        let writer = seat.slot_mut(&self.table.shared, 0);
        match writer.has_first_page() {
            Ok(false) => {
                self.start(&mut seat);
                Ok((self, seat))
            }
            Ok(true) => Err(OpenErr::NotEmpty(self.end_unbegun(seat))),
            Err(_) => Err(OpenErr::Disk(self.end_unbegun(seat))),
        }
    }
}
