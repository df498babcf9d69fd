//! Reading a log record by record (PostgreSQL's XLogReadRecord of xlogreader.c). The caller lends
//! the same disk at each step. Between two steps the reader keeps where it stands, one page and
//! room for one record's bytes. At an end, and behind a fault or want of memory, it stands where it
//! was, and goes on there when it is asked again. Whatever else stands in a record's place it tells
//! for good, and reads nothing more.

ghost use Rattle.std.specs.Prelude.{◌≡◌};
ghost use Rattle.byte_position.specs.Geometry.{IsSegmentSize};
ghost use Rattle.wal_reader.specs.Buffers.{AreFor, AreFor-prop};
ghost use Rattle.wal_reader.specs.Ready.{IsReadyIn, IsReadyIn-prop};
ghost use Rattle.wal_reader.specs.SegmentSizes.{IsSegmentSize-prop};
ghost use Rattle.wal_reader.specs.Standings.{IsOnWay, IsOnWay-prop};

use crate::buffers::{Buffers, set_up};
use crate::given::next_given;
use crate::page_cursor::PageCursor;
use crate::passing_over::{place_again, read_stored};
use crate::read_failure::ReadFailure;
use crate::standing::{Comes, ReadErr, Standing, Step, step_with, told};
use byte_position::Geometry;
use segment_disk::Disk;
use std::alloc::Global;
use wal_record::KeepsRecord;
use wal_types::{Lsn, Record};

/// Reads the records of a disk's log, one behind another.
#[derive(Drop)]
pub struct Reader {
    geometry: Geometry,
    start: Lsn,
    end: Option<Lsn>,
    standing: Standing,
    /// What it reads into, once it has begun.
    buffers: Option<Buffers>,
    /// Where the next record stands, while that is known.
    ready: Option<PageCursor>,
    ghost valid: { IsSegmentSize geometry } by { IsSegmentSize-prop geometry },
    ghost on_way: { IsOnWay standing } by { IsOnWay-prop standing },
    ghost fit: { AreFor geometry buffers } by { AreFor-prop geometry buffers },
    ghost ahead: { IsReadyIn standing buffers ready } by { IsReadyIn-prop standing buffers ready },
}

impl Reader {
    ghost use Rattle.std.specs.Prelude.{IfOk, option_map};
    ghost use Rattle.segment_disk.specs.Tape.{IsUncalled};
    ghost use Rattle.wal_reader.specs.declared.standing.Standing.TheVariants.{NotBegun};
    ghost use Rattle.wal_reader.specs.Pages.{Pages};
    ghost use Rattle.wal_reader.specs.PageCursor.{IsLogOf};
    ghost use Rattle.wal_reader.specs.PassingOver.{GivesStored, IsPassedOver};
    ghost use Rattle.wal_reader.specs.LogReader.{HoldsNoPage, Knows, LeavesReader, NeedsNoPage, OnEnd, StandsAfter, reader_page, reader_state};
    ghost use Rattle.wal_reader.specs.Filled.{step_with};
    ghost use Rattle.wal_reader.specs.Spelled.{GivesSpelled};
    ghost use Rattle.wal_reader.specs.Standings.{HasReadCause, IsToldAgain};
    ghost use Rattle.wal_reader.specs.StepIn.{IsStepIn};

    /// A reader of the records from the address `start` on, up to `end` where one is given. It
    /// takes no memory and reads nothing yet.
    pub fn new(geometry: Geometry, start: Lsn, end: Option<Lsn>) -> Reader
        ensures state { reader_state result
            ≡ record {
              size = geometry;
              start = start.0;
              end = option_map
                  (λ address. address.0) end;
              standing = NotBegun;
            } }
        ensures knows { (pages : Pages) → Knows result pages }
        // That a log decodes to something rests on a valid size.
        ensures valid { IsSegmentSize geometry }
    {
        // That the size is valid rests on its own call.
        let _size = geometry.segment_size();
        Reader {
            geometry,
            start,
            end,
            standing: Standing::NotBegun,
            buffers: None,
            ready: None,
        }
    }

    /// The next record that starts at `start` or behind it, where the log goes on; records before
    /// it are read and checked as any other. Damage is told again from then on. At an end, on want
    /// of memory or where the disk failed the reader stays where it is.
    pub fn next<D: Disk>(&mut self, alloc: Global, disk: &mut D) -> Result<Step, ReadErr>
        // It gives what the pages decode to, as long as the disk holds these pages; it stands
        // behind a record that it gave, and where it was else.
        ensures gives { (pages : Pages) → IsLogOf (D.tape disk.old)
            (reader_state self.old).size pages → Knows self.old pages
            → IsStepIn pages self.old self.new result }
        ensures leaves { LeavesReader (reader_state self.old) (reader_state self.new) result }
        ensures behind { StandsAfter (reader_state self.old).size
            (reader_state self.new).standing result }
        // At an end it holds no page, since what is written later stands on that page too. Where
        // nothing is to be read the disk is untouched.
        ensures forgets { OnEnd result (HoldsNoPage self.new) }
        ensures unread { NeedsNoPage (reader_state self.old) (reader_page self.old)
            self.old.standing → disk.new ≡ disk.old }
        // A record that is given is one that some bytes spell.
        ensures spelled { IfOk result GivesSpelled }
        // What has stopped it is told again, without a read.
        ensures stopped { IsToldAgain (reader_state self.old).standing result disk.old disk.new }

        ensures uncalled { IsUncalled D.tape D.moment disk.old disk.new }
        ensures cause { HasReadCause (D.faults disk.old) (D.faults disk.new) result }
    {
        let mut value = Record::blank(alloc);
        let comes = self.next_into(alloc, disk, &mut value);
        step_with(value, comes)
    }

    /// `next`, with the record kept as the caller asks for, whatever was kept: in a `Record` that
    /// it has, where no memory is taken for main data if its room is large enough, or by `Unkept`
    /// not at all. What is read and checked is the same. Where no record comes it means nothing.
    #[inline(always)]
    pub fn next_into<D: Disk, K: KeepsRecord>(
        &mut self,
        alloc: Global,
        disk: &mut D,
        value: &mut K,
    ) -> Result<Comes, ReadErr>
        // What `next` promises, of the step that result and kept record make together.
        ensures gives { (pages : Pages) → IsLogOf (D.tape disk.old)
            (reader_state self.old).size pages → Knows self.old pages
            → IsStepIn pages self.old self.new (step_with (K.kept value.new) result) }
        ensures leaves { LeavesReader (reader_state self.old) (reader_state self.new)
            (step_with (K.kept value.new) result) }
        ensures behind { StandsAfter (reader_state self.old).size
            (reader_state self.new).standing (step_with (K.kept value.new) result) }
        ensures forgets { OnEnd (step_with (K.kept value.new) result) (HoldsNoPage self.new) }
        ensures unread { NeedsNoPage (reader_state self.old) (reader_page self.old)
            self.old.standing → disk.new ≡ disk.old }
        ensures spelled { IfOk (step_with (K.kept value.new) result) GivesSpelled }
        ensures stopped { IsToldAgain (reader_state self.old).standing
            (step_with (K.kept value.new) result) disk.old disk.new }

        ensures uncalled { IsUncalled D.tape D.moment disk.old disk.new }
        ensures cause { HasReadCause (D.faults disk.old) (D.faults disk.new)
            (step_with (K.kept value.new) result) }
    {
        let from = match self.standing {
            Standing::NotBegun => None,
            Standing::At(at) => Some(at),
            Standing::Stopped(stopped) => return Err(ReadErr::Stopped(stopped)),
        };
        set_up(&mut self.buffers, alloc, self.geometry)?;
        let Some(buffers) = &mut self.buffers else {
            unreachable!()
        };
        match next_given(
            alloc,
            value,
            buffers,
            disk,
            self.start,
            self.end,
            from,
            &mut self.ready,
        ) {
            Ok((head, behind)) => {
                self.standing = Standing::At(behind);
                Ok(Comes::Record(head))
            }
            Err(ReadFailure::Told(answer)) => {
                // What is written behind an end later stands in this page too.
                buffers.forget_page();
                self.standing = self.standing.after(answer);
                told(answer)
            }
            Err(ReadFailure::Memory) => Err(ReadErr::Memory),
            Err(ReadFailure::Disk) => Err(ReadErr::Disk {
                faults: disk.faults(),
            }),
        }
    }

    /// Passes over the record that starts at an address, at which the reader has stopped for its
    /// compressed images: it is put into `value` with the bytes that are stored of them, and the
    /// reader stands behind it. Where the pages are damaged by now, or the record is malformed so
    /// too, that is told, and the reader stays where it is.
    #[tactic(auto, using(crate::proofs::PassingLaws::ready_unknown))]
    pub fn pass_over<D: Disk>(
        &mut self,
        alloc: Global,
        disk: &mut D,
        at: Lsn,
        value: &mut Record,
    ) -> Result<Comes, ReadErr>
        // It gives what is stored in the pages at that address, as long as the disk holds them.
        ensures gives { (pages : Pages) → IsLogOf (D.tape disk.old)
            (reader_state self.old).size pages → Knows self.old pages
            → IsPassedOver pages self.old self.new at.0 (step_with value.new result) }
        ensures leaves { reader_state self.new
            ≡ record (reader_state self.old) { standing = (reader_state self.new).standing } }
        ensures stored { IfOk (step_with value.new result) GivesStored }

        ensures uncalled { IsUncalled D.tape D.moment disk.old disk.new }
        ensures cause { HasReadCause (D.faults disk.old) (D.faults disk.new)
            (step_with value.new result) }
    {
        self.ready = None;
        set_up(&mut self.buffers, alloc, self.geometry)?;
        let place = place_again(self.geometry, at);
        let Some(buffers) = &mut self.buffers else {
            unreachable!()
        };
        match read_stored(alloc, value, buffers, disk, self.end, place) {
            Ok((head, behind)) => {
                self.standing = Standing::At(behind);
                Ok(Comes::Record(head))
            }
            Err(ReadFailure::Told(answer)) => {
                buffers.forget_page();
                told(answer)
            }
            Err(ReadFailure::Memory) => Err(ReadErr::Memory),
            Err(ReadFailure::Disk) => Err(ReadErr::Disk {
                faults: disk.faults(),
            }),
        }
    }
}
