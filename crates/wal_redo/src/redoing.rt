ghost use Rattle.std.specs.Prelude.{◌≡◌, IfSome, IsTrue};
ghost use Rattle.segment_disk.specs.Tape.{IsUncalled};
ghost use Rattle.wal_redo.specs.Calls.{IsCalled};
ghost use Rattle.wal_redo.specs.Redo.{HasRedoCause, IsRedo, NoPutFailed};

use crate::blocks::Blocks;
use crate::page_images::put_images;
use byte_position::Geometry;
use segment_disk::Disk;
use std::alloc::Global;
use thiserror::Error;
use wal_reader::{ReadErr, Reader, Step, Stopped};
use wal_types::Lsn;

/// Why a log was not redone to a clean end.
#[derive(Clone, Copy, Debug, PartialEq, Eq, Error)]
pub enum RedoErr {
    #[error("out of memory")]
    Memory,
    /// The disk failed, and stood at this count of faults then.
    #[error("the disk failed")]
    Disk { faults: u64 },
    /// All records before this were redone; it is no end of the log.
    #[error("{0}")]
    Stopped(Stopped),
    /// The store of blocks failed, and stood at this count of faults then.
    #[error("the store of blocks failed")]
    Store { faults: u64 },
}

impl From<ReadErr> for RedoErr {
    ghost use Rattle.std.specs.Prelude.{◌≡◌};
    ghost use Rattle.wal_redo.specs.Redo.{unread};

    ghost from_gives = { λ error e. e ≡ unread error };

    fn from(error: ReadErr) -> RedoErr {
        match error {
            ReadErr::Memory => RedoErr::Memory,
            ReadErr::Disk { faults } => RedoErr::Disk { faults },
            ReadErr::Stopped(stopped) => RedoErr::Stopped(stopped),
        }
    }
}

/// Puts the full-page images that are to be applied of the disk's log, from `start` on, into a
/// store, one behind another, and answers how many were put. The disk is only read.
pub fn redo<D: Disk, B: Blocks>(
    alloc: Global,
    disk: &mut D,
    geometry: Geometry,
    start: Lsn,
    blocks: &mut B,
) -> Result<u64, RedoErr>
    // Behind Ok the store is as it was, overridden by what the whole log puts; behind a refusal by
    // a front of that.
    ensures redone { IfSome (D.tape disk.old)
        (IsRedo geometry start.0 (B.pages blocks.old) (B.pages blocks.new) result) }
    // The store's puts were called once for each image, in the log's order, and no other.
    ensures called { IfSome (D.tape disk.old)
        (IsCalled geometry start.0 (B.calls blocks.old) (B.calls blocks.new) result) }
    ensures uncalled { IsUncalled D.tape D.moment disk.old disk.new }
    ensures cause { HasRedoCause (D.faults disk.old) (D.faults disk.new) (B.faults blocks.old)
        (B.faults blocks.new) result }
    ensures never { IsTrue (B.never_fails blocks.old) → NoPutFailed result }
{
    let mut reader = Reader::new(geometry, start, None);
    let mut room = [0; 8192];
    let mut count = 0;
    'records: loop {
        match reader.next(alloc, disk)? {
            Step::Record {
                start: _,
                end: _,
                prev: _,
                total: _,
                value,
            } => count += put_images(alloc, value.blocks.as_slice(), &mut room, blocks)?,
            Step::End { .. } => return Ok(count),
        }
    }
}
