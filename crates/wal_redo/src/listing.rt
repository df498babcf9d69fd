ghost use Rattle.std.specs.Prelude.{◌≡◌, Err, IfSome};
ghost use Rattle.segment_disk.specs.Tape.{IsUncalled};
ghost use Rattle.waldump_text.specs.Dump.{HasDumpCause};
ghost use Rattle.wal_redo.specs.Redo.{NoPutFailed};
ghost use Rattle.wal_redo.specs.RedoListing.{IsRedoListing, unlisted};

use crate::lines::put_redone;
use crate::mem_blocks::MemBlocks;
use crate::redoing::{RedoErr, redo};
use byte_position::Geometry;
use segment_disk::{Disk, Sink};
use std::alloc::Global;
use wal_reader::ReadErr;
use wal_types::Lsn;
use waldump_text::DumpErr;

/// Redoes the page images of the disk's log, from `start` on, in memory, puts a line for each block
/// and one that counts images and blocks, and answers how many images they were. Nothing is put
/// unless the log comes to a clean end.
pub fn list_redo<D: Disk, O: Sink>(
    alloc: Global,
    disk: &mut D,
    geometry: Geometry,
    start: Lsn,
    out: &mut O,
) -> Result<u64, DumpErr>
    ensures listed { IfSome (D.tape disk.old)
        (IsRedoListing geometry start.0 (O.taken out.old) (O.taken out.new) result) }
    ensures uncalled { IsUncalled D.tape D.moment disk.old disk.new }
    ensures cause { HasDumpCause (D.faults disk.old) (D.faults disk.new) (O.faults out.old)
        (O.faults out.new) result }
{
    let mut blocks = MemBlocks::new(alloc, Vec::new(alloc)).unwrap();
    match redo(alloc, disk, geometry, start, &mut blocks) {
        Ok(images) => {
            put_redone(out, &blocks, images)?;
            Ok(images)
        }
        Err(error) => Err(unlisted(error)),
    }
}

// Why nothing is listed. The store in memory fails at no put.
fn unlisted(error: RedoErr) -> DumpErr
    requires { NoPutFailed (Err error) }
    ensures { result ≡ unlisted error }
{
    match error {
        RedoErr::Memory => DumpErr::Read(ReadErr::Memory),
        RedoErr::Disk { faults } => DumpErr::Read(ReadErr::Disk { faults }),
        RedoErr::Stopped(stopped) => DumpErr::Read(ReadErr::Stopped(stopped)),
        RedoErr::Store { .. } => unreachable!(),
    }
}
