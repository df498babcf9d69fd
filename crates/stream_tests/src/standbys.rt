//! Standbys of one log, on disks in memory.

ghost use Rattle.std.specs.Prelude.{◌≤◌};

use crate::log::smallest;
use segment_disk::MemDisk;
use std::alloc::Global;
use std::test::Fail;
use wal_stream::Standby;

/// A disk that holds nothing, with room for two segments and some calls, which fails at these.
pub(crate) fn disk_of(alloc: Global, failing: &[u64]) -> Result<MemDisk, Fail> {
    Ok(MemDisk::new(alloc, 2, 100, failing.to_vec(alloc)?, Vec::new(alloc))?)
}

/// A standby of segment 1 alone.
pub(crate) fn opened(alloc: Global, disk: MemDisk) -> Result<Standby<MemDisk>, MemDisk> {
    opened_upto(alloc, disk, 1)
}

// A standby of the segments from 1 to a last one.
fn opened_upto(alloc: Global, disk: MemDisk, last: u32) -> Result<Standby<MemDisk>, MemDisk>
    requires { last ≤ 4096 }
{
    match Standby::open(alloc, disk, smallest(), last) {
        Ok(standby) => Ok(standby),
        Err(refused) => Err(refused.disk),
    }
}

/// A standby of segment 1 alone, on a disk that does not fail.
pub(crate) fn open(alloc: Global, disk: MemDisk) -> Result<Standby<MemDisk>, Fail> {
    standby_of(opened(alloc, disk))
}

/// A standby of three segments, on a disk that does not fail.
pub(crate) fn open_three(alloc: Global, disk: MemDisk) -> Result<Standby<MemDisk>, Fail> {
    standby_of(opened_upto(alloc, disk, 3))
}

fn standby_of(opened: Result<Standby<MemDisk>, MemDisk>) -> Result<Standby<MemDisk>, Fail> {
    match opened {
        Ok(standby) => Ok(standby),
        Err(_) => Err(Fail::from("a standby is opened")),
    }
}
