//! The records that stand on a disk.

use byte_position::Geometry;
use segment_disk::MemDisk;
use std::alloc::Global;
use std::test::Fail;
use wal_reader::{ReadErr, Reader, Step};
use wal_types::Lsn;

/// Where a record starts, and its transaction.
#[derive(Clone, Copy, PartialEq, Eq, PartialOrd, Ord)]
pub struct ReadBack {
    pub start: u64,
    pub xid: u32,
}

/// The records, at most a thousand, that are read from a disk, up to the log's end or a record that
/// is torn.
pub fn records_on(alloc: Global, disk: &mut MemDisk) -> Result<Vec<ReadBack>, Fail> {
    let geometry = Geometry::new(1 << 20).ok_or("1 MiB is a segment's size")?;
    let mut reader = Reader::new(geometry, Lsn(1 << 20), None);
    let mut found = Vec::new(alloc);
    for _ in 0..1000 {
        match found_at(reader.next(alloc, disk)) {
            Some(record) => found.push(record)?,
            None => return Ok(found),
        }
    }
    Err(Fail::from("at most a thousand records on a disk that reads"))
}

// The record that a step of a reader gives. Where it gives none the log ends, or is torn, or the
// disk did not read: then a record that lies behind is missed.
fn found_at(step: Result<Step, ReadErr>) -> Option<ReadBack> {
    match step {
        Ok(Step::Record { start, value, .. }) => Some(ReadBack {
            start: start.0,
            xid: value.xid.0,
        }),
        _ => None,
    }
}

/// Where a log ends whose records take up so many bytes.
pub fn end_behind(bytes: u64) -> Result<Lsn, Fail> {
    let geometry = Geometry::new(1 << 20).ok_or("1 MiB is a segment's size")?;
    let position = geometry.position_of(Lsn(1 << 20)).wrapping_add(bytes);
    if position > 1 << 40 {
        return Err(Fail::from("records of at most a terabyte"));
    }
    Ok(geometry.to_end_lsn(position))
}
