//! The records that are read from a standby's disk.

use crate::log::{START, smallest};
use segment_disk::MemDisk;
use std::alloc::Global;
use std::test::Fail;
use wal_reader::{ReadErr, Reader, Step};
use wal_types::Lsn;

/// Where the records end that are read from a disk, and where the log ends or why it stops.
#[derive(Drop)]
pub(crate) struct Listed {
    pub(crate) ends: Vec<u64>,
    pub(crate) end: Result<u64, ReadErr>,
}

impl Listed {
    /// Reads a disk's log, of at most ten thousand records.
    pub(crate) fn of(alloc: Global, disk: &mut MemDisk) -> Result<Listed, Fail> {
        let mut reader = Reader::new(smallest(), Lsn(START), None);
        let mut ends = Vec::new(alloc);
        for _ in 0..10_000 {
            match reader.next(alloc, disk) {
                Ok(Step::Record { end, .. }) => ends.push(end.0)?,
                Ok(Step::End { at }) => return Ok(Listed {
                    ends,
                    end: Ok(at.0),
                }),
                Err(why) => return Ok(Listed {
                    ends,
                    end: Err(why),
                }),
            }
        }
        Err(Fail::from("a log of at most ten thousand records"))
    }

    /// Whether they are a front of records that end here, with each that ends at or below `upto`.
    pub(crate) fn is_front(&self, ends: &[u64], upto: u64) -> bool {
        let promised = ends.iter().filter(|end| **end <= upto).count();
        ends.starts_with(&self.ends) && promised <= self.ends.len()
    }
}
