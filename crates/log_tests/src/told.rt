//! What backends were told of their records.

use crate::reading::ReadBack;
use log_workers::{Job, LogAnswer};
use std::alloc::Global;
use std::test::Fail;
use wal_log::{Cause, CommitErr, Switch};
use wal_types::Lsn;

/// Where the record of a job starts that was inserted, told to be durable, or a segment switch.
pub fn start_told(job: &Job) -> Option<Lsn> {
    match job.told? {
        LogAnswer::Inserted(Ok(receipt)) => Some(receipt.start),
        LogAnswer::Committed(Ok(sealed)) => Some(sealed.start),
        LogAnswer::Switched(Ok(Switch::Done { start, .. })) => Some(start),
        _ => None,
    }
}

/// The records of a backend's inserts and commits, in their order, up to the first call that was
/// refused. The transactions of its calls have the numbers from `first` on.
pub fn records_told(alloc: Global, jobs: &[Job], first: u32) -> Result<Vec<ReadBack>, Fail> {
    let mut found = Vec::new(alloc);
    let mut xid = first;
    for job in jobs {
        let Some(start) = start_told(job) else {
            return Ok(found);
        };
        found.push(ReadBack {
            start: start.0,
            xid,
        })?;
        xid = xid.wrapping_add(1);
    }
    Ok(found)
}

/// Whether a backend's commits behind the first so many were told at first that the disk had
/// failed once, in their call or before, and then only that it had.
pub fn is_down_behind(jobs: &[Job], durable: usize) -> bool {
    let mut rest = jobs.iter().skip(durable);
    let refused = match rest.next() {
        Some(first) => matches!(
            first.told,
            Some(LogAnswer::Committed(Err(CommitErr {
                cause: Cause::Disk { faults: 1 } | Cause::Down { faults: 1 },
                ..
            })))
        ),
        None => true,
    };
    refused && rest.all(is_known_down)
}

fn is_known_down(job: &Job) -> bool {
    matches!(
        job.told,
        Some(LogAnswer::Committed(Err(CommitErr {
            cause: Cause::Down { faults: 1 },
            reserved: None,
        })))
    )
}

/// Whether each record starts behind the one before.
pub fn rises(found: &[ReadBack]) -> bool {
    let mut last = 0;
    for record in found {
        if record.start <= last {
            return false;
        }
        last = record.start;
    }
    true
}
