//! Logs that are gone on with.

use crate::filled::{Ended, SETUP, filled, gone_on};
use crate::records::record;
use crate::steps::{Step, jobs_of};
use byte_position::Geometry;
use log_workers::{Insertion, Job, LogCall, SegmentEnd, transaction};
use segment_disk::Disk;
use std::alloc::Global;
use std::process::Abort;
use std::test::Fail;
use wal_log::{Found, OpenFault, OpenFaultKind, Sealed, Setup, Wal};
use wal_page::PageErr;
use wal_reader::{DamageKind, Stopped};
use wal_types::Lsn;

// One record, and what the first run is told of it.
static COMMIT: &[Step] = &[Step::Commit(Ok(Sealed {
    start: Lsn(0x10_0028),
    end: Lsn(0x10_0050),
    moment: 3,
}))];

// One backend, which commits one record of 40 bytes.
fn one_commit(alloc: Global) -> Result<Vec<Vec<Job>>, Fail> {
    let mut work = Vec::new(alloc);
    work.push(jobs_of(alloc, COMMIT)?)?;
    Ok(work)
}

// Each run finds the records of those before it, and its own stand behind them; the first one
// finds none, on a disk without segment 1. With segments of another size the log is refused.
#[test]
fn a_log_is_gone_on_with(rt: HostRuntime) -> Result<(), Fail> {
    let alloc = rt.alloc();
    let Ended { work: _, closed } = filled(
        &rt,
        alloc,
        SETUP,
        Vec::new(alloc),
        one_commit(alloc)?,
        1,
    )?;
    let (found, ended) = gone_on(&rt, alloc, SETUP, closed.disk, one_commit(alloc)?, 1)?;
    let wanted = Found {
        count: 1,
        end: Lsn(0x10_0050),
    };
    assert_eq!(rt; (found, ended.closed.end), (wanted, Lsn(0x10_0078)));
    let wider = Setup {
        seg_size: 2_097_152,
        ..SETUP
    };
    let Ended { work: _, closed } = ended;
    let Err(fault) = Wal::reopen(alloc, closed.disk, wider) else {
        panic!(rt; "a log of other segments");
    };
    let OpenFault { disk, kind } = fault;
    let foreign = OpenFaultKind::Foreign(Stopped::Damaged {
        at: Lsn(0x20_0000),
        kind: DamageKind::Page(PageErr::SegSize { found: 0x10_0000 }),
    });
    assert_eq!(rt; (kind, disk.faults()), (foreign, 0));
    Ok(())
}

// Three segments that are filled by a record and a commit each, two of a commit and a switch each,
// and a commit in the sixth.
fn six_segments(alloc: Global) -> Result<Vec<Vec<Job>>, Fail> {
    let mut jobs = Vec::new(alloc);
    for segment in 1..7 {
        if segment < 4 {
            let body = record(alloc, segment, 1_045_419)?;
            jobs.push(Job::of(LogCall::Insert(Insertion::of(body))))?;
        }
        let body = transaction(alloc, segment)?;
        jobs.push(Job::of(LogCall::Commit(Insertion::of(body))))?;
        if segment == 4 || segment == 5 {
            jobs.push(Job::of(LogCall::Switch(SegmentEnd::new(alloc))))?;
        }
    }
    let mut work = Vec::new(alloc);
    work.push(jobs)?;
    Ok(work)
}

// All eleven records are found, and the six segments are synced. Once the first page holds nothing
// there is no record: the six are synced; the other 127 pages of that segment, the 128 of each of
// the next two, and the first page of each of the last three are cleared, as behind a switch all is
// zero; and the six are synced again.
#[test]
fn a_log_of_six_segments_is_found_and_cleared(rt: HostRuntime) -> Result<(), Fail> {
    let alloc = rt.alloc();
    let setup = Setup {
        cap_segments: 8,
        ..SETUP
    };
    let work = six_segments(alloc)?;
    let Ended { work: _, closed } = filled(&rt, alloc, setup, Vec::new(alloc), work, 1)?;
    let mut disk = closed.disk;
    for (count, end, calls) in [
        (11, 0x60_0050, 6),
        (0, 0x10_0000, 6 + 127 + 2 * 128 + 3 + 6),
    ] {
        let moment = disk.moment();
        let (found, ended) = gone_on(&rt, alloc, setup, disk, Vec::new(alloc), 1)?;
        let wanted = Found {
            count,
            end: Lsn(end),
        };
        let Ended { work: _, closed } = ended;
        disk = closed.disk;
        assert_eq!(rt;
            (found, disk.moment()),
            (wanted, moment.wrapping_add(calls))
        );
        let geometry = Geometry::new(1 << 20).ok_or("a segment's size")?;
        assert!(rt; disk.write_page(geometry, 1, 0, &[0; 8192]).is_ok());
    }
    Ok(())
}
