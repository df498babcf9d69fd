//! Backends that share a log, each in a thread of its own.

use crate::filled::{Ended, SETUP, filled};
use crate::reading::{ReadBack, end_behind, records_on};
use crate::records::record;
use crate::told::{is_down_behind, records_told, rises, start_told};
use log_workers::{CommitKind, Insertion, Job, LogCall, SegmentEnd, commits, transaction};
use segment_disk::{Disk, MemDisk, Pick};
use std::alloc::Global;
use std::process::Abort;
use std::sync::Wait;
use std::test::Fail;
use std::thread::Threads;
use wal_log::Setup;

// For each backend so many commits; the first one's transactions have the numbers from 1 on, the
// next one's those behind them.
fn commits_of(alloc: Global, counts: &[u32]) -> Result<Vec<Vec<Job>>, Fail> {
    let mut work = Vec::new(alloc);
    let mut first = 1u32;
    for count in counts {
        work.push(commits(alloc, CommitKind::Hard, first, *count)?)?;
        first = first.wrapping_add(*count);
    }
    Ok(work)
}

// The records that all backends were told, sorted. Each one's rise, and it was told of no other
// fault than one of the disk.
fn all_told<R: Abort>(rt: &R, alloc: Global, work: &[Vec<Job>]) -> Result<Vec<ReadBack>, Fail> {
    let mut all = Vec::new(alloc);
    let mut first = 1u32;
    for jobs in work {
        let told = records_told(alloc, jobs, first)?;
        assert!(rt; rises(&told));
        assert!(rt; is_down_behind(jobs, told.len()));
        all.extend_from_slice(&told)?;
        first = first.wrapping_add(jobs.len().min(1000) as u32);
    }
    all.sort()?;
    Ok(all)
}

// Two backends, each in a thread of its own. A reader finds just the records that they were told,
// which are so many and take up so many bytes.
fn are_read_back<R: Abort + Threads + Wait + Sync>(
    rt: &R,
    alloc: Global,
    work: Vec<Vec<Job>>,
    count: usize,
    bytes: u64,
) -> Result<(), Fail> {
    let Ended { work, closed } = filled(rt, alloc, SETUP, Vec::new(alloc), work, 2)?;
    let told = all_told(rt, alloc, &work)?;
    assert_eq!(rt; told.len(), count);
    assert_eq!(rt; (closed.end, closed.down), (end_behind(bytes)?, None));
    let mut disk = closed.disk;
    assert!(rt; records_on(alloc, &mut disk)? == told);
    Ok(())
}

#[test]
fn two_backends_commit_side_by_side(rt: HostRuntime) -> Result<(), Fail> {
    let work = commits_of(rt.alloc(), &[200, 200])?;
    are_read_back(&rt, rt.alloc(), work, 400, 400 * 40)
}

// The ring has four pages, and the first record, of 60,000 bytes, takes up more than seven. A
// commit behind it makes it durable.
#[test]
fn a_record_longer_than_the_ring_goes_in_beside_commits(rt: HostRuntime) -> Result<(), Fail> {
    let alloc = rt.alloc();
    let mut jobs = Vec::new(alloc);
    let long = Insertion::of(record(alloc, 1, 59_971)?);
    jobs.push(Job::of(LogCall::Insert(long)))?;
    jobs.push(Job::of(LogCall::Commit(Insertion::of(transaction(alloc, 2)?))))?;
    let mut work = Vec::new(alloc);
    work.push(jobs)?;
    work.push(commits(alloc, CommitKind::Hard, 3, 5)?)?;
    are_read_back(&rt, alloc, work, 7, 60_000 + 6 * 40)
}

// Three backends insert records of 60,000 bytes, each longer than the ring, and switch segments
// beside each other, and then commit. All of them end, and a reader finds what they were told, in
// order.
#[test]
fn switches_go_in_beside_long_records(rt: HostRuntime) -> Result<(), Fail> {
    let alloc = rt.alloc();
    for _ in 0..10 {
        let mut work = Vec::new(alloc);
        for _ in 0..3 {
            work.push(long_records_and_switches(alloc)?)?;
        }
        let setup = Setup {
            cap_segments: 4,
            ..SETUP
        };
        let Ended { work, closed } = filled(&rt, alloc, setup, Vec::new(alloc), work, 3)?;
        assert_eq!(&rt; closed.down, None);
        let mut disk = closed.disk;
        let found = records_on(alloc, &mut disk)?;
        let mut starts = Vec::new(alloc);
        for record in &found {
            starts.push(record.start)?;
        }
        assert_eq!(&rt; starts, starts_told(alloc, &work)?);
    }
    Ok(())
}

fn long_records_and_switches(alloc: Global) -> Result<Vec<Job>, Fail> {
    let mut jobs = Vec::new(alloc);
    for call in [1, 2, 3] {
        let long = Insertion::of(record(alloc, call, 59_971)?);
        jobs.push(Job::of(LogCall::Insert(long)))?;
        if call == 1 {
            jobs.push(Job::of(LogCall::Switch(SegmentEnd::new(alloc))))?;
        }
    }
    jobs.push(Job::of(LogCall::Commit(Insertion::of(transaction(alloc, 4)?))))?;
    Ok(jobs)
}

// Where the records start that backends were told of, sorted.
fn starts_told(alloc: Global, work: &[Vec<Job>]) -> Result<Vec<u64>, Fail> {
    let mut starts = Vec::new(alloc);
    for jobs in work {
        for job in jobs {
            if let Some(start) = start_told(job) {
                starts.push(start.0)?;
            }
        }
    }
    starts.sort()?;
    Ok(starts)
}

// Three backends commit on a disk whose fifth counted call fails. What a crash leaves has each
// record that was told to be durable.
#[test]
fn what_was_told_durable_outlives_a_fault(rt: HostRuntime) -> Result<(), Fail> {
    let alloc = rt.alloc();
    for _ in 0..20 {
        let work = commits_of(alloc, &[20; 3])?;
        let Ended { work, closed } = filled(&rt, alloc, SETUP, vec![in alloc; 5; 1]?, work, 3)?;
        assert_eq!(rt; closed.down, Some(1));
        outlive(&rt, alloc, &closed.disk, &all_told(&rt, alloc, &work)?)?;
    }
    Ok(())
}

fn outlive<R: Abort>(rt: &R, alloc: Global, disk: &MemDisk, told: &[ReadBack]) -> Result<(), Fail> {
    for pick in [Pick::Old, Pick::New, Pick::Odd] {
        let mut left = disk.crash(alloc, disk.moment(), pick)?;
        let found = records_on(alloc, &mut left)?;
        assert!(rt; has_all(&found, told));
    }
    Ok(())
}

fn has_all(found: &[ReadBack], told: &[ReadBack]) -> bool {
    for record in told {
        if !found.contains(record) {
            return false;
        }
    }
    true
}
