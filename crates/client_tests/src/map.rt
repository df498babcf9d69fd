//! Maps on a disk in memory. Places and moments are those of docs/FORMATS.md: the first commit
//! makes a segment, writes a page and syncs; each later one writes and syncs.

ghost use Rattle.std.specs.Prelude.{◌≡◌, IfOk};
ghost use Rattle.machine_state.specs.Opened.{first_view};
ghost use Rattle.wal_rule.specs.Passes.{view_of_pass};
ghost use Rattle.wal_log.specs.Logs.{IsPassOfLog, opening_of_log};
ghost use Rattle.durable_map.specs.Stores.{IsOpenMap};

use durable_map::{ChangeErr, DurableMap, LONGEST, MapFault, MapFaultKind};
use log_workers::{Insertion, Job, LogCall, transaction, work_side_by_side};
use segment_disk::{Disk, MemDisk, Pick};
use std::alloc::Global;
use std::sync::Wait;
use std::test::Fail;
use std::thread::Threads;
use wal_log::{Cause, CommitErr, Pass, Sealed, Setup, Wal};
use wal_types::Lsn;

pub const SETUP: Setup = Setup {
    seg_size: 1 << 20,
    ring_pages: 4,
    cap_segments: 3,
    sysid: 1,
    passes: 1,
};

// A disk that holds nothing, and whose counted call of this number fails.
pub fn disk(alloc: Global, fail: u64) -> Result<MemDisk, Fail> {
    let mut fails = Vec::new(alloc);
    fails.push(fail)?;
    Ok(MemDisk::new(alloc, 4, 200, fails, Vec::new(alloc))?)
}

pub fn open(alloc: Global, disk: MemDisk) -> Result<DurableMap<MemDisk>, Fail>
    ensures { IfOk result IsOpenMap }
{
    match DurableMap::open(alloc, disk, SETUP) {
        Ok(map) => Ok(map),
        Err(_) => Err(Fail::from("a map")),
    }
}

pub fn bytes(alloc: Global, text: &[u8]) -> Result<Vec<u8>, Fail> {
    Ok(Vec::from_slice(alloc, text)?)
}

fn sealed(start: u64, end: u64, moment: u64) -> Result<Sealed, ChangeErr> {
    Ok(Sealed {
        start: Lsn(start),
        end: Lsn(end),
        moment,
    })
}

// The last change of a key wins, and so it does once the map is opened again.
#[test]
fn the_last_change_wins(rt: HostRuntime) -> Result<(), Fail> {
    let alloc = rt.alloc();
    let mut map = open(alloc, disk(alloc, 0)?)?;
    let told = map.set(&rt, b"a", bytes(alloc, b"1")?);
    assert_eq!(rt; told, sealed(0x10_0028, 0x10_0048, 3));
    let told = map.set(&rt, b"b", bytes(alloc, b"")?);
    assert_eq!(rt; told, sealed(0x10_0048, 0x10_0068, 5));
    let told = map.set(&rt, b"a", bytes(alloc, b"two")?);
    assert_eq!(rt; told, sealed(0x10_0068, 0x10_0090, 7));
    let told = map.del(&rt, b"b");
    assert_eq!(rt; told, sealed(0x10_0090, 0x10_00B0, 9));
    assert_eq!(rt; map.get(b"a"), Some(b"two".as_slice()));
    assert_eq!(rt; map.get(b"b"), None);
    let closed = map.close();
    let again = open(alloc, closed.disk)?;
    assert_eq!(rt; again.get(b"a"), Some(b"two".as_slice()));
    assert_eq!(rt; again.get(b"b"), None);
    assert_eq!(rt; again.get(b""), None);
    Ok(())
}

// A log to go on with, and its first pass.
fn reopen(alloc: Global, disk: MemDisk, setup: Setup) -> Result<(Wal<MemDisk>, Pass), Fail>
    ensures pass { IfOk result (λ r. IsPassOfLog r.0 r.1) }
    ensures view { IfOk result (λ r. view_of_pass r.1 ≡ first_view (opening_of_log r.0)) }
{
    match Wal::reopen(alloc, disk, setup) {
        Ok((log, first, _)) => Ok((log, first)),
        Err(_) => Err(Fail::from("a log to go on with")),
    }
}

// A map's log of one change, gone on with by the commit record of a transaction.
fn gone_on_with<R: Threads + Wait + Sync>(rt: &R, alloc: Global) -> Result<MemDisk, Fail> {
    let mut map = open(alloc, disk(alloc, 0)?)?;
    if map.set(rt, b"a", bytes(alloc, b"1")?).is_err() {
        return Err(Fail::from("a change"));
    }
    let closed = map.close();
    let setup = Setup { passes: 2, ..SETUP };
    let (log, mut first) = reopen(alloc, closed.disk, setup)?;
    let mut jobs = Vec::new(alloc);
    jobs.push(Job::of(LogCall::Commit(Insertion::of(transaction(alloc, 7)?))))?;
    let mut work = Vec::new(alloc);
    work.push(jobs)?;
    if (first.spare() as usize) < work.len() {
        return Err(Fail::from("a spare pass"));
    }
    work_side_by_side(rt, alloc, &log, &mut first, work, 1)?;
    let closed = log.close(first);
    Ok(closed.disk)
}

// A commit record of a transaction is no change: it is refused by its place, and the disk is left
// as it was.
#[test]
fn another_programs_record_is_refused(rt: HostRuntime) -> Result<(), Fail> {
    let alloc = rt.alloc();
    let disk = gone_on_with(&rt, alloc)?;
    let moment = disk.moment();
    let Err(MapFault { disk, kind }) = DurableMap::open(alloc, disk, SETUP) else {
        panic!(rt; "a log with another program's record");
    };
    let at = Lsn(0x10_0048);
    assert_eq!(rt;
        (kind, disk.moment()),
        (MapFaultKind::NoChange { at }, moment)
    );
    Ok(())
}

// The second commit's sync fails: the map is as it was, and all that comes behind is refused.
#[test]
fn a_failed_commit_leaves_the_map(rt: HostRuntime) -> Result<(), Fail> {
    let alloc = rt.alloc();
    let mut map = open(alloc, disk(alloc, 5)?)?;
    assert!(rt; map.set(&rt, b"a", bytes(alloc, b"1")?).is_ok());
    let told = map.set(&rt, b"a", bytes(alloc, b"2")?);
    let failed = CommitErr {
        cause: Cause::Disk { faults: 1 },
        reserved: Some(Lsn(0x10_0048)),
    };
    assert_eq!(rt; told, Err(ChangeErr::Refused(failed)));
    let down = CommitErr {
        cause: Cause::Down { faults: 1 },
        reserved: None,
    };
    assert_eq!(rt; map.del(&rt, b"a"), Err(ChangeErr::Refused(down)));
    assert_eq!(rt; map.get(b"a"), Some(b"1".as_slice()));
    Ok(())
}

// A key of 64 KiB and a value of as much are the longest, and come back from the log.
#[test]
fn the_longest_are_kept(rt: HostRuntime) -> Result<(), Fail> {
    let alloc = rt.alloc();
    let key = vec![in alloc; b'k'; LONGEST]?;
    let mut map = open(alloc, disk(alloc, 0)?)?;
    let told = map.set(&rt, key.as_slice(), vec![in alloc; b'v'; LONGEST]?);
    assert!(rt; told.is_ok());
    let longer = vec![in alloc; b'v'; LONGEST + 1]?;
    assert_eq!(rt; map.set(&rt, b"a", longer), Err(ChangeErr::TooLong));
    let closed = map.close();
    let again = open(alloc, closed.disk)?;
    let length = match again.get(key.as_slice()) {
        Some(value) => value.len(),
        None => 0,
    };
    assert_eq!(rt; length, LONGEST);
    Ok(())
}

// The value that a map has which is opened behind a crash at a moment, 0 for none.
fn left_at(alloc: Global, disk: &MemDisk, moment: u64, pick: Pick) -> Result<u8, Fail> {
    let left = open(alloc, disk.crash(alloc, moment, pick)?)?;
    match left.get(b"a") {
        Some([value]) => Ok(*value),
        _ => Ok(0),
    }
}

// Whatever a crash leaves of the disk at a moment, the map that is opened there has the last value
// that was answered by then, or the one that was being set.
#[test]
fn answered_changes_outlive_a_crash(rt: HostRuntime) -> Result<(), Fail> {
    let alloc = rt.alloc();
    let mut map = open(alloc, disk(alloc, 0)?)?;
    assert!(rt; map.set(&rt, b"a", bytes(alloc, &[1])?).is_ok());
    assert!(rt; map.set(&rt, b"a", bytes(alloc, &[2])?).is_ok());
    assert!(rt; map.set(&rt, b"a", bytes(alloc, &[3])?).is_ok());
    let closed = map.close();
    let disk = closed.disk;
    // They were answered at the moments 3, 5 and 7.
    for (moment, answered) in [(0, 0), (2, 0), (3, 1), (4, 1), (5, 2), (6, 2), (7, 3)] {
        let old = left_at(alloc, &disk, moment, Pick::Old)?;
        assert_eq!(rt; old, answered, "the oldest words at {moment}");
        let odd = left_at(alloc, &disk, moment, Pick::Odd)?;
        assert!(rt;
            odd == answered || odd == answered.wrapping_add(1),
            "{odd} at {moment}"
        );
    }
    // At moment 4 the second set's page is written and not synced.
    assert_eq!(rt; left_at(alloc, &disk, 4, Pick::New)?, 2);
    Ok(())
}
