//! A flush that is tried while another pass's sync is under way.

ghost use Rattle.std.specs.Prelude.{◌≡◌, false, IfOk};
ghost use Rattle.wal_spelling.specs.Spelling.{is_assembled_switch};
ghost use Rattle.wal_log.specs.Logs.{IsPassOfLog};

use crate::filled::SETUP;
use byte_position::{Geometry, Page};
use log_workers::transaction;
use segment_disk::{Disk, Failed, MemDisk};
use std::alloc::Global;
use std::sync::Wait;
use std::sync::atomic::{AtomicU64, Ordering};
use std::test::Fail;
use std::thread;
use std::thread::Threads;
use wal_log::{CommitErr, Hard, Pass, Sealed, TryFlushErr, Wal};
use wal_spelling::Body;
use wal_types::Lsn;

// How often who waits looks for the other before it goes on alone.
const MOST_TURNS: u32 = 10_000_000;

const END: Lsn = Lsn(0x10_0050);

// What two threads tell each other.
#[derive(Drop)]
struct Meeting {
    sync_begun: AtomicU64,
    flush_tried: AtomicU64,
}

fn waits_for(word: &AtomicU64) {
    for _ in 0..MOST_TURNS {
        if word.load(Ordering::SeqCst) != 0 {
            return;
        }
        thread::yield_now();
    }
}

// A disk in memory, each sync of which waits until a flush was tried beside it.
#[derive(Drop)]
struct HeldDisk<'a> {
    disk: MemDisk,
    meeting: &'a Meeting,
}

impl<'a> Disk for HeldDisk<'a> {
    ghost use Rattle.std.specs.Prelude.{refl};
    ghost use Rattle.segment_disk.specs.MemDisk.{tape_of, moment_of, faults_of};

    ghost tape = { λ s. tape_of s.disk };

    ghost moment = { λ s. moment_of s.disk };

    ghost faults = { λ s. faults_of s.disk };

    ghost counts = { λ s. refl };

    fn create(&mut self, geometry: Geometry, segment: u64) -> Result<(), Failed> {
        self.disk.create(geometry, segment)
    }

    fn write_page(
        &mut self,
        geometry: Geometry,
        segment: u64,
        page: u32,
        bytes: &Page,
    ) -> Result<(), Failed> {
        self.disk.write_page(geometry, segment, page, bytes)
    }

    fn sync(&mut self, geometry: Geometry, segment: u64) -> Result<(), Failed> {
        self.meeting.sync_begun.store(1, Ordering::SeqCst);
        waits_for(&self.meeting.flush_tried);
        self.disk.sync(geometry, segment)
    }

    fn read_page(
        &mut self,
        geometry: Geometry,
        segment: u64,
        page: u32,
        bytes: &mut Page,
    ) -> Result<bool, Failed> {
        self.disk.read_page(geometry, segment, page, bytes)
    }

    fn moment(&self) -> u64 {
        self.disk.moment()
    }

    fn faults(&self) -> u64 {
        self.disk.faults()
    }
}

// What a try of a flush is told once a sync has begun.
fn tried<'a>(log: &Wal<HeldDisk<'a>>, meeting: &Meeting, pass: Pass) -> Result<Hard, TryFlushErr>
    requires { IsPassOfLog log.now pass }
{
    let mut pass = pass;
    waits_for(&meeting.sync_begun);
    let told = log.try_flush(&mut pass, END);
    meeting.flush_tried.store(1, Ordering::SeqCst);
    told
}

fn committed<'a, R: Wait>(
    rt: &R,
    log: &Wal<HeldDisk<'a>>,
    pass: Pass,
    body: &Body,
) -> Result<Sealed, CommitErr>
    requires pass { IsPassOfLog log.now pass }
    requires inserted { is_assembled_switch body.now ≡ false }
{
    let mut pass = pass;
    log.commit(rt, &mut pass, body)
}

// A log on such a disk, with two passes.
fn shared<'a>(alloc: Global, meeting: &'a Meeting) -> Result<(Wal<HeldDisk<'a>>, Pass, Pass), Fail>
    ensures first { IfOk result (λ s. IsPassOfLog s.0 s.1) }
    ensures second { IfOk result (λ s. IsPassOfLog s.0 s.2) }
{
    let disk = MemDisk::new(alloc, 4, 100, Vec::new(alloc), Vec::new(alloc))?;
    let Ok((log, mut first)) = Wal::open(alloc, HeldDisk { disk, meeting }, SETUP) else {
        return Err(Fail::from("a log on an empty disk"));
    };
    if first.spare() == 0 {
        return Err(Fail::from("a spare pass"));
    }
    let second = log.split(&mut first);
    Ok((log, first, second))
}

fn beside<'a, R: Threads + Wait + Sync>(
    rt: &R,
    log: &Wal<HeldDisk<'a>>,
    meeting: &Meeting,
    first: Pass,
    second: Pass,
    body: &Body,
) -> (Result<Sealed, CommitErr>, Result<Hard, TryFlushErr>)
    requires first { IsPassOfLog log.now first }
    requires second { IsPassOfLog log.now second }
    requires inserted { is_assembled_switch body.now ≡ false }
{
    thread::join(
        rt,
        move ||
            requires first { IsPassOfLog log.now first }
            requires inserted { is_assembled_switch body.now ≡ false }
        { committed(rt, log, first, body) },
        move ||
            requires { IsPassOfLog log.now second }
        { tried(log, meeting, second) },
    )
}

// The first pass has the turn to write, whose word is one more than its number.
#[test]
fn a_flush_is_told_that_another_one_writes(rt: HostRuntime) -> Result<(), Fail> {
    let alloc = rt.alloc();
    let meeting = Meeting {
        sync_begun: AtomicU64::new(0),
        flush_tried: AtomicU64::new(0),
    };
    let body = transaction(alloc, 1)?;
    let (log, first, second) = shared(alloc, &meeting)?;
    let (sealed, told) = beside(&rt, &log, &meeting, first, second, &body);
    assert!(&rt; told == Err(TryFlushErr::Turn { word: 1 }));
    let sealed_there = Sealed {
        start: Lsn(0x10_0028),
        end: END,
        moment: 3,
    };
    assert!(&rt; sealed == Ok(sealed_there));
    Ok(())
}
