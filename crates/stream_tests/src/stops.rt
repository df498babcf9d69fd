//! Standbys that stop at each of their calls, and what crashes leave of them then.

use crate::listed::Listed;
use crate::log::{FrameBytes, Log};
use crate::standbys::{disk_of, open, opened};
use segment_disk::{Disk, MemDisk, Pick};
use std::alloc::Global;
use std::process::Abort;
use std::test::Fail;
use wal_stream::{Standby, StandbyErr};
use wal_types::Lsn;

// A record of a page and one byte, and where it ends.
const SCRIPT: &[u8] = b"I 1 10 00 8124*5a\n";

pub(crate) const END: u64 = 0x10_2020;

// The calls of a standby that takes its first page and hardens, and of another one on the same disk
// that takes both: it makes durable what is there and clears it, since no record ends in it.
const CALLS: u64 = 9;

/// The frames of a record's two pages.
#[derive(Drop)]
pub(crate) struct TwoFrames {
    pub(crate) first: FrameBytes,
    pub(crate) second: FrameBytes,
}

impl TwoFrames {
    pub(crate) fn new(alloc: Global) -> Result<TwoFrames, Fail> {
        let log = Log::of_script(alloc, SCRIPT)?;
        Ok(TwoFrames {
            first: log.frame(0, None)?,
            second: log.frame(1, None)?,
        })
    }

    // Offers both to a standby; up to where it hardens.
    fn offer(&self, standby: &mut Standby<MemDisk>) -> Result<Lsn, StandbyErr> {
        standby.accept(&self.first)?;
        standby.accept(&self.second)?;
        standby.harden()
    }

    // A disk on which two standbys ran, up to the call that fails.
    fn disk_behind(&self, alloc: Global, failing: u64) -> Result<MemDisk, Fail> {
        let mut standby = open(alloc, disk_of(alloc, &[failing])?)?;
        if standby.accept(&self.first).is_err() || standby.harden().is_err() {
            return Ok(standby.close());
        }
        match opened(alloc, standby.close()) {
            Ok(mut standby) => {
                let _ = self.offer(&mut standby);
                Ok(standby.close())
            }
            Err(disk) => Ok(disk),
        }
    }
}

// A standby is opened on a disk, and takes both frames: the log is whole then.
fn ends(rt: &impl Abort, alloc: Global, frames: &TwoFrames, disk: MemDisk) -> Result<(), Fail> {
    let mut standby = open(alloc, disk)?;
    assert_eq!(rt; frames.offer(&mut standby), Ok(Lsn(END)));
    let listed = Listed::of(alloc, &mut standby.close())?;
    assert_eq!(rt; (listed.ends.len(), listed.end), (1, Ok(END)));
    Ok(())
}

// What a crash leaves at a moment, by each pick.
fn outlives(
    rt: &impl Abort,
    alloc: Global,
    frames: &TwoFrames,
    disk: &MemDisk,
    moment: u64,
) -> Result<(), Fail> {
    for pick in [Pick::Old, Pick::New, Pick::Odd] {
        ends(rt, alloc, frames, disk.crash(alloc, moment, pick)?)?;
    }
    Ok(())
}

// Each call fails in turn, and the crash comes behind it; or none fails, and it comes anywhere.
#[test]
fn a_standby_that_stops_is_opened_again(rt: HostRuntime) -> Result<(), Fail> {
    let alloc = rt.alloc();
    let frames = TwoFrames::new(alloc)?;
    let whole = frames.disk_behind(alloc, 0)?;
    assert_eq!(rt; (whole.moment(), whole.faults()), (CALLS, 0));
    outlives(&rt, alloc, &frames, &whole, 0)?;
    for call in 1..CALLS + 1 {
        outlives(&rt, alloc, &frames, &whole, call)?;
        let failed = frames.disk_behind(alloc, call)?;
        assert_eq!(rt; (failed.moment(), failed.faults()), (call, 1));
        outlives(&rt, alloc, &frames, &failed, call)?;
    }
    Ok(())
}

// What a standby answers to its two frames and a harden where one of their calls fails, up to that
// one. The harden comes last.
fn fails(rt: &impl Abort, alloc: Global, frames: &TwoFrames, failing: u64) -> Result<(), Fail> {
    let fault = StandbyErr::Disk { faults: 1 };
    let mut standby = open(alloc, disk_of(alloc, &[failing])?)?;
    assert_eq!(rt; frames.offer(&mut standby), Err(fault));
    let upto = standby.upto();
    // The fault is answered from then on, also to what is no frame.
    for count in [0, 8224] {
        assert_eq!(rt; standby.accept(&frames.first[..count]), Err(fault));
        assert_eq!(rt; standby.harden(), Err(fault));
    }
    assert_eq!(rt; standby.upto(), upto);
    let disk = standby.close();
    assert_eq!(rt; (disk.moment(), disk.faults()), (failing, 1));
    Ok(())
}

// A segment is made, two pages are written, and one sync is made.
#[test]
fn a_disk_that_failed_is_not_called_again(rt: HostRuntime) -> Result<(), Fail> {
    let alloc = rt.alloc();
    let frames = TwoFrames::new(alloc)?;
    for failing in 1..5 {
        fails(&rt, alloc, &frames, failing)?;
    }
    Ok(())
}
