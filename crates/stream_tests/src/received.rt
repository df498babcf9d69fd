//! Standbys that are closed with pages that wait for a sync, and opened again without a crash.

use crate::listed::Listed;
use crate::standbys::{disk_of, open};
use crate::stops::{END, TwoFrames};
use segment_disk::{Disk, MemDisk, MemSource, Pick};
use std::alloc::Global;
use std::process::Abort;
use std::test::Fail;
use wal_stream::{FRAME_SIZE, ReceivingEnd, Standby, receive};
use wal_types::Lsn;

// A crash that loses all that waits leaves the record that a standby told as hardened.
fn is_durable(rt: &impl Abort, alloc: Global, disk: MemDisk) -> Result<(), Fail> {
    let mut left = disk.crash(alloc, disk.moment(), Pick::Old)?;
    let listed = Listed::of(alloc, &mut left)?;
    assert_eq!(rt; (listed.ends.len(), listed.end), (1, Ok(END)));
    Ok(())
}

// The next standby has nothing to take: what it found has become durable by its opening.
#[test]
fn what_waits_is_durable_behind_an_opening(rt: HostRuntime) -> Result<(), Fail> {
    let alloc = rt.alloc();
    let frames = TwoFrames::new(alloc)?;
    let mut first = open(alloc, disk_of(alloc, &[])?)?;
    first.accept(&frames.first)?;
    first.accept(&frames.second)?;
    let mut second = open(alloc, first.close())?;
    assert_eq!(rt; second.harden(), Ok(Lsn(END)));
    is_durable(&rt, alloc, second.close())
}

// The bytes of the first frames, and then a front of the first one again.
fn bytes_of(
    alloc: Global,
    frames: &TwoFrames,
    count: usize,
    front: usize,
) -> Result<Vec<u8>, Fail> {
    let mut bytes = Vec::new(alloc);
    if count > 0 {
        bytes.extend_from_slice(&frames.first)?;
    }
    if count > 1 {
        bytes.extend_from_slice(&frames.second)?;
    }
    bytes.extend_from_slice(&frames.first[..front.min(FRAME_SIZE)])?;
    Ok(bytes)
}

// A source hands out bytes, and fails at a read if that is not 0: how it ends, how many frames were
// taken and how many were old, and up to where the standby has the log then.
fn receives(
    alloc: Global,
    standby: &mut Standby<MemDisk>,
    bytes: Vec<u8>,
    failing: u64,
) -> Result<(ReceivingEnd, u64, u64, u64), Fail> {
    let mut frame = [0; FRAME_SIZE];
    let mut source = MemSource::new(bytes, [failing].to_vec(alloc)?);
    let received = receive(&mut frame, &mut source, standby);
    let counts = received.counts;
    Ok((received.ended, counts.taken, counts.old, received.upto.0))
}

// A source fails within the frame behind the first ones, so nothing is hardened; the next one hands
// out both frames, to a standby that is opened on the same disk: it has the first ones only if they
// hold the record.
#[test]
fn a_source_fails_within_a_frame(rt: HostRuntime) -> Result<(), Fail> {
    let alloc = rt.alloc();
    let frames = TwoFrames::new(alloc)?;
    for (count, reached, taken) in [(1, 0x10_2000, 2), (2, END, 0)] {
        let mut first = open(alloc, disk_of(alloc, &[])?)?;
        let bytes = bytes_of(alloc, &frames, count, 4000)?;
        let ended = receives(alloc, &mut first, bytes, count as u64 + 2)?;
        assert_eq!(rt;
            ended,
            (ReceivingEnd::SourceFault, count as u64, 0, reached)
        );
        let mut second = open(alloc, first.close())?;
        let bytes = bytes_of(alloc, &frames, 2, 0)?;
        let ended = receives(alloc, &mut second, bytes, 0)?;
        assert_eq!(rt; ended, (ReceivingEnd::Source, taken, 2 - taken, END));
        is_durable(&rt, alloc, second.close())?;
    }
    Ok(())
}
