// The frames that a source hands out are taken one after another, each answered by the standby's
// rules, and what they brought is hardened once, at the end (PostgreSQL's walreceiver.c,
// WalReceiverMain and XLogWalRcvProcessMsg, which flushes whenever its connection has no more for
// the moment, and tells the primary; here nothing goes back to it, so one harden at the end does).
// A frame that is old, bad or behind a gap ends nothing, since a link may repeat, cut and reorder;
// walreceiver.c takes what comes as the next of the log.
ghost use Rattle.std.specs.Prelude.{◌≡◌, ◌^◌, ◌<◌, ◌↔◌, IfNone, IfSome, IsTrue};
ghost use Rattle.wal_stream.specs.Standby.{FailsToHarden, HasHardenedLog, standby_end};
ghost use Rattle.wal_stream.specs.Fetched.{source_state};
ghost use Rattle.wal_stream.specs.Receiving.{IsHardened, Receives, TakesFrames};
ghost use Rattle.wal_stream.specs.Steps.{HardensBehind, LooksBehind, TakesNext, counted_frames, counts_with};

use crate::answers::{Accepted, StandbyErr};
use crate::fetching::{Fetched, fetch};
use crate::framing::FRAME_SIZE;
use crate::outcome::{FrameCounts, Received, ReceivingEnd};
use crate::standby::Standby;
use segment_disk::{Disk, Source};

/// How many frames are taken at most.
const MOST_FRAMES: u64 = 1_048_576;

const NO_FRAMES: FrameCounts = FrameCounts {
    taken: 0,
    old: 0,
    gap: 0,
    bad: 0,
};

/// Feeds a standby with the frames of a source, at most 1,048,576 of them, and tells what became of
/// them. `frame` is room for one; what it holds before and behind the call says nothing.
///
/// It ends at the source's end, at a byte behind the last frame that is taken, and at a frame of
/// another log; then it hardens, once. A rest that is shorter than a frame is passed over. It ends
/// at a fault of the source or of the disk too, and then makes no further device call. It takes no
/// memory.
pub fn receive<S: Source, D: Disk>(
    frame: &mut [u8; FRAME_SIZE],
    source: &mut S,
    standby: &mut Standby<D>,
) -> Received
    ensures { Receives D.tape D.moment D.faults
        (source_state S.left S.handed S.ends_told S.faults source.old)
        (source_state S.left S.handed S.ends_told S.faults source.new)
        standby.old standby.new result }
{
    let taken = take_frames(frame, source, standby);
    let ended = harden_behind(standby, taken.ended);
    Received {
        counts: taken.counts,
        upto: standby.upto(),
        ended,
    }
}

// The frames that were taken, and why no more.
#[derive(Clone, Copy)]
struct Taken {
    counts: FrameCounts,
    ended: ReceivingEnd,
}

// Takes frames until they end.
fn take_frames<S: Source, D: Disk>(
    frame: &mut [u8; FRAME_SIZE],
    source: &mut S,
    standby: &mut Standby<D>,
) -> Taken
    ensures { TakesFrames D.tape D.moment D.faults
        (source_state S.left S.handed S.ends_told S.faults source.old)
        (source_state S.left S.handed S.ends_told S.faults source.new)
        standby.old standby.new result.counts result.ended }
{
    let mut counts = NO_FRAMES;
    for _ in 0..MOST_FRAMES {
        match take_next(frame, source, standby, counts) {
            Ok(counted) => counts = counted,
            Err(ended) => return Taken { counts, ended },
        }
    }
    let ended = look_behind(frame, source);
    Taken { counts, ended }
}

// Takes the next frame, and counts its answer; or says why it ends there.
fn take_next<S: Source, D: Disk>(
    frame: &mut [u8; FRAME_SIZE],
    source: &mut S,
    standby: &mut Standby<D>,
    counts: FrameCounts,
) -> Result<FrameCounts, ReceivingEnd>
    requires { counted_frames counts < 2 ^ 63 }
    ensures { TakesNext D.tape D.moment D.faults
        (source_state S.left S.handed S.ends_told S.faults source.old)
        (source_state S.left S.handed S.ends_told S.faults source.new)
        standby.old standby.new counts result }
{
    match fetch(frame, source) {
        Fetched::Whole => with_answer(counts, standby.accept(frame)),
        Fetched::End => Err(ReceivingEnd::Source),
        Fetched::Fault => Err(ReceivingEnd::SourceFault),
    }
}

// The counts with one answer more; or how it ends with that.
fn with_answer(
    counts: FrameCounts,
    answer: Result<Accepted, StandbyErr>,
) -> Result<FrameCounts, ReceivingEnd>
    requires { counted_frames counts < 2 ^ 63 }
    ensures { result ≡ counts_with counts answer }
{
    match answer {
        Ok(Accepted::Taken { .. }) => Ok(FrameCounts {
            taken: counts.taken + 1,
            ..counts
        }),
        Ok(Accepted::Old { .. }) => Ok(FrameCounts {
            old: counts.old + 1,
            ..counts
        }),
        Err(StandbyErr::Gap { .. }) => Ok(FrameCounts {
            gap: counts.gap + 1,
            ..counts
        }),
        Err(StandbyErr::Bad) => Ok(FrameCounts {
            bad: counts.bad + 1,
            ..counts
        }),
        Err(StandbyErr::Diverged { at }) => Err(ReceivingEnd::Diverged { at }),
        Err(StandbyErr::Disk { faults }) => Err(ReceivingEnd::Disk { faults }),
    }
}

// Behind the last frame that is taken: whether a byte comes.
fn look_behind<S: Source>(frame: &mut [u8; FRAME_SIZE], source: &mut S) -> ReceivingEnd
    ensures { LooksBehind
        (source_state S.left S.handed S.ends_told S.faults source.old)
        (source_state S.left S.handed S.ends_told S.faults source.new) result }
{
    match source.read(&mut frame[..1]) {
        Ok(0) => ReceivingEnd::Source,
        Ok(_) => ReceivingEnd::TooMany,
        Err(_) => ReceivingEnd::SourceFault,
    }
}

// Hardens what the frames left, if no fault ended them; and tells how it ended then.
fn harden_behind<D: Disk>(standby: &mut Standby<D>, ended: ReceivingEnd) -> ReceivingEnd
    ensures { HardensBehind D.tape D.moment D.faults standby.old standby.new ended result }
{
    if !is_hardened(ended) {
        return ended;
    }
    match harden(standby) {
        None => ended,
        Some(faults) => ReceivingEnd::Disk { faults },
    }
}

// Whether what the frames left is hardened: no call is made of a disk that failed, and behind a
// source's fault the rest of the frames may still come, another time.
fn is_hardened(ended: ReceivingEnd) -> bool
    ensures { IsTrue result ↔ IsHardened ended }
{
    match ended {
        ReceivingEnd::Source => true,
        ReceivingEnd::TooMany => true,
        ReceivingEnd::Diverged { .. } => true,
        ReceivingEnd::SourceFault => false,
        ReceivingEnd::Disk { .. } => false,
    }
}

// Hardens, and tells the count of faults where the disk failed.
fn harden<D: Disk>(standby: &mut Standby<D>) -> Option<u64>
    ensures done { IfNone result (HasHardenedLog D.tape D.moment D.faults
        standby.old standby.new (standby_end standby.new)) }
    ensures failed { IfSome result (λ count.
        FailsToHarden D.tape D.moment D.faults standby.old standby.new count) }
{
    match standby.harden() {
        Ok(_) => None,
        Err(StandbyErr::Disk { faults }) => Some(faults),
        Err(StandbyErr::Bad) => unreachable!(),
        Err(StandbyErr::Gap { .. }) => unreachable!(),
        Err(StandbyErr::Diverged { .. }) => unreachable!(),
    }
}
