// A disk is made with both ends of its queue.
ghost use Rattle.std.specs.Prelude.{◌≡◌, [], false, IfOk, Some};
ghost use Rattle.segment_disk.specs.Tape.{empty_state};
ghost use Rattle.handed_pages.specs.Handed.{read_tape};
ghost use Rattle.hosted_disk.specs.Hosted.{HasBothEnds, HasNoCalls, calls_taken, hosted_faults, hosted_tape};

use crate::calls::HostCalls;
use crate::disk::HostedDisk;
use crate::first_pages::FirstPages;
use crate::progress::HostProgress;
use crate::touched::Touched;
use crate::words::QueueWords;
use rtrb::RingBuffer;
use segment_disk::Memory;
use std::alloc::Global;
use std::sync::Arc;
use std::sync::atomic::{AtomicIn, Rule};

/// A disk that holds nothing, with room in its queue for so many calls, and what the host has of
/// it. All memory is taken here; a page that is written lies in the queue itself.
pub fn hosted_disk<H: Rule>(
    alloc: Global,
    calls: usize,
) -> Result<(HostedDisk, HostCalls<H>, HostProgress<H>), Memory>
    requires { H.invariant 0 }
    ensures disk { IfOk result (λ r. HasNoCalls r.0) }
    ensures nothing { IfOk result (λ r. hosted_tape r.0 ≡ Some (read_tape empty_state)) }
    ensures calls { IfOk result (λ r. (calls_taken r.1 ≡ []) × (r.1.acknowledged ≡ 0)
        × (r.1.failed ≡ false)) }
    ensures ends { IfOk result (λ r. HasBothEnds r.0 r.1) }
{
    let made = Arc::new(alloc, AtomicIn::new(0))?;
    let words = Arc::new(alloc, QueueWords::new())?;
    let (producer, consumer) = RingBuffer::new(alloc, calls)?;
    let progress = HostProgress {
        made: Arc::try_clone(&made)?,
        words: Arc::try_clone(&words)?,
        capacity: calls as u64,
    };
    let disk = HostedDisk {
        queue: producer,
        words: Arc::try_clone(&words)?,
        first: FirstPages::nothing(alloc),
        wanted: None,
        touched: Touched::Nothing,
        moment: 0,
        faults: 0,
    };
    let calls = HostCalls {
        queue: consumer,
        made,
        words,
        taken: 0,
        acknowledged: 0,
        failed: false,
    };
    Ok((disk, calls, progress))
}
