// Where a segment's last sync stands among the calls, so that a crash knows which of its writes are
// durable: those before it. A create that made the segment counts as one, since its zeros are
// durable; a sync that failed does not.
ghost use Rattle.std.specs.Prelude.{◌≡◌, MatchOption};
ghost use Rattle.segment_disk.specs.Crash.{HasPages, IsSyncedUpto};
ghost use Rattle.segment_disk.specs.First.{first_state};
ghost use Rattle.segment_disk.specs.Tape.{after_calls};

use crate::disk::{Call, CallKind};
use crate::memory::first::{FirstSegment, find_first};

/// A segment as a list of calls leaves it: how many pages it has, and how many of the calls lead to
/// its last sync.
#[derive(Debug, Drop)]
pub struct Span {
    pub pages: usize,
    pub since: usize,
}

/// The span of a segment, if it is there.
pub fn span_of(first: &[FirstSegment], calls: &[Call], segment: u64) -> Option<Span>
    ensures { MatchOption result (after_calls (first_state first.now) calls.now segment ≡ None)
        (λ span. HasPages (after_calls (first_state first.now) calls.now segment) span.pages
        × IsSyncedUpto (first_state first.now) calls.now segment span.since) }
{
    let mut there = false;
    let mut pages = 0;
    let mut since = 0;
    if let Some(stored) = find_first(first, segment) {
        there = true;
        pages = stored.page_count();
    }
    for (i, call) in calls.iter().enumerate() {
        if call.segment == segment {
            match &call.kind {
                CallKind::Create { made } => {
                    if *made {
                        there = true;
                        pages = call.geometry.pages() as usize;
                        since = i + 1;
                    }
                }
                CallKind::Sync => {
                    if call.done {
                        since = i + 1;
                    }
                }
                CallKind::Write { .. } => {}
            }
        }
    }
    if there {
        Some(Span { pages, since })
    } else {
        None
    }
}
