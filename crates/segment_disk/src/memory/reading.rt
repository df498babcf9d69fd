// What a page holds, computed from what was there at first and the calls since: the last write to
// it behind the last create of its segment, a failed write too, or zeros. Nothing is changed by it.
ghost use Rattle.std.specs.Prelude.{◌≡◌, length};
ghost use Rattle.segment_disk.specs.Tape.{IsPageRead, page_of_segment, after_calls};
ghost use Rattle.segment_disk.specs.First.{first_state};

use crate::disk::{Call, CallKind, PageBytes};
use crate::memory::first::{FirstSegment, find_first};
use byte_position::Page;

/// Reads a page of a segment as these calls leave it, and answers whether the segment has it.
pub fn read_back<'a>(
    first: &'a [FirstSegment],
    calls: &'a [Call],
    segment: u64,
    page: usize,
    bytes: &mut Page,
) -> bool
    ensures reads { IsPageRead
        (page_of_segment (after_calls (first_state first.now) calls.now segment) page) result
        bytes.new }
{
    let mut pages = 0;
    let mut last: Option<&PageBytes> = None;
    if let Some(stored) = find_first(first, segment) {
        pages = stored.page_count();
        last = stored.page(page);
    }
    for call in calls {
        if call.segment == segment {
            match &call.kind {
                CallKind::Create { made } => {
                    if *made {
                        pages = call.geometry.pages() as usize;
                        last = None;
                    }
                }
                CallKind::Write {
                    page: written,
                    bytes,
                } => {
                    if *written as usize == page {
                        last = Some(bytes);
                    }
                }
                CallKind::Sync => {}
            }
        }
    }
    *bytes = match last {
        Some(written) => written.bytes,
        None => [0; 8192],
    };
    page < pages
}
