// The image that a crash leaves behind a list of calls, as a pick says. Segment by segment in
// rising order and page by page: first the page as of the segment's last sync, then over it, word
// by word, what the pick takes of the writes since. The numbers that a pick lists are used up in
// that order, 1,024 for each page that is undecided.
ghost use Rattle.std.specs.Prelude.{◌≡◌, ℕ, ◌*◌, IsTrue, is_some, IfOk, length, drop};
ghost use Rattle.segment_disk.specs.Failing.{is_listed};
ghost use Rattle.segment_disk.specs.First.{first_state, page_at};
ghost use Rattle.segment_disk.specs.Crash.{HasPages, IsSyncedUpto, numbers_of};
ghost use Rattle.segment_disk.specs.Picks.{IsPicked, IsPickedSegment, choice_of, undecided_in};
ghost use Rattle.segment_disk.specs.DiskImage.{image_as_read};
ghost use Rattle.segment_disk.specs.Present.{HasSegments};
ghost use Rattle.segment_disk.specs.Tape.{after_calls};

use crate::disk::{Call, PageBytes};
use crate::memory::Memory;
use crate::memory::first::FirstSegment;
use crate::memory::pick::Pick;
use crate::memory::reading::read_back;
use crate::memory::segments::SegmentList;
use crate::memory::span::{Span, span_of};
use crate::memory::taking::take_writes;
use std::alloc::Global;

/// What a crash leaves of a segment: its pages, and how many of them were undecided.
#[derive(Debug, Drop)]
struct SegmentLeft {
    pages: Vec<PageBytes>,
    undecided: usize,
}

/// What is listed behind the words of this many pages.
fn listed_behind(numbers: &[u32], pages: usize) -> &[u32]
    ensures { result.now ≡ drop (1024 * pages) numbers.now }
{
    &numbers[pages.saturating_mul(1024).min(numbers.len())..]
}

/// What a crash behind these calls leaves of a segment that is there. `numbers` has what a pick
/// lists for its words and those behind it.
fn segment_left<'a>(
    alloc: Global,
    first: &'a [FirstSegment],
    calls: &'a [Call],
    segment: u64,
    span: &Span,
    pick: &Pick,
    numbers: &'a [u32],
) -> Result<SegmentLeft, Memory>
    // The segment is there, and `span` says how many pages it has and which calls lead to its last
    // sync.
    requires pages { HasPages (after_calls (first_state first.now) calls.now segment)
        span.now.pages }
    requires since { IsSyncedUpto (first_state first.now) calls.now segment span.now.since }
    ensures left { IfOk result (λ left. (before : ℕ)
        → numbers.now ≡ drop (1024 * before) (numbers_of pick.now)
        → IsPickedSegment (choice_of pick.now) before
        (after_calls (first_state first.now) calls.now segment)
        (Some (record { pages = length left.pages.items; page = page_at left.pages.items }))) }
    ensures undecided { IfOk result (λ left. left.undecided
        ≡ undecided_in (after_calls (first_state first.now) calls.now segment)) }
{
    let mut pages = Vec::with_capacity(alloc, span.pages)?;
    let mut undecided = 0;
    let mut rest = numbers;
    for page in 0..span.pages {
        let mut bytes = [0; 8192];
        read_back(first, &calls[..span.since], segment, page, &mut bytes);
        if take_writes(&calls[span.since..], segment, page, pick, rest, &mut bytes) > 0 {
            undecided += 1;
            rest = listed_behind(rest, 1);
        }
        pages.push(PageBytes { bytes })?;
    }
    Ok(SegmentLeft { pages, undecided })
}

/// The segments that a crash behind these calls leaves as a pick says. The list has at least those
/// that are there.
pub fn image_left<'a>(
    alloc: Global,
    first: &'a [FirstSegment],
    calls: &'a [Call],
    segments: &SegmentList,
    pick: &'a Pick,
) -> Result<Vec<FirstSegment>, Memory>
    requires { (number : ℕ)
        → IsTrue (is_some (after_calls (first_state first.now) calls.now number))
        → IsTrue (is_listed segments.now.numbers.items number) }
    ensures picked { IfOk result (λ left. IsPicked (choice_of pick.now)
        (after_calls (first_state first.now) calls.now)
        (image_as_read (first_state left.items))) }
    ensures count { IfOk result (λ left. HasSegments
        (after_calls (first_state first.now) calls.now) (length left.items)) }
{
    let mut left = Vec::new(alloc);
    let mut numbers = pick.numbers();
    let mut last = None;
    while let Some(number) = segments.next_after(last) {
        if let Some(span) = span_of(first, calls, number) {
            let segment = segment_left(alloc, first, calls, number, &span, pick, numbers)?;
            numbers = listed_behind(numbers, segment.undecided);
            left.push(FirstSegment {
                number,
                pages: segment.pages,
            })?;
        }
        last = Some(number);
    }
    Ok(left)
}
