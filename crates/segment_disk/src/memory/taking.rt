// Words of the writes since a sync are put into the durable page, as a pick takes them: write by
// write, so that a later one overwrites what an earlier one put.
ghost use Rattle.std.specs.Prelude.{◌≡◌, [], ◌∷◌, MatchOption, length};
ghost use Rattle.segment_disk.specs.Crash.{AreTaken, HoldTaken, takes_write, writes_of};
ghost use Rattle.segment_disk.specs.Picks.{writes_to};

use crate::disk::{Call, CallKind, PageBytes};
use crate::memory::pick::Pick;
use byte_position::Page;

/// Puts those words of a written page into another that a pick takes of the write of this number.
fn take_words(bytes: &mut Page, written: &Page, pick: &Pick, rest: &[u32], number: usize)
    ensures { AreTaken (takes_write pick.now rest.now number) bytes.old written.now bytes.new }
{
    for word in 0..1024 {
        if pick.takes_write(rest, number, word) {
            let at = 8 * word;
            bytes[at..at + 8].copy_from_slice(&written[at..at + 8]);
        }
    }
}

/// What a call wrote to a page, if it did.
fn page_written(call: &Call, segment: u64, page: usize) -> Option<&PageBytes>
    ensures { MatchOption result (writes_to (writes_of (call.now ∷ []) segment) page ≡ [])
        (λ written. writes_to (writes_of (call.now ∷ []) segment) page
        ≡ written.now.bytes ∷ []) }
{
    if call.segment != segment {
        return None;
    }
    match &call.kind {
        CallKind::Write {
            page: written,
            bytes,
        } => {
            if *written as usize == page {
                Some(bytes)
            } else {
                None
            }
        }
        CallKind::Create { .. } | CallKind::Sync => None,
    }
}

/// Puts the words that a pick takes of the writes to a page into the durable page, and answers how
/// many writes there are. `rest` has the numbers listed from this page on.
pub fn take_writes(
    calls: &[Call],
    segment: u64,
    page: usize,
    pick: &Pick,
    rest: &[u32],
    bytes: &mut Page,
) -> usize
    ensures count { result ≡ length (writes_to (writes_of calls.now segment) page) }
    ensures words { HoldTaken pick.now rest.now (writes_to (writes_of calls.now segment) page)
        bytes.old bytes.new }
{
    let mut number = 0;
    for call in calls {
        if let Some(written) = page_written(call, segment, page) {
            number += 1;
            take_words(bytes, &written.bytes, pick, rest, number);
        }
    }
    number
}
