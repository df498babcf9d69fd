// What was there at first: segments whose pages are all durable, as a crash of another disk left
// them. They never change; calls since are in the record of calls alone.
ghost use Rattle.std.specs.Prelude.{◌≡◌, length, slice_get};
ghost use Rattle.std.specs.Option.{option_copied};
ghost use Rattle.segment_disk.specs.First.{first_at};

use crate::disk::PageBytes;

/// A segment that was there at first, all of it durable.
#[derive(Debug, Drop)]
pub struct FirstSegment {
    pub number: u64,
    pub pages: Vec<PageBytes>,
}

/// The segment of this number, if it was there at first.
pub fn find_first(segments: &[FirstSegment], number: u64) -> Option<&FirstSegment>
    ensures { option_copied result ≡ first_at segments.now number }
{
    for segment in segments {
        if segment.number == number {
            return Some(segment);
        }
    }
    None
}

impl FirstSegment {
    /// How many pages it has.
    pub fn page_count(&self) -> usize
        ensures { result ≡ length self.now.pages.items }
    {
        self.pages.len()
    }

    /// A page, if the segment has it.
    pub fn page(&self, page: usize) -> Option<&PageBytes>
        ensures { option_copied result ≡ slice_get self.now.pages.items page }
    {
        self.pages.get(page)
    }
}
