// A page as it was handed in, by its number.
ghost use Rattle.std.specs.Prelude.{◌≡◌, true, IfSome, option_map};
ghost use Rattle.segment_disk.specs.Tape.{DiskState, IsPageRead};
ghost use Rattle.handed_pages.specs.Handed.{bytes_handed, comes_before, has_pages, page_of_log};

use byte_position::{Geometry, PAGE_SIZE, Page};
use segment_disk::PageBytes;
use wal_types::Lsn;

/// Which page of 8,192 bytes of which segment.
#[derive(Clone, Copy, Debug, PartialEq, Eq)]
pub struct PageNumber {
    /// The segment's number: its first address divided by its size.
    pub segment: u64,
    /// The page's number in it, from 0.
    pub page: u32,
}

impl PageNumber {
    /// The page of an address.
    pub(crate) fn of_address(geometry: Geometry, address: Lsn) -> PageNumber {
        let (page, pages) = (address.0 / PAGE_SIZE, u64::from(geometry.pages()));
        PageNumber {
            segment: page / pages,
            page: (page % pages) as u32,
        }
    }

    pub(crate) fn comes_before(self, other: PageNumber) -> bool
        ensures { result ≡ comes_before self other }
    {
        self.segment < other.segment || (self.segment == other.segment && self.page < other.page)
    }
}

/// A page as the host handed it in: none where it said that the log has no such page.
#[derive(Drop)]
pub struct HandedPage {
    pub number: PageNumber,
    pub bytes: Option<PageBytes>,
}

impl HandedPage {
    /// A page, or none, by its number.
    pub fn of(number: PageNumber, page: Option<&Page>) -> HandedPage
        ensures number { result.number ≡ number }
        ensures bytes { bytes_handed result ≡ option_map (λ p. p.now) page.entry }
    {
        match page {
            Some(page) => HandedPage {
                number,
                bytes: Some(PageBytes { bytes: *page }),
            },
            None => HandedPage {
                number,
                bytes: None,
            },
        }
    }

    // What a read of it gives.
    fn read_into(&self, bytes: &mut Page) -> bool
        ensures read { IsPageRead (bytes_handed self.now) result bytes.new }
    {
        match &self.bytes {
            Some(page) => {
                *bytes = page.bytes;
                true
            }
            None => false,
        }
    }
}

/// Reads a page, if it is held.
pub(crate) fn read_held(pages: &[HandedPage], number: PageNumber, bytes: &mut Page) -> Option<bool>
    ensures { (state : DiskState) → has_pages state pages.now ≡ true
        → IfSome result (λ there. IsPageRead (page_of_log state number) there bytes.new) }
{
    for held in pages {
        if held.number.segment == number.segment && held.number.page == number.page {
            return Some(held.read_into(bytes));
        }
    }
    None
}

/// Reads a page, if it is held, without a look at all others where they stand in order.
pub fn read_ordered(pages: &[HandedPage], number: PageNumber, bytes: &mut Page) -> Option<bool>
    ensures { (state : DiskState) → has_pages state pages.now ≡ true
        → IfSome result (λ there. IsPageRead (page_of_log state number) there bytes.new) }
{
    let at = pages.partition_point(|page| page.number.comes_before(number));
    if at < pages.len() {
        let held = &pages[at];
        if number.segment == held.number.segment && number.page == held.number.page {
            return Some(held.read_into(bytes));
        }
    }
    read_held(pages, number, bytes)
}
