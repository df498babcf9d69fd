ghost use Rattle.std.specs.Prelude.{◌≡◌, ℕ, ◌+◌, ◌*◌, ◌^◌, ◌<◌, ◌≤◌, SomeIff};
ghost use Rattle.byte_position.specs.Position.{header_size, usable_bytes_in_segment, is_in_header, position_of, behind_header, address_of, end_address_of, HasPosition};

use crate::geometry::Geometry;
use crate::layout::{LONG_HEADER_LEN, PAGE_SIZE, SHORT_HEADER_LEN};
use wal_types::Lsn;

const USABLE_BYTES_IN_FIRST_PAGE: u64 = PAGE_SIZE - LONG_HEADER_LEN;

const USABLE_BYTES_IN_PAGE: u64 = PAGE_SIZE - SHORT_HEADER_LEN;

impl Geometry {
    /// The address of the byte at a byte position, behind any header that stands there
    /// (`XLogBytePosToRecPtr` of PostgreSQL's xlog.c).
    pub fn to_lsn(self, position: u64) -> Lsn
        requires { position < 2 ^ 61 }
        ensures { result.0 ≡ address_of self position }
    {
        let usable = self.usable_bytes_in_segment();
        let segment_start = position / usable * self.segment_size();
        let left = position % usable;
        if left < USABLE_BYTES_IN_FIRST_PAGE {
            return Lsn(segment_start + LONG_HEADER_LEN + left);
        }
        let left = left - USABLE_BYTES_IN_FIRST_PAGE;
        let page_start = PAGE_SIZE * (left / USABLE_BYTES_IN_PAGE + 1);
        Lsn(segment_start + page_start + SHORT_HEADER_LEN + left % USABLE_BYTES_IN_PAGE)
    }

    /// The address just behind the byte before a byte position; 0 at position 0
    /// (`XLogBytePosToEndRecPtr` of PostgreSQL's xlog.c).
    pub fn to_end_lsn(self, position: u64) -> Lsn
        requires { position < 2 ^ 60 }
        ensures { result.0 ≡ end_address_of self position }
    {
        match position {
            0 => Lsn(0),
            _ => Lsn(self.to_lsn(position - 1).0 + 1),
        }
    }

    /// The byte position of an address; None inside a page header, behind the page's start
    /// (`XLogRecPtrToBytePos` of PostgreSQL's xlog.c).
    pub fn of_lsn(self, at: Lsn) -> Option<u64>
        ensures { SomeIff result (HasPosition self at.0) (position_of self at.0) }
    {
        let page = at.0 / PAGE_SIZE;
        let header_size = self.header_size(page);
        let start = self.position_of_page(page);
        match at.0 % PAGE_SIZE {
            0 => Some(start),
            offset if offset < header_size => None,
            offset => Some(start + (offset - header_size)),
        }
    }

    /// How many bytes below an address are in no header: the byte position of a byte in none, and
    /// in a header that of the page's first byte behind it.
    pub fn position_of(self, at: Lsn) -> u64
        ensures { result ≡ position_of self at.0 }
    {
        let page = at.0 / PAGE_SIZE;
        let behind_header = (at.0 % PAGE_SIZE).saturating_sub(self.header_size(page));
        self.position_of_page(page) + behind_header
    }

    /// Whether the byte at an address is in a page header. Only near a page's start does it look at
    /// the segment.
    pub fn is_in_header(self, at: Lsn) -> bool
        ensures { result ≡ is_in_header self at.0 }
    {
        let offset = at.0 % PAGE_SIZE;
        offset < SHORT_HEADER_LEN
            || (offset < LONG_HEADER_LEN && at.0 % self.segment_size() < LONG_HEADER_LEN)
    }

    fn usable_bytes_in_segment(self) -> u64
        ensures { result ≡ usable_bytes_in_segment self }
    {
        u64::from(self.pages()) * USABLE_BYTES_IN_PAGE - (LONG_HEADER_LEN - SHORT_HEADER_LEN)
    }

    fn header_size(self, page: u64) -> u64
        ensures { result ≡ header_size self page }
    {
        match page % u64::from(self.pages()) {
            0 => LONG_HEADER_LEN,
            _ => SHORT_HEADER_LEN,
        }
    }

    // The byte position at a page's start, and of the page's first byte behind its header.
    fn position_of_page(self, page: u64) -> u64
        requires { 8192 * page < 2 ^ 64 }
        ensures { result ≡ position_of self (8192 * page) }
    {
        let pages = u64::from(self.pages());
        let segment_start = page / pages * self.usable_bytes_in_segment();
        match page % pages {
            0 => segment_start,
            further => {
                segment_start + USABLE_BYTES_IN_FIRST_PAGE + (further - 1) * USABLE_BYTES_IN_PAGE
            }
        }
    }
}

/// The address of a byte position, found by a walk over all bytes below it: slow, and plain enough
/// to compare other code with.
pub fn address_by_counting(geometry: Geometry, position: u32) -> u64
    requires { position < 2 ^ 20 }
    ensures { result ≡ address_of geometry position }
{
    let mut address = walk_behind_header(geometry, 0);
    for _counted in 0..position {
        address = walk_behind_header(geometry, address + 1);
    }
    address
}

// The first address from this one on that is in no header.
fn walk_behind_header(geometry: Geometry, from: u64) -> u64
    requires { from < 2 ^ 63 }
    ensures value { result ≡ behind_header geometry from }
    ensures near { result ≤ from + 40 }
{
    let mut address = from;
    while geometry.is_in_header(Lsn(address)) {
        address += 1;
    }
    address
}
