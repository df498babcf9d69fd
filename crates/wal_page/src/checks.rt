//! The checks of a page that is read (PostgreSQL's XLogReaderValidatePageHeader of xlogreader.c). A
//! page is believed only behind them: a reader takes no record's byte from one that failed. They
//! are made in one order, and the first that fails is told, so a damage has one name.

ghost use Rattle.std.specs.Prelude.{◌≡◌, ℕ, ◌+◌, ◌*◌, ◌/◌, ◌%◌, ◌^◌, ◌<◌, ◌≤◌, ◌==◌, IfOk, MatchResult, Some, None};
ghost use Rattle.wal_page.specs.Page.{first_fault, info_of, long_header_rows, page_fault, remaining_of, timeline_of};

use crate::layout::*;
use byte_position::{Geometry, PAGE_SIZE, Page};
use wal_spelling::numbers::{u16_at, u32_at, u64_at};
use wal_types::Lsn;

/// Which check of a page failed, and what the field holds that the check looked at.
#[derive(Clone, Copy, Debug, PartialEq, Eq)]
pub enum PageErr {
    /// The magic number is not that of PostgreSQL 16.
    Magic { found: u16 },
    /// A flag is set that there is not.
    Flags { found: u16 },
    /// A segment's first page has a short header.
    NoLong,
    /// A page inside a segment has a long header.
    LongInside,
    /// A long header names another segment size.
    SegSize { found: u32 },
    /// A long header names another page size.
    PageSize { found: u32 },
    /// A long header has the system id 0.
    SysId,
    /// The page belongs to another address: the one that it names.
    Address { found: Lsn },
    /// The page's timeline is before that of the page read before it.
    Timeline { found: u32 },
}

/// The fields of a page's header that a reader goes on with, as they stand (PostgreSQL's
/// XLogPageHeaderData of xlog_internal.h).
#[derive(Clone, Copy, Debug, PartialEq, Eq)]
pub struct PageInfo {
    /// The header's flags.
    pub info: u16,
    /// The timeline on which the page was written.
    pub timeline: u32,
    /// How many bytes of the record that continues into the page are still to come; 0 where none
    /// does.
    pub rem_len: u32,
}

impl PageInfo {
    /// Whether a record continues into the page (`XLP_FIRST_IS_CONTRECORD`).
    pub fn is_continued(&self) -> bool
        ensures { result ≡ (self.now.info % 2 == 1) }
    {
        self.info & CONTINUED != 0
    }

    /// Whether the record that began before the page was overwritten
    /// (`XLP_FIRST_IS_OVERWRITE_CONTRECORD`).
    pub fn is_overwritten(&self) -> bool
        ensures { result ≡ (self.now.info / 8 % 2 == 1) }
    {
        self.info & OVERWRITTEN != 0
    }

    // Whether the page's header is long (`XLP_LONG_HEADER`).
    fn is_long(&self) -> bool
        ensures { result ≡ (self.now.info / 2 % 2 == 1) }
    {
        self.info & LONG != 0
    }
}

/// Checks a page that is read, in this order: its magic number, its flags, whether it has the long
/// header just where it is its segment's first, what a long header says, its address, and that its
/// timeline is none before that of the page read before it (0 where there is none). `page` counts
/// from the log's byte 0; one whose address would not fit has the fault `Address` at the latest.
pub fn check_page(
    geometry: Geometry,
    page: u64,
    bytes: &Page,
    last_timeline: u32,
) -> Result<PageInfo, PageErr>
    ensures info { IfOk result (λ i. (i.info ≡ info_of bytes.now)
        × (i.timeline ≡ timeline_of bytes.now)
        × (i.rem_len ≡ remaining_of bytes.now)) }
    ensures which { MatchResult result
        (λ _. page_fault geometry page bytes.now last_timeline ≡ None)
        (λ e. page_fault geometry page bytes.now last_timeline ≡ Some e) }
{
    let header = PageInfo {
        info: u16_at(bytes, INFO_AT),
        timeline: u32_at(bytes, TIMELINE_AT),
        rem_len: u32_at(bytes, REM_LEN_AT),
    };
    let magic = u16_at(bytes, MAGIC_AT);
    if magic != MAGIC {
        return Err(PageErr::Magic { found: magic });
    }
    if header.info > ALL_FLAGS {
        return Err(PageErr::Flags { found: header.info });
    }
    let is_first = page % u64::from(geometry.pages()) == 0;
    let is_long = header.is_long();
    if is_first && !is_long {
        return Err(PageErr::NoLong);
    }
    if !is_first && is_long {
        return Err(PageErr::LongInside);
    }
    if is_long {
        check_long_header(geometry, bytes)?;
    }
    let address = Lsn(u64_at(bytes, ADDRESS_AT));
    if !is_page_address(page, address.0) {
        return Err(PageErr::Address { found: address });
    }
    if header.timeline < last_timeline {
        let found = header.timeline;
        return Err(PageErr::Timeline { found });
    }
    Ok(header)
}

// What a long header says besides: the sizes that the log is read with, and a system id.
fn check_long_header(geometry: Geometry, bytes: &Page) -> Result<(), PageErr>
    ensures { MatchResult result
        (λ _. first_fault (long_header_rows geometry bytes.now) ≡ None)
        (λ e. first_fault (long_header_rows geometry bytes.now) ≡ Some e) }
{
    let found = u32_at(bytes, SEGMENT_SIZE_AT);
    if u64::from(found) != geometry.segment_size() {
        return Err(PageErr::SegSize { found });
    }
    let found = u32_at(bytes, PAGE_SIZE_AT);
    if u64::from(found) != PAGE_SIZE {
        return Err(PageErr::PageSize { found });
    }
    if u64_at(bytes, SYSTEM_ID_AT) == 0 {
        return Err(PageErr::SysId);
    }
    Ok(())
}

// Whether a page begins at this address; none does whose address would not fit.
fn is_page_address(page: u64, address: u64) -> bool
    ensures { result ≡ (address == page * 8192) }
{
    address / PAGE_SIZE == page && address % PAGE_SIZE == 0
}
