//! The header that a page is given (PostgreSQL's xlog.c writes it in AdvanceXLInsertBuffer, before
//! any record is copied to the page, and what is still to come in CopyXLogRecordToWAL). Here all of
//! it is the words of the record that has the page's first other byte: so each header is written by
//! one copy, and is 0 until then.

ghost use Rattle.std.specs.Prelude.{◌≡◌, ◌+◌, ◌*◌, ◌^◌, ◌<◌, nat_lt, if◌then◌else◌};
ghost use Rattle.wal_spelling.specs.Spelling.{word_at};
ghost use Rattle.wal_page.specs.Page.{header_size, is_first_page, page_header};

use crate::layout::{BACKUP_REMOVABLE, CONTINUED, LONG, MAGIC};
use byte_position::{Geometry, PAGE_SIZE, TIMELINE};

/// The n-th word of a page's header (PostgreSQL's XLogLongPageHeaderData of xlog_internal.h), where
/// a record continues into the page with `remaining` bytes still to come (0: none does).
pub(crate) fn page_header_word(
    geometry: Geometry,
    sysid: u64,
    page: u64,
    remaining: u32,
    n: u32,
) -> u64
    requires address { page * 8192 < 2 ^ 64 }
    requires within { 8 * n < header_size geometry page }
    ensures { result ≡ word_at (page_header geometry sysid page remaining) n }
{
    match n {
        0 => u64::from(MAGIC)
            + (u64::from(info(geometry, page, remaining)) << 16)
            + (u64::from(TIMELINE) << 32),
        1 => page * PAGE_SIZE,
        2 => u64::from(remaining),
        3 => sysid,
        _ => geometry.segment_size() + (PAGE_SIZE << 32),
    }
}

// A header's flags.
fn info(geometry: Geometry, page: u64, remaining: u32) -> u16
    ensures { result
        ≡ (if nat_lt 0 remaining then 1 else 0)
        + (if is_first_page geometry page then 2 else 0) + 4 }
{
    let is_first = page % u64::from(geometry.pages()) == 0;
    let continued = if remaining > 0 { CONTINUED } else { 0 };
    let long = if is_first { LONG } else { 0 };
    continued + long + BACKUP_REMOVABLE
}
