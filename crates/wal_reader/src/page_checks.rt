//! The checks of the pages that a record stands on (PostgreSQL's XLogReaderValidatePageHeader and
//! XLogDecodeNextRecord of xlogreader.c). A page's own checks come first, told at its address;
//! then, of a page into which a record continues, that it says so and owes the same number of
//! bytes, told at the record's start. Until a page has passed no byte of it is taken.

ghost use Rattle.std.specs.Prelude.{◌≡◌, ◌+◌, ◌-◌, ◌*◌, ◌/◌, ◌%◌, ◌<◌, ◌≤◌, ◌^◌, ◌==◌, Some, None, IfOk, MatchResult, OnOk};
ghost use Rattle.byte_position.specs.Geometry.{IsSegmentSize};
ghost use Rattle.byte_position.specs.Position.{address_of};
ghost use Rattle.wal_page.specs.Page.{first_fault, header_size, is_continued, is_overwritten, remaining_of, timeline_of};
ghost use Rattle.wal_reader.specs.PageCursor.{HasPassed, IsOn, Sees};
ghost use Rattle.wal_reader.specs.Decodes.{continuation_rows_of, page_answers};
ghost use Rattle.wal_reader.specs.Pages.{Pages};
ghost use Rattle.wal_reader.specs.ReadsOn.{ReadsOn};
ghost use Rattle.wal_reader.specs.ReadFailures.{HasFailureCause, Passes, Settles};

use crate::answers::damaged;
use crate::found::{Answer, DamageKind, Stopped};
use crate::page_cache::PageCache;
use crate::page_cursor::PageCursor;
use crate::read_failure::ReadFailure;
use byte_position::{LONG_HEADER_LEN, PAGE_SIZE, SHORT_HEADER_LEN};
use segment_disk::Disk;
use wal_page::{PageInfo, check_page};
use wal_types::Lsn;

/// How many bytes a page's header has, in the log of the page that is held.
pub(crate) fn header_len(cache: &PageCache, page: u64) -> u32
    ensures value { result ≡ header_size cache.now.geometry page }
    ensures valid { IsSegmentSize cache.now.geometry }
{
    if page % u64::from(cache.geometry.pages()) == 0 {
        LONG_HEADER_LEN as u32
    } else {
        SHORT_HEADER_LEN as u32
    }
}

/// The checks of the page that is held, each told at the page's address.
pub(crate) fn check_held(cache: &PageCache, page: u64, timeline: u32) -> Result<PageInfo, Answer>
    requires { page < 2 ^ 47 }
    ensures checks { Passes
        (first_fault (page_answers cache.now.geometry page cache.now.bytes.value timeline)) result }
    ensures continued { IfOk result (λ info. (info.info % 2 == 1)
        ≡ is_continued cache.now.bytes.value) }
    ensures overwritten { IfOk result (λ info. (info.info / 8 % 2 == 1)
        ≡ is_overwritten cache.now.bytes.value) }
    ensures info { IfOk result (λ info. (info.timeline ≡ timeline_of cache.now.bytes.value) ×
        (info.rem_len ≡ remaining_of cache.now.bytes.value)) }
{
    match check_page(cache.geometry, page, &cache.bytes, timeline) {
        Ok(info) => Ok(info),
        Err(fault) => Err(damaged(Lsn(page * PAGE_SIZE), DamageKind::Page(fault))),
    }
}

/// Turns to the next page, into which the record continues with `owed` bytes.
pub(crate) fn turn_page<D: Disk>(
    cache: &mut PageCache,
    disk: &mut D,
    cursor: PageCursor,
    start: Lsn,
    owed: u32,
) -> Result<PageCursor, ReadFailure>
    requires { cursor.page < 2 ^ 47 }
    // At Ok the next page is held, and the cursor stands behind its header.
    ensures next { IfOk result (λ next. (next.page ≡ cursor.page + 1) × (next.offset
        ≡ header_size cache.old.geometry (cursor.page + 1)) × (next.page < 2 ^ 47)
        × IsOn cache.new next) }
    ensures passed { IfOk result (λ next. HasPassed cache.new next.page) }
    // A page beyond the last address that is read is not looked at.
    ensures beyond { 2 ^ 47 ≤ cursor.page + 1 → (disk.new ≡ disk.old)
        × (cache.new ≡ cache.old) × OnOk result ⊥ }
    // It goes on where all checks of that page hold, and tells the first that fails else.
    ensures checks { (pages : Pages) → Sees (D.tape disk.old) cache.old pages
        → Settles (first_fault (continuation_rows_of cache.old.geometry
        (cursor.page + 1) cursor.timeline start.0 owed (pages (cursor.page + 1)))) result }

    ensures reads_on { ReadsOn D.tape D.moment disk.old disk.new cache.old cache.new }
    ensures cause { HasFailureCause (D.faults disk.old) (D.faults disk.new) result }
{
    let page = cursor.page + 1;
    if !cache.load(disk, page)? {
        return Err(ReadFailure::Told(damaged(start, DamageKind::Missing)));
    }
    let info = check_held(cache, page, cursor.timeline)?;
    if info.is_overwritten() {
        let overwritten = Stopped::Overwritten { at: start };
        return Err(ReadFailure::Told(Answer::Stopped(overwritten)));
    }
    if !info.is_continued() {
        return Err(ReadFailure::Told(damaged(start, DamageKind::NoContinuation)));
    }
    if info.rem_len != owed {
        let found = info.rem_len;
        return Err(ReadFailure::Told(damaged(start, DamageKind::RemLen { found })));
    }
    Ok(PageCursor {
        page,
        offset: header_len(cache, page),
        timeline: info.timeline,
    })
}
