//! Where a record starts, and how long it claims to be (PostgreSQL's XLogDecodeNextRecord of
//! xlogreader.c). A zero first word is told as the log's clean end. The size is only a claim: it is
//! compared with the header's and with a given end, and believed no further than pages have passed.

ghost use Rattle.std.specs.Prelude.{◌≡◌, ℕ, ◌+◌, ◌*◌, ◌/◌, ◌%◌, ◌^◌, ◌<◌, ◌≤◌, ◌==◌, length, option_map, Some, IfOk};
ghost use Rattle.std.specs.Int.{w32, w64};
ghost use Rattle.wal_page.specs.Page.{first_fault};
ghost use Rattle.wal_spelling.specs.Numbers.{number_at};
ghost use Rattle.wal_reader.specs.Opening.{OpensPage};
ghost use Rattle.wal_reader.specs.Pages.{IsPage};
ghost use Rattle.wal_reader.specs.Decodes.{size_rows};
ghost use Rattle.wal_reader.specs.RecordPlace.{IsReachable};
ghost use Rattle.wal_reader.specs.ReadsOn.{ReadsOn};
ghost use Rattle.wal_reader.specs.ReadFailures.{HasFailureCause, Passes};

use crate::answers::{damaged, end_of_log, reaches_end};
use crate::found::{Answer, DamageKind};
use crate::page_cache::PageCache;
use crate::page_checks::{check_held, header_len};
use crate::page_cursor::PageCursor;
use crate::read_failure::ReadFailure;
use crate::record_extent::RecordExtent;
use crate::record_place::RecordPlace;
use byte_position::{PAGE_SIZE, Page};
use segment_disk::Disk;
use wal_spelling::layout::{HEADER_LEN, LEN_AT};
use wal_spelling::numbers::{u32_at, u64_at};
use wal_types::Lsn;

/// The page in which a record is to start: it is there and passes its checks, and no other record
/// continues where this one would start. A call of its own, since few records need it.
#[inline(never)]
pub(crate) fn open_page<D: Disk>(
    cache: &mut PageCache,
    disk: &mut D,
    at: RecordPlace,
) -> Result<PageCursor, ReadFailure>
    requires reachable { IsReachable at }
    ensures opens { OpensPage D.tape disk.old disk.new cache.old cache.new at result }

    ensures reads_on { ReadsOn D.tape D.moment disk.old disk.new cache.old cache.new }
    ensures cause { HasFailureCause (D.faults disk.old) (D.faults disk.new) result }
{
    let start = cache.geometry.to_lsn(at.position);
    let page = start.0 / PAGE_SIZE;
    let offset = (start.0 % PAGE_SIZE) as u32;
    if !cache.load(disk, page)? {
        return Err(ReadFailure::Told(end_of_log(cache.geometry, at.position)));
    }
    let opens = offset == header_len(cache, page);
    if opens && is_zero_word(cache, 0) {
        return Err(ReadFailure::Told(end_of_log(cache.geometry, at.position)));
    }
    let info = check_held(cache, page, at.timeline)?;
    if opens && info.is_continued() {
        return Err(ReadFailure::Told(damaged(start, DamageKind::Claims)));
    }
    Ok(PageCursor {
        page,
        offset,
        timeline: info.timeline,
    })
}

/// The size that the record at a cursor claims. Where an end was given, the record's last byte is
/// below it.
#[inline(always)]
pub(crate) fn claimed(
    cache: &PageCache,
    cursor: PageCursor,
    at: RecordPlace,
    end: Option<Lsn>,
) -> Result<RecordExtent, Answer>
    requires reachable { IsReachable at }
    requires within { cursor.offset + 8 ≤ 8192 }
    ensures extent { let total = number_at w32 cache.now.bytes.value cursor.offset in
        IfOk result (λ extent. (extent ≡ record { at = at; total = total })
        × (24 ≤ extent.total)) }
    ensures whole { IsPage cache.now.bytes.value }
    ensures checks { Passes
        (first_fault (size_rows cache.now.geometry (option_map (λ end. end.0) end) at.position
        (number_at w64 cache.now.bytes.value cursor.offset == 0)
        (number_at w32 cache.now.bytes.value cursor.offset))) result }
{
    if is_zero_word(cache, cursor.offset) {
        return Err(end_of_log(cache.geometry, at.position));
    }
    let total = size_at(&cache.bytes, cursor.offset);
    if (total as usize) < HEADER_LEN {
        let start = cache.geometry.to_lsn(at.position);
        return Err(damaged(start, DamageKind::Length));
    }
    if reaches_end(cache.geometry, at.position + u64::from(total) - 1, end) {
        return Err(end_of_log(cache.geometry, at.position));
    }
    Ok(RecordExtent { at, total })
}

/// Whether the eight bytes at an offset of the page that is held are zero.
pub(crate) fn is_zero_word(cache: &PageCache, offset: u32) -> bool
    requires { offset + 8 ≤ 8192 }
    ensures value { result ≡ (number_at w64 cache.now.bytes.value offset == 0) }
    ensures whole { IsPage cache.now.bytes.value }
{
    word_at(&cache.bytes, offset) == 0
}

fn word_at(page: &Page, offset: u32) -> u64
    requires { offset + 8 ≤ 8192 }
    ensures value { result ≡ number_at w64 page.now offset }
    ensures whole { IsPage page.now }
{
    // Cut out first, its eight bytes are one load.
    let at = offset as usize;
    u64_at(&page[at..at + 8], 0)
}

fn size_at(page: &Page, offset: u32) -> u32
    requires { offset + 8 ≤ 8192 }
    ensures { result ≡ number_at w32 page.now offset }
{
    let at = offset as usize + LEN_AT;
    u32_at(&page[at..at + 4], 0)
}
