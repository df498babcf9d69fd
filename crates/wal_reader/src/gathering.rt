//! The bytes of a record, gathered page by page (PostgreSQL's XLogDecodeNextRecord of
//! xlogreader.c). A call goes on where the last one stopped: the room has the record's first bytes,
//! and the cursor stands behind them in the page that is held. Room grows by what a page has, after
//! that page has passed; so a size that is only claimed takes no memory.

ghost use Rattle.std.specs.Prelude.{◌≡◌, ℕ, ◌+◌, ◌-◌, ◌*◌, ◌/◌, ◌<◌, ◌≤◌, ◌^◌, ◌++◌, length, take, drop, min, vec_len, Some, None, IfOk, OnErr, OnOk, MatchResult};
ghost use Rattle.wal_page.specs.Page.{first_fault};
ghost use Rattle.wal_reader.specs.PageCursor.{Crosses, HasGathered, HasPassed, IsOn, Sees, StandsIn, StaysOnPage};
ghost use Rattle.wal_reader.specs.Decodes.{page_of_byte, rows_of_pages};
ghost use Rattle.wal_reader.specs.Gathering.{Gathers, IsGathering};
ghost use Rattle.wal_reader.specs.Pages.{IsPage, Pages, bytes_from};
ghost use Rattle.wal_reader.specs.ReadsOn.{ReadsOn};
ghost use Rattle.wal_reader.specs.RecordPlace.{IsReachable};
ghost use Rattle.wal_reader.specs.ReadFailures.{HasFailureCause, IsTold};

use crate::buffers::Buffers;
use crate::layout::PAGE_LEN;
use crate::page_cache::PageCache;
use crate::page_checks::turn_page;
use crate::page_cursor::PageCursor;
use crate::read_failure::ReadFailure;
use crate::record_extent::RecordExtent;
use byte_position::Page;
use segment_disk::Disk;
use std::alloc::AllocError;

/// A record whose bytes are gathered: what it takes up, and where its next byte stands.
#[derive(Clone, Copy, Debug)]
pub(crate) struct Gathering {
    pub(crate) extent: RecordExtent,
    pub(crate) cursor: PageCursor,
}

/// Gathers a record's bytes behind those that the room has, up to `upto` of them: those of a
/// further page once it has passed its checks. It answers where the next byte stands then.
pub(crate) fn gather<D: Disk>(
    buffers: &mut Buffers,
    disk: &mut D,
    gathering: Gathering,
    upto: u32,
) -> Result<PageCursor, ReadFailure>
    // The room has the record's first bytes, at most those asked for.
    requires gathering { IsGathering buffers.old.cache gathering (vec_len buffers.old.room) }
    requires upto { (vec_len buffers.old.room ≤ upto) × (upto ≤ gathering.extent.total) }
    requires passed { HasPassed buffers.old.cache gathering.cursor.page }
    // At Ok the room has all bytes asked for.
    ensures gathered { IfOk result (λ now. (vec_len buffers.new.room ≡ upto)
        × IsGathering buffers.new.cache (record gathering { cursor = now }) upto) }
    // The page that is held then has passed its own checks.
    ensures passed { IfOk result (λ now. HasPassed buffers.new.cache now.page) }
    // Beyond the last address that is read no page is looked at.
    ensures beyond { 2 ^ 47 ≤ gathering.cursor.page + 1 → StaysOnPage disk.old disk.new
        buffers.old.cache buffers.new.cache gathering.cursor result }
    // It goes on where all checks of the pages between hold.
    ensures gathers { (pages : Pages) → Sees (D.tape disk.old) buffers.old.cache pages
        → Gathers buffers.old.cache.geometry pages gathering (vec_len buffers.old.room) upto
        buffers.old.room.items buffers.new.room.items result }

    ensures reads_on { ReadsOn D.tape D.moment disk.old disk.new
        buffers.old.cache buffers.new.cache }
    ensures cause { HasFailureCause (D.faults disk.old) (D.faults disk.new) result }
{
    let extent = gathering.extent;
    let mut cursor = gathering.cursor;
    'pages: while buffers.room.len() < upto as usize {
        let gathered = buffers.room.len() as u32;
        cursor = pass_border(&mut buffers.cache, disk, extent, cursor, gathered)?;
        cursor = take_bytes(&buffers.cache, &mut buffers.room, extent, cursor, upto)?;
    }
    Ok(cursor)
}

// Goes on to the next page where the cursor is at a page's end; `gathered` bytes of the record are
// before it.
fn pass_border<D: Disk>(
    cache: &mut PageCache,
    disk: &mut D,
    extent: RecordExtent,
    cursor: PageCursor,
    gathered: u32,
) -> Result<PageCursor, ReadFailure>
    // A byte of the record is still to come, and the cursor stands before it, or at the page's end.
    requires reachable { IsReachable extent.at }
    requires more { gathered < extent.total }
    requires on { IsOn cache.old cursor }
    requires passed { HasPassed cache.old cursor.page }
    requires stands { StandsIn cache.old.geometry (extent.at.position + gathered) cursor }
    // At Ok the cursor stands at that byte, on the page that is held then.
    ensures cursor { IfOk result (λ now. IsOn cache.new now × StandsIn cache.old.geometry
        (extent.at.position + gathered) now × (now.offset < 8192)) }
    ensures passed { IfOk result (λ now. HasPassed cache.new now.page) }
    ensures beyond { 2 ^ 47 ≤ cursor.page + 1 → StaysOnPage disk.old disk.new
        cache.old cache.new cursor result }
    ensures checks { (pages : Pages) → Sees (D.tape disk.old) cache.old pages
        → MatchResult result (λ now. Crosses cache.old.geometry pages
        extent.at extent.total cursor.page now.page)
        (λ failure. (upto : ℕ) → gathered < upto
        → IsTold (first_fault (rows_of_pages cache.old.geometry pages
        extent.at extent.total cursor.page
        (page_of_byte cache.old.geometry extent.at.position upto))) failure) }

    ensures reads_on { ReadsOn D.tape D.moment disk.old disk.new cache.old cache.new }
    ensures cause { HasFailureCause (D.faults disk.old) (D.faults disk.new) result }
{
    if cursor.offset < PAGE_LEN {
        return Ok(cursor);
    }
    let start = extent.start(cache.geometry);
    turn_page(cache, disk, cursor, start, extent.total - gathered)
}

// Appends what the page that is held has of the record from a cursor on, up to `upto` bytes in all.
#[inline(always)]
fn take_bytes(
    cache: &PageCache,
    room: &mut Vec<u8>,
    extent: RecordExtent,
    cursor: PageCursor,
    upto: u32,
) -> Result<PageCursor, AllocError>
    // A byte is wanted, and the cursor stands at it, in the page that is held.
    requires more { vec_len room.old < upto }
    requires on { IsOn cache.now cursor }
    requires stands { StandsIn cache.now.geometry (extent.at.position + vec_len room.old) cursor }
    requires within { cursor.offset < 8192 }
    // At Ok at least one byte is appended, and the cursor stands behind the last; at Err none is.
    ensures kept { OnErr result (room.new.items ≡ room.old.items) }
    ensures len { OnOk result ((vec_len room.old < vec_len room.new) × (vec_len room.new ≤ upto)) }
    ensures page { IfOk result (λ now. now.page ≡ cursor.page) }
    ensures cursor { IfOk result (λ now. IsOn cache.now now
        × HasGathered cache.now.geometry extent.at.position (vec_len room.new) now) }
    ensures bytes { (pages : Pages) → pages cursor.page ≡ Some cache.now.bytes.value
        → room.old.items
        ≡ bytes_from cache.now.geometry pages (vec_len room.old) extent.at.position
        → OnOk result (room.new.items ≡ bytes_from cache.now.geometry pages
        (vec_len room.new) extent.at.position) }
{
    let most = upto - room.len() as u32;
    let count = append(room, &cache.bytes, cursor.offset, most)?;
    Ok(PageCursor {
        offset: cursor.offset + count,
        ..cursor
    })
}

// Appends what a page has from an offset on, `most` bytes if it has so many, and answers how many.
#[inline(always)]
fn append(room: &mut Vec<u8>, page: &Page, offset: u32, most: u32) -> Result<u32, AllocError>
    requires { offset ≤ 8192 }
    ensures count { IfOk result (λ count. count ≡ min (8192 - offset) most) }
    ensures items { IfOk result (λ count. room.new.items ≡ room.old.items ++ take count
        (drop offset page.now)) }
    ensures len { IfOk result (λ count. vec_len room.new ≡ vec_len room.old + count) }
    ensures kept { OnErr result (room.new.items ≡ room.old.items) }
    ensures whole { IsPage page.now }
{
    let count = (PAGE_LEN - offset).min(most);
    room.extend_from_slice(&page[offset as usize..(offset + count) as usize])?;
    Ok(count)
}
