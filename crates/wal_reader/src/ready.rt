//! Where the next record stands, kept from one record to the next: as long as it starts on the page
//! that has the last one's end, no address is made of a byte position, and the page's header is
//! looked at once.

ghost use Rattle.std.specs.Prelude.{◌≡◌, ◌↔◌, ◌+◌, ◌/◌, ◌%◌, ◌<◌, ◌≤◌, ◌^◌, IsTrue, Some, None, is_some, option_map};
ghost use Rattle.byte_position.specs.Position.{address_of};
ghost use Rattle.wal_reader.specs.Decodes.{is_at_end, opening_fault};
ghost use Rattle.wal_reader.specs.Gathering.{IsGathering, IsOpened};
ghost use Rattle.wal_reader.specs.Opening.{OpensPage};
ghost use Rattle.wal_reader.specs.PageCursor.{HasPassed};
ghost use Rattle.wal_reader.specs.Ready.{IsReadyAt};
ghost use Rattle.wal_reader.specs.ReadsOn.{ReadsOn};
ghost use Rattle.wal_reader.specs.RecordPlace.{IsOutOfReach, IsReachable};
ghost use Rattle.wal_reader.specs.ReadFailures.{HasFailureCause};

use crate::answers::is_out_of_reach;
use crate::gathering::Gathering;
use crate::layout::PAGE_LEN;
use crate::page_cache::PageCache;
use crate::page_cursor::PageCursor;
use crate::read_failure::ReadFailure;
use crate::record_place::RecordPlace;
use crate::record_start::open_page;
use segment_disk::Disk;
use wal_types::Lsn;

/// Where the record behind one stands, if it is on the same page.
#[inline(always)]
pub(crate) fn ready_behind(
    cache: &PageCache,
    opened: Gathering,
    behind: RecordPlace,
) -> Option<PageCursor>
    requires opened { IsOpened cache.now opened }
    requires opens { opening_fault cache.now.geometry opened.extent.at
        (Some cache.now.bytes.value) ≡ None }
    requires timeline { behind.timeline ≡ opened.cursor.timeline }
    ensures ready { IsReadyAt cache.now behind result }
    // It is told if and only if that record starts on this one's page, behind its first byte.
    ensures told { IsTrue (is_some result) ↔ (opened.extent.at.position < behind.position)
        × (address_of cache.now.geometry behind.position / 8192 ≡ opened.cursor.page) }
{
    let cursor = opened.cursor;
    let position = opened.extent.at.position;
    let left = u64::from(PAGE_LEN - cursor.offset);
    if position < behind.position && behind.position - position < left {
        let further = (behind.position - position) as u32;
        return Some(PageCursor {
            offset: cursor.offset + further,
            ..cursor
        });
    }
    None
}

/// Where the record behind one that was gathered over pages stands, if it is on the page that has
/// the last of its bytes.
#[inline(always)]
pub(crate) fn ready_over(
    cache: &PageCache,
    gathered: Gathering,
    behind: RecordPlace,
) -> Option<PageCursor>
    requires gathered { IsGathering cache.now gathered gathered.extent.total }
    requires some { 0 < gathered.extent.total }
    requires passed { HasPassed cache.now gathered.cursor.page }
    requires timeline { behind.timeline ≡ gathered.cursor.timeline }
    ensures ready { IsReadyAt cache.now behind result }
    // It is told if and only if that record starts on that page, at this one's end or behind.
    ensures told { IsTrue (is_some result)
        ↔ (gathered.extent.at.position + gathered.extent.total ≤ behind.position)
        × (address_of cache.now.geometry behind.position / 8192 ≡ gathered.cursor.page) }
{
    let cursor = gathered.cursor;
    let end = gathered.extent.at.position + u64::from(gathered.extent.total);
    let left = u64::from(PAGE_LEN - cursor.offset);
    if end <= behind.position && behind.position - end < left {
        let further = (behind.position - end) as u32;
        return Some(PageCursor {
            offset: cursor.offset + further,
            ..cursor
        });
    }
    None
}

/// Whether nothing is read at a place. Where it is known where its record stands, no address is
/// made.
#[inline(always)]
pub(crate) fn is_beyond(
    cache: &PageCache,
    at: RecordPlace,
    ready: Option<PageCursor>,
    end: Option<Lsn>,
) -> bool
    requires reachable { IsReachable at }
    requires ready { IsReadyAt cache.now at ready }
    ensures { IsTrue result
        ↔ IsOutOfReach cache.now.geometry (option_map (λ end. end.0) end) at.position }
{
    match ready {
        Some(cursor) => is_met(end, cursor.address()),
        None => is_out_of_reach(cache.geometry, at.position, end),
    }
}

// Whether an end was given and an address is not below it.
fn is_met(end: Option<Lsn>, address: Lsn) -> bool
    ensures { result ≡ is_at_end (option_map (λ end. end.0) end) address.0 }
{
    match end {
        None => false,
        Some(end) => end.0 <= address.0,
    }
}

/// The page in which a record is to start, as `open_page` leaves it. Where it is known where the
/// record stands, that page is held and was checked.
#[inline(always)]
pub(crate) fn open_ready<D: Disk>(
    cache: &mut PageCache,
    disk: &mut D,
    at: RecordPlace,
    ready: Option<PageCursor>,
) -> Result<PageCursor, ReadFailure>
    requires reachable { IsReachable at }
    requires ready { IsReadyAt cache.old at ready }
    ensures opens { OpensPage D.tape disk.old disk.new cache.old cache.new at result }

    ensures reads_on { ReadsOn D.tape D.moment disk.old disk.new cache.old cache.new }
    ensures cause { HasFailureCause (D.faults disk.old) (D.faults disk.new) result }
{
    match ready {
        Some(cursor) => Ok(cursor),
        None => open_page(cache, disk, at),
    }
}
