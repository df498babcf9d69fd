//! Reading one record (PostgreSQL's XLogReadRecord and XLogDecodeNextRecord of xlogreader.c).
//!
//! The checks come in one order, and the first that fails is told. Where a given end is reached
//! nothing is read. Then the page in which the record starts: it is there, its own checks, and no
//! other record continues to this place. Then the record's first word and its size. As soon as the
//! header is gathered, its manager and the record that it names as the one before
//! (ValidXLogRecordHeader), before a further page is looked at. Then each page on which the record
//! goes on, before a byte of it is taken. Then the CRC over all bytes (ValidXLogRecord), and last
//! what the bytes spell. So a size is believed only as far as pages have passed, and no more room
//! is taken than those pages fill.

ghost use Rattle.std.specs.Prelude.{◌≡◌, ℕ, ◌+◌, ◌-◌, ◌*◌, ◌/◌, ◌^◌, ◌<◌, ◌≤◌, min, Some, length, None, take, drop, option_map, false, IfOk, IfErr, IfSome, MatchResult, OnOk};
ghost use Rattle.byte_position.specs.Position.{address_of};
ghost use Rattle.wal_page.specs.Page.{first_fault};
ghost use Rattle.wal_reader.specs.Cache.{HoldsLastPage};
ghost use Rattle.wal_reader.specs.PageCursor.{HasPassed, HoldsPassed, Sees};
ghost use Rattle.wal_reader.specs.Decodes.{rest_rows};
ghost use Rattle.wal_reader.specs.Pages.{IsPage, Pages};
ghost use Rattle.wal_reader.specs.Answered.{IsAnswered, IsReadIn};
ghost use Rattle.wal_reader.specs.Gathering.{IsOpened};
ghost use Rattle.wal_reader.specs.Ready.{IsReadyAt};
ghost use Rattle.wal_reader.specs.ReadsOn.{ReadsOn};
ghost use Rattle.wal_reader.specs.RecordRead.{IsRead, said_of};
ghost use Rattle.wal_reader.specs.RecordPlace.{IsOutOfReach, IsReachable};
ghost use Rattle.wal_reader.specs.Filled.{read_with};
ghost use Rattle.wal_reader.specs.ReadFailures.{HasFailureCause, IsNoDiskFault};

use crate::answers::end_of_log;
use crate::buffers::Buffers;
use crate::found::RecordHead;
use crate::gathering::{Gathering, gather};
use crate::layout::PAGE_LEN;
use crate::page_cache::PageCache;
use crate::page_cursor::PageCursor;
use crate::read_failure::ReadFailure;
use crate::ready::{is_beyond, open_ready, ready_behind, ready_over};
use crate::record_checks::{check_crc, check_header, found};
use crate::record_place::RecordPlace;
use crate::record_start::claimed;
use byte_position::Page;
use segment_disk::Disk;
use std::alloc::Global;
use wal_record::{BlockHead, KeepsRecord};
use wal_spelling::layout::HEADER_LEN;
use wal_types::Lsn;

/// Reads the record at a place, and answers it with the place behind it, or what stands
/// in its place. Where an end was given, nothing at or above it is read. Whatever size a record
/// claims, the room takes no more of it than what pages have that passed their checks. The record
/// is kept by `value`. `ready` tells where the record stands, if that is known, and then
/// where the next one does.
#[inline(always)]
pub(crate) fn read_record<D: Disk, K: KeepsRecord>(
    alloc: Global,
    value: &mut K,
    buffers: &mut Buffers,
    disk: &mut D,
    end: Option<Lsn>,
    at: RecordPlace,
    ready: &mut Option<PageCursor>,
) -> Result<(RecordHead, RecordPlace), ReadFailure>
    requires reachable { IsReachable at }
    requires ready { IsReadyAt buffers.old.cache at ready.old }
    ensures ready { MatchResult result (λ r. IsReadyAt buffers.new.cache r.1 ready.new)
        (λ _. ready.new ≡ None) }
    // At Ok the place behind is where the next record would start.
    ensures answered { IfOk (read_with (K.kept value.new) result)
        (IsAnswered (Some at) buffers.old.cache.geometry) }
    ensures rises { IfOk result (λ r. address_of buffers.old.cache.geometry at.position
        ≤ address_of buffers.old.cache.geometry r.1.position) }
    // Where nothing is to be read, or all that may be is held already, the disk is untouched.
    ensures unread { IsOutOfReach buffers.old.cache.geometry (option_map (λ end. end.0) end)
        at.position → (disk.new ≡ disk.old) × OnOk result ⊥ }
    ensures last_page { HoldsLastPage buffers.old.cache.number
        (address_of buffers.old.cache.geometry at.position)
        → (disk.new ≡ disk.old) × (buffers.new.cache ≡ buffers.old.cache) }
    // It answers what is computed of these pages at this place.
    ensures reads { (pages : Pages) → Sees (D.tape disk.old) buffers.old.cache pages
        → IsReadIn buffers.old.cache.geometry pages (option_map (λ end. end.0) end) at
        buffers.old.room.items buffers.new.room.items (read_with (K.kept value.new) result) }

    ensures reads_on { ReadsOn D.tape D.moment disk.old disk.new
        buffers.old.cache buffers.new.cache }
    ensures cause { HasFailureCause (D.faults disk.old) (D.faults disk.new) result }
{
    let known = *ready;
    *ready = None;
    if is_beyond(&buffers.cache, at, known, end) {
        return Err(ReadFailure::Told(end_of_log(buffers.cache.geometry, at.position)));
    }
    let cursor = open_ready(&mut buffers.cache, disk, at, known)?;
    let extent = claimed(&buffers.cache, cursor, at, end)?;
    if extent.total <= PAGE_LEN - cursor.offset {
        let opened = Gathering { extent, cursor };
        let whole = read_in_page(alloc, value, &buffers.cache, opened, &mut buffers.heads)?;
        *ready = ready_behind(&buffers.cache, opened, whole.1);
        Ok(whole)
    } else {
        // Told anew, so that the room of this call's answer is not that of the other's.
        let opened = Gathering { extent, cursor };
        let read = read_over_pages(alloc, value, buffers, disk, opened, ready)?;
        Ok(read)
    }
}

// Reads a record that the held page has whole.
#[inline(always)]
fn read_in_page<K: KeepsRecord>(
    alloc: Global,
    value: &mut K,
    cache: &PageCache,
    opened: Gathering,
    heads: &mut Vec<BlockHead>,
) -> Result<(RecordHead, RecordPlace), ReadFailure>
    requires opened { IsOpened cache.now opened }
    requires within { opened.cursor.offset + opened.extent.total ≤ 8192 }
    requires whole { IsPage cache.now.bytes.value }
    ensures answered { IfOk (read_with (K.kept value.new) result)
        (IsAnswered (Some opened.extent.at) cache.now.geometry) }
    ensures timeline { IfOk result (λ r. r.1.timeline ≡ opened.cursor.timeline) }
    ensures reads { (pages : Pages) → pages opened.cursor.page ≡ Some cache.now.bytes.value
        → IsRead cache.now.geometry pages opened.extent.at
        (said_of cache.now.geometry pages opened.extent.at opened.extent.total
        (first_fault (rest_rows cache.now.geometry pages
        opened.extent.at opened.extent.total))) (read_with (K.kept value.new) result) }
    ensures no_disk { IfErr result IsNoDiskFault }
{
    let Gathering { extent, cursor } = opened;
    let start = cursor.address();
    let bytes = part_of_page(&cache.bytes, cursor.offset, extent.total);
    check_header(start, extent.at.prev, bytes)?;
    check_crc(start, bytes)?;
    let read = found(
        alloc,
        value,
        cache.geometry,
        start,
        extent,
        cursor.timeline,
        bytes,
        heads,
    )??;
    Ok(read)
}

fn part_of_page(page: &Page, offset: u32, count: u32) -> &[u8]
    requires { offset + count ≤ 8192 }
    ensures bytes { result.now ≡ take count (drop offset page.now) }
    ensures len { length result.now ≡ count }
{
    &page[offset as usize..(offset + count) as usize]
}

// Reads a record whose bytes stand on further pages too. A call of its own, so that a record that a
// page has whole pays nothing for it.
#[inline(never)]
fn read_over_pages<D: Disk, K: KeepsRecord>(
    alloc: Global,
    value: &mut K,
    buffers: &mut Buffers,
    disk: &mut D,
    opened: Gathering,
    ready: &mut Option<PageCursor>,
) -> Result<(RecordHead, RecordPlace), ReadFailure>
    requires opened { IsOpened buffers.old.cache opened }
    requires passed { HasPassed buffers.old.cache opened.cursor.page }
    ensures ready { MatchResult result (λ r. IsReadyAt buffers.new.cache r.1 ready.new)
        (λ _. ready.new ≡ ready.old) }
    // It answers what is computed of these pages at this place, and at Ok the place behind is where
    // the next record would start.
    ensures answered { IfOk (read_with (K.kept value.new) result)
        (IsAnswered (Some opened.extent.at) buffers.old.cache.geometry) }
    ensures beyond { 2 ^ 47 ≤ opened.cursor.page + 1
        → (disk.new ≡ disk.old) × (buffers.new.cache ≡ buffers.old.cache) }
    ensures reads { (pages : Pages) → Sees (D.tape disk.old) buffers.old.cache pages
        → IsRead buffers.old.cache.geometry pages opened.extent.at
        (said_of buffers.old.cache.geometry pages opened.extent.at opened.extent.total
        (first_fault (rest_rows buffers.old.cache.geometry pages
        opened.extent.at opened.extent.total))) (read_with (K.kept value.new) result) }
    ensures room { (pages : Pages) → Sees (D.tape disk.old) buffers.old.cache pages
        → HoldsPassed buffers.old.cache.geometry pages opened.extent.at opened.extent.total
        (address_of buffers.old.cache.geometry opened.extent.at.position / 8192)
        buffers.new.room.items }

    ensures reads_on { ReadsOn D.tape D.moment disk.old disk.new
        buffers.old.cache buffers.new.cache }
    ensures cause { HasFailureCause (D.faults disk.old) (D.faults disk.new) result }
{
    let extent = opened.extent;
    let geometry = buffers.cache.geometry;
    let start = extent.start(geometry);
    buffers.room.clear();
    let upto = first_part(opened);
    let cursor = gather(buffers, disk, opened, upto)?;
    check_header(start, extent.at.prev, &buffers.room)?;
    let cursor = gather(buffers, disk, Gathering { extent, cursor }, extent.total)?;
    check_crc(start, &buffers.room)?;
    let timeline = cursor.timeline;
    let read = found(
        alloc,
        value,
        geometry,
        start,
        extent,
        timeline,
        &buffers.room,
        &mut buffers.heads,
    )??;
    *ready = ready_over(&buffers.cache, Gathering { extent, cursor }, read.1);
    Ok(read)
}

// How many bytes are gathered before the header is checked: all that the record's first page has of
// it, so that they are taken in one step, or the header where that goes on on the next page.
fn first_part(opened: Gathering) -> u32
    requires within { opened.cursor.offset ≤ 8192 }
    requires large { 24 ≤ opened.extent.total }
    ensures header { 24 ≤ result }
    ensures total { result ≤ opened.extent.total }
    ensures page { 24 < result → opened.cursor.offset + result ≤ 8192 }
    // Where the page has the header whole, it is all that the page has of the record.
    ensures here { opened.cursor.offset + 24 ≤ 8192
        → result ≡ min opened.extent.total (8192 - opened.cursor.offset) }
{
    let here = opened.extent.total.min(PAGE_LEN - opened.cursor.offset);
    here.max(HEADER_LEN as u32)
}
