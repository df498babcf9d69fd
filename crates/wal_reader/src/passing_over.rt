//! A record with compressed images, read again as its bytes are stored, from where a reader has
//! stopped at it. Its pages, its size and its CRC are checked as before; the record that it names
//! as the one before, and the timelines of pages before it, were checked when it was met.

ghost use Rattle.std.specs.Prelude.{◌≡◌, ◌*◌, ◌/◌, ◌^◌, ◌<◌, ◌≤◌, length, option_map, IfErr, IfOk};
ghost use Rattle.std.specs.Int.{w64};
ghost use Rattle.byte_position.specs.Geometry.{IsSegmentSize};
ghost use Rattle.byte_position.specs.Position.{address_of, end_address_of};
ghost use Rattle.wal_types.specs.declared.record.Record.{Record};
ghost use Rattle.wal_page.specs.Page.{first_fault};
ghost use Rattle.wal_spelling.specs.Numbers.{number_at};
ghost use Rattle.wal_record.specs.Stored.{stored_of};
ghost use Rattle.wal_reader.specs.Decodes.{next_position};
ghost use Rattle.wal_reader.specs.Filled.{read_with};
ghost use Rattle.wal_reader.specs.Gathering.{IsOpened};
ghost use Rattle.wal_reader.specs.PageCursor.{HasPassed, Sees};
ghost use Rattle.wal_reader.specs.Pages.{Pages};
ghost use Rattle.wal_reader.specs.PassingOver.{IsStoredRecord, place_again, rows_again, stored_at, stored_or};
ghost use Rattle.wal_reader.specs.ReadAt.{found_or};
ghost use Rattle.wal_reader.specs.ReadFailures.{HasFailureCause};
ghost use Rattle.wal_reader.specs.ReadsOn.{ReadsOn};
ghost use Rattle.wal_reader.specs.RecordPlace.{IsReachable};
ghost use Rattle.wal_reader.specs.RecordRead.{IsRead, behind_read, without_place};

use crate::answers::damaged;
use crate::buffers::Buffers;
use crate::found::{Answer, DamageKind, RecordHead, Stopped};
use crate::gathering::{Gathering, gather};
use crate::layout::PREV_AT;
use crate::read_failure::ReadFailure;
use crate::record_checks::check_crc;
use crate::record_extent::RecordExtent;
use crate::record_place::RecordPlace;
use crate::record_start::{claimed, open_page};
use byte_position::Geometry;
use segment_disk::Disk;
use std::alloc::{AllocError, Global};
use wal_page::next_segment;
use wal_record::{BlockHead, RecErr, decode_stored};
use wal_spelling::ends_segment;
use wal_spelling::numbers::u64_at;
use wal_types::{Lsn, Record};

// The last whole word below byte position 2^60.
const LAST_WORD: u64 = (1 << 57) - 1;

/// Where the record that starts at an address is read again.
pub(crate) fn place_again(geometry: Geometry, at: Lsn) -> RecordPlace
    ensures place { result ≡ place_again geometry at.0 }
    ensures reachable { IsReachable result }
{
    RecordPlace {
        position: (geometry.position_of(at) / 8).min(LAST_WORD) * 8,
        prev: None,
        timeline: 0,
    }
}

/// Reads the record at a place as its bytes are stored, and answers it with the place behind it, or
/// what stands in its place. It is put into `value`.
pub(crate) fn read_stored<D: Disk>(
    alloc: Global,
    value: &mut Record,
    buffers: &mut Buffers,
    disk: &mut D,
    end: Option<Lsn>,
    at: RecordPlace,
) -> Result<(RecordHead, RecordPlace), ReadFailure>
    requires reachable { IsReachable at }
    ensures reachable { IfOk result (λ r. IsReachable r.1) }
    ensures stored { IfOk (read_with value.new result) (λ read. IsStoredRecord read.0) }
    ensures reads { (pages : Pages) → Sees (D.tape disk.old) buffers.old.cache pages
        → IsRead buffers.old.cache.geometry pages at
        (stored_at buffers.old.cache.geometry pages (option_map (λ end. end.0) end) at)
        (read_with value.new result) }

    ensures reads_on { ReadsOn D.tape D.moment disk.old disk.new
        buffers.old.cache buffers.new.cache }
    ensures cause { HasFailureCause (D.faults disk.old) (D.faults disk.new) result }
{
    let cursor = open_page(&mut buffers.cache, disk, at)?;
    let extent = claimed(&buffers.cache, cursor, at, end)?;
    let opened = Gathering { extent, cursor };
    let read = gather_stored(alloc, value, buffers, disk, opened)?;
    Ok(read)
}

// Reads the record whose page is opened.
fn gather_stored<D: Disk>(
    alloc: Global,
    value: &mut Record,
    buffers: &mut Buffers,
    disk: &mut D,
    opened: Gathering,
) -> Result<(RecordHead, RecordPlace), ReadFailure>
    requires opened { IsOpened buffers.old.cache opened }
    requires passed { HasPassed buffers.old.cache opened.cursor.page }
    ensures reachable { IfOk result (λ r. IsReachable r.1) }
    ensures stored { IfOk (read_with value.new result) (λ read. IsStoredRecord read.0) }
    ensures reads { (pages : Pages) → Sees (D.tape disk.old) buffers.old.cache pages
        → IsRead buffers.old.cache.geometry pages opened.extent.at
        (stored_or buffers.old.cache.geometry pages opened.extent.at opened.extent.total
        (first_fault (rows_again buffers.old.cache.geometry pages
        opened.extent.at opened.extent.total))) (read_with value.new result) }

    ensures reads_on { ReadsOn D.tape D.moment disk.old disk.new
        buffers.old.cache buffers.new.cache }
    ensures cause { HasFailureCause (D.faults disk.old) (D.faults disk.new) result }
{
    let extent = opened.extent;
    let geometry = buffers.cache.geometry;
    let start = extent.start(geometry);
    buffers.room.clear();
    let cursor = gather(buffers, disk, opened, extent.total)?;
    check_crc(start, &buffers.room)?;
    let timeline = cursor.timeline;
    let read = found_stored(
        alloc,
        value,
        geometry,
        start,
        extent,
        timeline,
        &buffers.room,
        &mut buffers.heads,
    )??;
    Ok(read)
}

// What the bytes of a record say as they are stored, and the place behind it: `timeline` is that of
// the page in which it ends.
fn found_stored(
    alloc: Global,
    value: &mut Record,
    geometry: Geometry,
    start: Lsn,
    extent: RecordExtent,
    timeline: u32,
    bytes: &[u8],
    heads: &mut Vec<BlockHead>,
) -> Result<Result<(RecordHead, RecordPlace), Answer>, AllocError>
    requires at { extent.at.position < 2 ^ 60 }
    requires start { start.0 ≡ address_of geometry extent.at.position }
    requires low { IsSegmentSize geometry × (start.0 < 2 ^ 60) }
    requires len { (24 ≤ length bytes.now) × (length bytes.now ≡ extent.total) }
    requires end { (value : Record)
        → next_position geometry extent.at.position extent.total value < 2 ^ 60 }
    ensures read { IfOk result (λ said. without_place (read_with value.new said)
        ≡ found_or geometry extent.at extent.total (number_at w64 bytes.now 8)
        (stored_of bytes.now)) }
    ensures stored { IfOk result (λ said. IfOk (read_with value.new said)
        (λ read. IsStoredRecord read.0)) }
    ensures behind { IfOk result (λ said. IfOk (read_with value.new said) (λ read. read.1
        ≡ behind_read geometry extent.at read.0 extent.total timeline)) }
{
    match decode_stored(alloc, heads, value, bytes) {
        Ok(()) => {
            let next = position_behind(geometry, extent, value);
            let head = RecordHead {
                start,
                end: extent.end(geometry, start, next),
                prev: Lsn(u64_at(bytes, PREV_AT)),
                total: extent.total,
            };
            let behind = RecordPlace {
                position: next,
                prev: Some(start),
                timeline,
            };
            Ok(Ok((head, behind)))
        }
        Err(RecErr::Memory) => Err(AllocError),
        Err(RecErr::Malformed { .. }) => Ok(Err(damaged(start, DamageKind::Malformed))),
        Err(RecErr::Compressed { .. }) => {
            let compressed = Stopped::Compressed { at: start };
            Ok(Err(Answer::Stopped(compressed)))
        }
    }
}

// The byte position at which the next record starts.
#[tactic(auto, unfolding(crate::specs::Decodes::next_position))]
fn position_behind(geometry: Geometry, extent: RecordExtent, value: &Record) -> u64
    requires start { extent.at.position < 2 ^ 60 }
    requires some { 0 < extent.total }
    ensures { result ≡ next_position geometry extent.at.position extent.total value.now }
{
    let total = u64::from(extent.total);
    if ends_segment(value.rmid, value.info) {
        next_segment(geometry, extent.at.position + total - 1)
    } else {
        extent.at.position + (total + 7) / 8 * 8
    }
}
