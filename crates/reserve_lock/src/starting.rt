// Where a record starts and ends, by one division for both (PostgreSQL's xlog.c,
// XLogBytePosToRecPtr, XLogBytePosToEndRecPtr, which divide for each). A record's start is where
// the one before ends, but at a page's start, where a header comes between. It ends on the page on
// which it starts, or a division tells where.
ghost use Rattle.std.specs.Prelude.{◌≡◌, ◌+◌, ◌<◌, ◌≤◌, ◌^◌};
ghost use Rattle.byte_position.specs.Geometry.{IsSegmentSize};
ghost use Rattle.byte_position.specs.Position.{address_of, end_address_of};

use byte_position::{Geometry, LONG_HEADER_LEN, PAGE_SIZE, SHORT_HEADER_LEN};
use wal_types::Lsn;

// The address of the byte at a byte position, behind the byte before, which ends at `behind`.
#[inline(always)]
pub(crate) fn start_at(geometry: Geometry, at: u64, behind: Lsn) -> Lsn
    requires low { at < 2 ^ 60 }
    requires behind { behind.0 ≡ end_address_of geometry at }
    ensures address { result.0 ≡ address_of geometry at }
    ensures valid { IsSegmentSize geometry }
{
    let size = geometry.segment_size();
    if behind.0 % PAGE_SIZE != 0 {
        return behind;
    }
    if behind.0 % size == 0 {
        Lsn(behind.0 + LONG_HEADER_LEN)
    } else {
        Lsn(behind.0 + SHORT_HEADER_LEN)
    }
}

// Where a record ends that takes up so many bytes from a byte position on, which has this address.
#[inline(always)]
pub(crate) fn end_behind(geometry: Geometry, at: u64, start: Lsn, room: u64) -> Lsn
    requires valid { IsSegmentSize geometry }
    requires start { start.0 ≡ address_of geometry at }
    requires some { 1 ≤ room }
    requires within { at + room < 2 ^ 60 }
    ensures { result.0 ≡ end_address_of geometry (at + room) }
{
    if start.0 % PAGE_SIZE + room <= PAGE_SIZE {
        Lsn(start.0 + room)
    } else {
        geometry.to_end_lsn(at + room)
    }
}
