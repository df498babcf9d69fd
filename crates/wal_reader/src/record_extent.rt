//! What a record takes up in the log. A segment switch (PostgreSQL's XLOG_SWITCH) takes the rest of
//! its segment, whatever stands there.

ghost use Rattle.std.specs.Prelude.{◌≡◌, ◌^◌, ◌<◌, ◌≤◌, length, Ok};
ghost use Rattle.byte_position.specs.Geometry.{IsSegmentSize};
ghost use Rattle.byte_position.specs.Position.{address_of, end_address_of};
ghost use Rattle.wal_types.specs.declared.record.Record.{Record};
ghost use Rattle.wal_record.specs.Reading.{reading_of};
ghost use Rattle.wal_reader.specs.Decodes.{next_position};

use crate::record_place::RecordPlace;
use byte_position::{Geometry, PAGE_SIZE};
use wal_page::next_segment;
use wal_spelling::ends_segment;
use wal_spelling::layout::{INFO_AT, RMID_AT};
use wal_types::Lsn;

/// Where a record is read, and the size that it claims.
#[derive(Clone, Copy, Debug)]
pub(crate) struct RecordExtent {
    pub(crate) at: RecordPlace,
    /// Its size in bytes.
    pub(crate) total: u32,
}

impl RecordExtent {
    /// The address of its first byte.
    pub(crate) fn start(self, geometry: Geometry) -> Lsn
        requires { self.at.position < 2 ^ 60 }
        ensures { result.0 ≡ address_of geometry self.at.position }
    {
        geometry.to_lsn(self.at.position)
    }

    /// The byte position at which the next record starts, where this one is read from these bytes.
    #[tactic(auto, unfolding(crate::specs::Decodes::next_position))]
    pub(crate) fn next_position(self, geometry: Geometry, bytes: &[u8]) -> u64
        requires start { self.at.position < 2 ^ 60 }
        requires some { 0 < self.total }
        requires header { 24 ≤ length bytes.now }
        ensures { (value : Record) → reading_of bytes.now ≡ Ok value
            → result ≡ next_position geometry self.at.position self.total value }
    {
        let total = u64::from(self.total);
        if ends_segment(bytes[RMID_AT], bytes[INFO_AT]) {
            next_segment(geometry, self.at.position + total - 1)
        } else {
            self.at.position + (total + 7) / 8 * 8
        }
    }

    /// The end form of the byte position behind it. On the page that it starts on, this is as far
    /// behind its first byte's address as the position is behind its own.
    pub(crate) fn end(self, geometry: Geometry, start: Lsn, next: u64) -> Lsn
        requires valid { IsSegmentSize geometry }
        requires start { start.0 ≡ address_of geometry self.at.position }
        requires low { start.0 < 2 ^ 60 }
        requires next { next < 2 ^ 60 }
        ensures { result.0 ≡ end_address_of geometry next }
    {
        let position = self.at.position;
        if position < next && next - position <= PAGE_SIZE - start.0 % PAGE_SIZE {
            return Lsn(start.0 + (next - position));
        }
        geometry.to_end_lsn(next)
    }
}
