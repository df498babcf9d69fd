//! The checks of a record's bytes, and what they say (PostgreSQL's ValidXLogRecordHeader and
//! ValidXLogRecord of xlogreader.c, then DecodeXLogRecord). A header is checked as soon as it is
//! gathered; the CRC comes over all bytes, before any item is looked at.

ghost use Rattle.std.specs.Prelude.{◌≡◌, ◌^◌, ◌<◌, ◌≤◌, ◌++◌, length, take, drop, option_map, IfOk};
ghost use Rattle.std.specs.Int.{w64};
ghost use Rattle.byte_position.specs.Geometry.{IsSegmentSize};
ghost use Rattle.byte_position.specs.Position.{address_of, end_address_of};
ghost use Rattle.wal_types.specs.declared.record.Record.{Record};
ghost use Rattle.wal_crc32c.specs.Crc32c.{crc32c};
ghost use Rattle.wal_page.specs.Page.{first_fault};
ghost use Rattle.wal_spelling.specs.Numbers.{number_at};
ghost use Rattle.wal_record.specs.Reading.{reading_of};
ghost use Rattle.wal_reader.specs.Decodes.{crc_rows, header_rows, next_position};
ghost use Rattle.wal_reader.specs.Filled.{read_with};
ghost use Rattle.wal_reader.specs.ReadAt.{found_or};
ghost use Rattle.wal_reader.specs.RecordRead.{behind_read, without_place};
ghost use Rattle.wal_reader.specs.Spelled.{IsSpelled};
ghost use Rattle.wal_reader.specs.ReadFailures.{Passes};

use crate::answers::damaged;
use crate::found::{Answer, DamageKind, RecordHead, Stopped};
use crate::layout::{CRC_AT, PREV_AT};
use crate::record_extent::RecordExtent;
use crate::record_place::RecordPlace;
use byte_position::Geometry;
use std::alloc::{AllocError, Global};
use wal_crc32c::Crc;
use wal_record::{BlockHead, KeepsRecord, RecErr, decode_into};
use wal_spelling::is_free_manager;
use wal_spelling::layout::{HEADER_LEN, INFO_AT, LEN_AT, RMID_AT};
use wal_spelling::numbers::{u32_at, u64_at};
use wal_types::Lsn;

/// Whether a header has a manager that there is, and names the right record before it (PostgreSQL's
/// ValidXLogRecordHeader of xlogreader.c).
pub(crate) fn check_header(start: Lsn, before: Option<Lsn>, header: &[u8]) -> Result<(), Answer>
    requires { 24 ≤ length header.now }
    ensures { Passes (first_fault (header_rows start.0 before header.now)) result }
{
    if is_free_manager(header[RMID_AT]) {
        return Err(damaged(start, DamageKind::Rmgr));
    }
    let found = Lsn(u64_at(header, PREV_AT));
    let is_right = match before {
        Some(before) => found.0 == before.0,
        None => found.0 < start.0,
    };
    if !is_right {
        return Err(damaged(start, DamageKind::Prev { found }));
    }
    Ok(())
}

/// Whether a record's CRC is that of its bytes (PostgreSQL's ValidXLogRecord of xlogreader.c).
#[inline(always)]
pub(crate) fn check_crc(start: Lsn, bytes: &[u8]) -> Result<(), Answer>
    requires { 24 ≤ length bytes.now }
    ensures { Passes (first_fault (crc_rows start.0 bytes.now)) result }
{
    if crc_of(bytes) != u32_at(bytes, CRC_AT) {
        return Err(damaged(start, DamageKind::Crc));
    }
    Ok(())
}

/// What the bytes of a record say, and the place behind it: `timeline` is that of the page in which
/// it ends. The record is kept by `value`, and the heads of its blocks are read into `heads`.
#[tactic(auto, unfolding(crate::specs::Spelled::IsSpelled))]
#[inline(always)]
pub(crate) fn found<K: KeepsRecord>(
    alloc: Global,
    value: &mut K,
    geometry: Geometry,
    start: Lsn,
    extent: RecordExtent,
    timeline: u32,
    bytes: &[u8],
    heads: &mut Vec<BlockHead>,
) -> Result<Result<(RecordHead, RecordPlace), Answer>, AllocError>
    // The size is valid, the bytes are as many as the record claims, and whatever they say, the
    // next record starts low enough to have an address.
    requires at { extent.at.position < 2 ^ 60 }
    requires start { start.0 ≡ address_of geometry extent.at.position }
    requires low { IsSegmentSize geometry × (start.0 < 2 ^ 60) }
    requires len { (24 ≤ length bytes.now) × (length bytes.now ≡ extent.total) }
    requires end { (value : Record)
        → next_position geometry extent.at.position extent.total value < 2 ^ 60 }
    // What the bytes spell, or why they spell nothing; with the record's place.
    ensures read { IfOk result (λ said. without_place (read_with (K.kept value.new) said)
        ≡ found_or geometry extent.at extent.total (number_at w64 bytes.now 8)
        (reading_of bytes.now)) }
    ensures spelled { IfOk result (λ said. IfOk (read_with (K.kept value.new) said)
        (λ read. IsSpelled read.0)) }
    ensures start { IfOk result (λ said. IfOk said (λ read. read.0.start ≡ start)) }
    ensures end { IfOk result (λ said. IfOk said (λ read. read.0.end.0
        ≡ end_address_of geometry read.1.position)) }
    ensures behind { IfOk result (λ said. IfOk (read_with (K.kept value.new) said) (λ read. read.1
        ≡ behind_read geometry extent.at read.0 extent.total timeline)) }
{
    match decode_into(alloc, heads, value, bytes) {
        Ok(()) => {
            let next = extent.next_position(geometry, bytes);
            let head = RecordHead {
                start,
                end: extent.end(geometry, start, next),
                prev: Lsn(u64_at(bytes, PREV_AT)),
                total: extent.total,
            };
            let behind = RecordPlace {
                position: next,
                prev: Some(start),
                timeline,
            };
            Ok(Ok((head, behind)))
        }
        Err(RecErr::Memory) => Err(AllocError),
        Err(RecErr::Malformed { .. }) => Ok(Err(damaged(start, DamageKind::Malformed))),
        Err(RecErr::Compressed { .. }) => {
            let compressed = Stopped::Compressed { at: start };
            Ok(Err(Answer::Stopped(compressed)))
        }
    }
}

// What is behind the header, and then the header up to the CRC, in which the start of the record
// before is the gap.
fn crc_of(bytes: &[u8]) -> u32
    requires { 24 ≤ length bytes.now }
    ensures { result ≡ crc32c (drop 24 bytes.now ++ take 20 bytes.now) }
{
    let mut crc = Crc::new();
    crc.update(&bytes[HEADER_LEN..]);
    crc.update_round_gap(u64_at(bytes, LEN_AT), u32_at(bytes, INFO_AT));
    crc.with_gap_filled(u64_at(bytes, PREV_AT)).value()
}
