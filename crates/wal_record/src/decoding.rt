//! Reading a record's bytes (PostgreSQL's DecodeXLogRecord of xlogreader.c).

mod blocks;
mod cursor;
mod items;
mod keeping;
mod payload;
mod stored;
mod unread;

ghost use Rattle.std.specs.Prelude.{◌≡◌, ◌+◌, ◌<◌, ◌≤◌, ◌^◌, length, IfErr, IfOk, Ok, Err};
ghost use Rattle.std.specs.List.{sum_by};
ghost use Rattle.wal_types.specs.declared.record.Record.{Record};
ghost use Rattle.wal_record.specs.Headers.{headers_said};
ghost use Rattle.wal_record.specs.Reading.{GivesReading, GivesAs, headers_of, items_of, payload_len, reading_of, start_of_headers};
ghost use Rattle.wal_record.specs.Fails.{FailsAt, TellsFirstFault};
ghost use Rattle.wal_record.specs.Spells.{Spells};
ghost use Rattle.wal_record.specs.Filled.{held_after};

use crate::fault::{RecErr, RecKind};
use crate::head::BlockHead;
use blocks::block_items;
use cursor::malformed;
use items::{main_item, optional_u16, optional_u32};
pub use keeping::{Headers, KeepsRecord};
use std::alloc::Global;
pub use stored::decode_stored;
use unread::Unread;
use wal_spelling::is_free_manager;
use wal_spelling::layout::*;
use wal_spelling::numbers::u32_at;
use wal_types::Record;

#[tactic(auto, unfolding(crate::specs::Reading::headers_of))]
// `bytes` are those behind the record's header; the heads of blocks are put into `heads`.
fn read_headers<'a>(heads: &mut Vec<BlockHead>, bytes: &'a [u8]) -> Result<Headers<'a>, RecErr>
    requires { length bytes.now + 24 < 2 ^ 64 }
    ensures exact { GivesAs (headers_said heads.new.items) result
        (headers_of (start_of_headers bytes.now)) }
    ensures promised { IfOk result
        (λ h. sum_by payload_len heads.new.items ≤ length h.payload.now) }
{
    let unread = Unread {
        at: HEADER_LEN as u64,
        bytes,
        owed: 0,
    };
    let unread = block_items(heads, unread)?;
    let (origin, unread) = optional_u16(ORIGIN, unread)?;
    let (top_xid, unread) = optional_u32(TOP_XID, unread)?;
    let end = main_item(unread)?;
    if end.owed != end.bytes.len() as u64 {
        return Err(malformed(end.at, RecKind::Fill));
    }
    Ok(Headers {
        origin,
        top_xid,
        payload: end.bytes,
    })
}

#[tactic(auto, unfolding(crate::specs::Reading::items_of))]
fn read_items<K: KeepsRecord>(
    alloc: Global,
    heads: &mut Vec<BlockHead>,
    keeper: &mut K,
    bytes: &[u8],
) -> Result<(), RecErr>
    requires { 24 ≤ length bytes.now }
    ensures { GivesReading (held_after (K.kept keeper.new) result) (items_of bytes.now) }
{
    let (_, behind_header) = bytes.split_at(HEADER_LEN);
    let headers = read_headers(heads, behind_header)?;
    keeper.keep(alloc, bytes, heads, headers)
}

#[tactic(auto, unfolding(crate::specs::Reading::reading_of))]
fn reading<K: KeepsRecord>(
    alloc: Global,
    heads: &mut Vec<BlockHead>,
    keeper: &mut K,
    bytes: &[u8],
) -> Result<(), RecErr>
    ensures { GivesReading (held_after (K.kept keeper.new) result) (reading_of bytes.now) }
{
    if bytes.len() < HEADER_LEN || u32_at(bytes, LEN_AT) as usize != bytes.len() {
        return Err(malformed(0, RecKind::Length));
    }
    if is_free_manager(bytes[RMID_AT]) {
        return Err(malformed(RMID_AT as u64, RecKind::Rmgr));
    }
    read_items(alloc, heads, keeper, bytes)
}

/// Reads a record's bytes, all of them: the headers of its items from left to right, as long as
/// more bytes are left than the items owe, and then the payload. It looks at neither the CRC nor
/// the start of the record before.
pub fn decode(alloc: Global, bytes: &[u8]) -> Result<Record, RecErr>
    // What is read is spelled so.
    ensures spelled { IfOk result (λ r. Spells bytes.now r) }
    // What is spelled so is read, unless memory runs out.
    ensures reads { (r : Record) → Spells bytes.now r → GivesReading result (Ok r) }
    // An error is the first check that fails.
    ensures fails { IfErr result (TellsFirstFault bytes.now) }
    // The first check that fails is the error, unless memory runs out.
    ensures refuses { (e : RecErr) → FailsAt bytes.now e → GivesReading result (Err e) }
    // All of it as one reading from left to right.
    ensures as_reading { GivesReading result (reading_of bytes.now) }
{
    let mut record = Record::blank(alloc);
    decode_into(alloc, &mut Vec::new(alloc), &mut record, bytes)?;
    Ok(record)
}

/// `decode`, with the record kept as the caller asks for, in one that it has or not at all, and the
/// heads of blocks put into a vector, whatever both held: where their room is large enough no
/// memory is taken for main data and for lists. All checks are made whatever is kept. Behind an
/// error what is kept means nothing.
pub fn decode_into<K: KeepsRecord>(
    alloc: Global,
    heads: &mut Vec<BlockHead>,
    keeper: &mut K,
    bytes: &[u8],
) -> Result<(), RecErr>
    // What is read is spelled so; what is spelled so is read, unless memory runs out; an error is
    // the first check that fails. So it is whatever was kept and the vector held.
    ensures spelled { IfOk (held_after (K.kept keeper.new) result) (λ r. Spells bytes.now r) }
    ensures reads { (r : Record) → Spells bytes.now r
        → GivesReading (held_after (K.kept keeper.new) result) (Ok r) }
    ensures fails { IfErr result (TellsFirstFault bytes.now) }
    ensures refuses { (e : RecErr) → FailsAt bytes.now e
        → GivesReading (held_after (K.kept keeper.new) result) (Err e) }
    ensures as_reading { GivesReading (held_after (K.kept keeper.new) result)
        (reading_of bytes.now) }
{
    reading(alloc, heads, keeper, bytes)
}
