//! A record's bytes read as they are stored: its images may be compressed (PostgreSQL's
//! DecodeXLogRecord of xlogreader.c, which unpacks none either).

ghost use Rattle.std.specs.Prelude.{◌≡◌, ◌+◌, ◌*◌, ◌<◌, ◌≤◌, ◌^◌, [], None, length, IfOk, IsTrue};
ghost use Rattle.std.specs.List.{sum_by};
ghost use Rattle.wal_record.specs.Filled.{held_after};
ghost use Rattle.wal_record.specs.Headers.{headers_said};
ghost use Rattle.wal_record.specs.Reading.{GivesAs, GivesReading, begins_block, least_id, payload_len, start_of_headers};
ghost use Rattle.wal_record.specs.Stored.{hole_item, is_no_hole, stored_block_item, stored_block_items, stored_headers_of, stored_image_item, stored_of};
ghost use Rattle.wal_record.specs.Unread.{GivesItem, cursor_of};

use super::blocks::{fork_item, image_flags, image_item, number_item, relation_item};
use super::cursor::malformed;
use super::items::{main_item, optional_u16, optional_u32};
use super::keeping::{Headers, KeepsRecord};
use super::unread::Unread;
use crate::fault::{RecErr, RecKind};
use crate::head::{BlockHead, ImageHead};
use std::alloc::Global;
use wal_spelling::is_free_manager;
use wal_spelling::layout::*;
use wal_spelling::numbers::u32_at;

// The length of a compressed image's hole, behind the image's header; 0 where it has none.
#[tactic(auto, unfolding(crate::specs::Stored::hole_item))]
fn hole_item<'a>(has_hole: bool, unread: Unread<'a>) -> Result<(u16, Unread<'a>), RecErr>
    ensures { GivesItem result (hole_item has_hole (cursor_of unread.entry)) }
{
    if !has_hole {
        return Ok((0, unread));
    }
    let Some((group, rest)) = unread.bytes.split_first_chunk::<2>() else {
        return Err(malformed(unread.at, RecKind::Short));
    };
    let behind = Unread {
        at: unread.at + 2,
        bytes: rest,
        owed: unread.owed,
    };
    Ok((u16::from_le_bytes(*group), behind))
}

// A compressed image's hole does not begin behind the page's first byte, or has no length.
fn is_no_hole(hole_offset: u16, hole_len: u16, has_hole: bool) -> bool
    ensures { result ≡ is_no_hole hole_offset hole_len has_hole }
{
    if has_hole {
        hole_offset == 0 || hole_len == 0
    } else {
        hole_offset != 0
    }
}

#[tactic(auto, unfolding(crate::specs::Stored::stored_image_item))]
fn stored_image_item<'a>(
    has_image: bool,
    id: u8,
    unread: Unread<'a>,
) -> Result<(Option<ImageHead>, Unread<'a>), RecErr>
    ensures { GivesItem result (stored_image_item has_image id (cursor_of unread.entry)) }
{
    if !has_image {
        return Ok((None, unread));
    }
    let Some((group, rest)) = unread.bytes.split_first_chunk::<5>() else {
        return Err(malformed(unread.at, RecKind::Short));
    };
    let len = u16::from_le_bytes([group[0], group[1]]);
    let hole_offset = u16::from_le_bytes([group[2], group[3]]);
    let flags = image_flags(group[4]);
    if !flags.compressed {
        return image_item(has_image, id, unread);
    }
    if len >= PAGE_LEN || flags.unknown {
        return Err(malformed(unread.at, RecKind::Image));
    }
    let behind = Unread {
        at: unread.at + 5,
        bytes: rest,
        owed: unread.owed,
    };
    let (hole_len, behind) = hole_item(flags.has_hole, behind)?;
    if is_no_hole(hole_offset, hole_len, flags.has_hole) {
        return Err(malformed(unread.at, RecKind::Image));
    }
    let head = ImageHead {
        apply: flags.apply,
        hole_offset,
        hole_len,
        len,
    };
    Ok((Some(head), behind))
}

// A block's header, behind that of the block before.
#[tactic(auto, unfolding(crate::specs::Stored::stored_block_item))]
fn stored_block_item<'a>(
    before: Option<BlockHead>,
    start: Unread<'a>,
) -> Result<(BlockHead, Unread<'a>), RecErr>
    requires block { IsTrue (begins_block start.bytes.now) }
    requires owed_fits { start.owed < 2 ^ 62 }
    ensures ids { IfOk result (λ x. (least_id before ≤ x.0.id) × (x.0.id ≤ 32)) }
    ensures owed { IfOk result (λ x.
        (x.1.owed ≡ start.entry.owed + payload_len x.0) × (payload_len x.0 ≤ 131070)) }
    ensures exact { GivesItem result (stored_block_item before (cursor_of start.entry)) }
{
    let id = start.bytes[0];
    if before.is_some_and(|head| id <= head.id) {
        return Err(malformed(start.at, RecKind::Order));
    }
    let behind_id = Unread {
        at: start.at + 1,
        bytes: &start.bytes[1..],
        owed: start.owed,
    };
    let ((flags, content_len), unread) = fork_item(behind_id)?;
    let (image, unread) = stored_image_item(flags.has_image, id, unread)?;
    let (rel, unread) = relation_item(flags.same, before, unread)?;
    let (blk, unread) = number_item(unread)?;
    let head = BlockHead {
        id,
        rel,
        fork: flags.fork,
        blk,
        will_init: flags.will_init,
        image,
        content_len,
    };
    let owed = start.owed + u64::from(head.payload_len());
    Ok((
        head,
        Unread {
            at: unread.at,
            bytes: unread.bytes,
            owed,
        },
    ))
}

// The headers of blocks that stand here, put into `heads`.
#[tactic(auto, unfolding(crate::specs::Stored::stored_block_items))]
fn stored_block_items<'a>(
    heads: &mut Vec<BlockHead>,
    start: Unread<'a>,
) -> Result<Unread<'a>, RecErr>
    requires { start.owed ≡ 0 }
    ensures exact { GivesAs (λ x. record { value = heads.new.items; next = cursor_of x }) result
        (stored_block_items (length start.entry.bytes.now) None [] (cursor_of start.entry)) }
    ensures promised { IfOk result (λ x. x.owed ≡ sum_by payload_len heads.new.items) }
    ensures owed_fits { IfOk result (λ x. x.owed < 2 ^ 23) }
{
    heads.clear();
    let mut before = None;
    let mut unread = start;
    while unread.is_at_block() {
        let (head, behind) = stored_block_item(before, unread)?;
        heads.push(head)?;
        before = Some(head);
        unread = behind;
    }
    Ok(unread)
}

// `bytes` are those behind the record's header; the heads of blocks are put into `heads`.
#[tactic(auto, unfolding(crate::specs::Stored::stored_headers_of))]
fn stored_headers<'a>(heads: &mut Vec<BlockHead>, bytes: &'a [u8]) -> Result<Headers<'a>, RecErr>
    requires { length bytes.now + 24 < 2 ^ 64 }
    ensures exact { GivesAs (headers_said heads.new.items) result
        (stored_headers_of (start_of_headers bytes.now)) }
    ensures promised { IfOk result
        (λ h. sum_by payload_len heads.new.items ≤ length h.payload.now) }
{
    let unread = Unread {
        at: HEADER_LEN as u64,
        bytes,
        owed: 0,
    };
    let unread = stored_block_items(heads, unread)?;
    let (origin, unread) = optional_u16(ORIGIN, unread)?;
    let (top_xid, unread) = optional_u32(TOP_XID, unread)?;
    let end = main_item(unread)?;
    if end.owed != end.bytes.len() as u64 {
        return Err(malformed(end.at, RecKind::Fill));
    }
    Ok(Headers {
        origin,
        top_xid,
        payload: end.bytes,
    })
}

/// `decode_into` for a record whose images may be compressed: they have the bytes that are stored
/// of them, and their holes as they are told. All else is read and checked as there.
#[tactic(auto, unfolding(crate::specs::Stored::stored_of))]
pub fn decode_stored<K: KeepsRecord>(
    alloc: Global,
    heads: &mut Vec<BlockHead>,
    keeper: &mut K,
    bytes: &[u8],
) -> Result<(), RecErr>
    ensures { GivesReading (held_after (K.kept keeper.new) result) (stored_of bytes.now) }
{
    if bytes.len() < HEADER_LEN || u32_at(bytes, LEN_AT) as usize != bytes.len() {
        return Err(malformed(0, RecKind::Length));
    }
    if is_free_manager(bytes[RMID_AT]) {
        return Err(malformed(RMID_AT as u64, RecKind::Rmgr));
    }
    let (_, behind_header) = bytes.split_at(HEADER_LEN);
    let headers = stored_headers(heads, behind_header)?;
    keeper.keep(alloc, bytes, heads, headers)
}
