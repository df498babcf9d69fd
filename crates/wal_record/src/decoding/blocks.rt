//! The headers of a record's blocks.

ghost use Rattle.std.specs.Prelude.{◌≡◌, ◌+◌, ◌*◌, ◌<◌, ◌≤◌, ◌^◌, [], None, length, IfOk, IsTrue};
ghost use Rattle.std.specs.List.{sum_by};
ghost use Rattle.wal_record.specs.Reading.{GivesAs, begins_block, block_item, block_items, fork_flags, fork_item, image_flags, image_item, is_wrong_hole, least_id, number_item, payload_len, relation_item};
ghost use Rattle.wal_record.specs.Unread.{GivesItem, cursor_of};

use super::cursor::malformed;
use super::unread::Unread;
use crate::fault::{RecErr, RecKind};
use crate::head::{BlockHead, ForkFlags, ImageFlags, ImageHead};
use wal_spelling::layout::*;
use wal_types::Rel;

fn fork_flags(byte: u8) -> ForkFlags
    ensures { result ≡ fork_flags byte }
{
    ForkFlags {
        fork: byte & FORK_MASK,
        has_image: byte & HAS_IMAGE != 0,
        has_data: byte & HAS_DATA != 0,
        will_init: byte & WILL_INIT != 0,
        same: byte & SAME_REL != 0,
    }
}

// The fork byte and the length of the block's data.
#[tactic(auto, unfolding(crate::specs::Reading::fork_item))]
pub(super) fn fork_item<'a>(unread: Unread<'a>) -> Result<((ForkFlags, u16), Unread<'a>), RecErr>
    ensures { GivesItem result (fork_item (cursor_of unread.entry)) }
{
    let Some((group, rest)) = unread.bytes.split_first_chunk::<3>() else {
        return Err(malformed(unread.at, RecKind::Short));
    };
    let flags = fork_flags(group[0]);
    let content_len = u16::from_le_bytes([group[1], group[2]]);
    if flags.fork > MAX_FORK {
        return Err(malformed(unread.at, RecKind::Fork));
    }
    if flags.has_data != (content_len > 0) {
        return Err(malformed(unread.at, RecKind::Data));
    }
    let behind = Unread {
        at: unread.at + 3,
        bytes: rest,
        owed: unread.owed,
    };
    Ok(((flags, content_len), behind))
}

pub(super) fn image_flags(byte: u8) -> ImageFlags
    ensures { result ≡ image_flags byte }
{
    ImageFlags {
        has_hole: byte & HAS_HOLE != 0,
        apply: byte & APPLY != 0,
        compressed: byte & COMPRESSED != 0,
        unknown: byte & UNKNOWN_FLAGS != 0,
    }
}

// The hole of an image of `len` bytes does not lie within its page, behind the page's first byte.
fn is_wrong_hole(len: u16, hole_offset: u16, has_hole: bool) -> bool
    requires { len ≤ 8192 }
    ensures { result ≡ is_wrong_hole len hole_offset has_hole }
{
    if has_hole {
        hole_offset == 0
            || len == PAGE_LEN
            || u32::from(hole_offset) + u32::from(PAGE_LEN - len) > u32::from(PAGE_LEN)
    } else {
        hole_offset != 0 || len != PAGE_LEN
    }
}

#[tactic(auto, unfolding(crate::specs::Reading::image_item))]
pub(super) fn image_item<'a>(
    has_image: bool,
    id: u8,
    unread: Unread<'a>,
) -> Result<(Option<ImageHead>, Unread<'a>), RecErr>
    ensures { GivesItem result (image_item has_image id (cursor_of unread.entry)) }
{
    if !has_image {
        return Ok((None, unread));
    }
    let Some((group, rest)) = unread.bytes.split_first_chunk::<5>() else {
        return Err(malformed(unread.at, RecKind::Short));
    };
    let len = u16::from_le_bytes([group[0], group[1]]);
    let hole_offset = u16::from_le_bytes([group[2], group[3]]);
    let flags = image_flags(group[4]);
    if len > PAGE_LEN || flags.unknown {
        return Err(malformed(unread.at, RecKind::Image));
    }
    if flags.compressed {
        return Err(RecErr::Compressed { block: id });
    }
    if is_wrong_hole(len, hole_offset, flags.has_hole) {
        return Err(malformed(unread.at, RecKind::Image));
    }
    let head = ImageHead {
        apply: flags.apply,
        hole_offset,
        hole_len: PAGE_LEN - len,
        len,
    };
    let behind = Unread {
        at: unread.at + 5,
        bytes: rest,
        owed: unread.owed,
    };
    Ok((Some(head), behind))
}

#[tactic(auto, unfolding(crate::specs::Reading::relation_item))]
pub(super) fn relation_item<'a>(
    same: bool,
    before: Option<BlockHead>,
    unread: Unread<'a>,
) -> Result<(Rel, Unread<'a>), RecErr>
    ensures { GivesItem result (relation_item same before (cursor_of unread.entry)) }
{
    if same {
        let Some(head) = before else {
            return Err(malformed(unread.at, RecKind::Same));
        };
        return Ok((head.rel, unread));
    }
    let Some((group, rest)) = unread.bytes.split_first_chunk::<12>() else {
        return Err(malformed(unread.at, RecKind::Short));
    };
    let rel = Rel {
        spc: u32::from_le_bytes([group[0], group[1], group[2], group[3]]),
        db: u32::from_le_bytes([group[4], group[5], group[6], group[7]]),
        rel: u32::from_le_bytes([group[8], group[9], group[10], group[11]]),
    };
    let behind = Unread {
        at: unread.at + 12,
        bytes: rest,
        owed: unread.owed,
    };
    Ok((rel, behind))
}

#[tactic(auto, unfolding(crate::specs::Reading::number_item))]
pub(super) fn number_item<'a>(unread: Unread<'a>) -> Result<(u32, Unread<'a>), RecErr>
    ensures { GivesItem result (number_item (cursor_of unread.entry)) }
{
    let Some((group, rest)) = unread.bytes.split_first_chunk::<4>() else {
        return Err(malformed(unread.at, RecKind::Short));
    };
    let behind = Unread {
        at: unread.at + 4,
        bytes: rest,
        owed: unread.owed,
    };
    Ok((u32::from_le_bytes(*group), behind))
}

// A block's header, behind that of the block before.
#[tactic(auto, unfolding(crate::specs::Reading::block_item))]
fn block_item<'a>(
    before: Option<BlockHead>,
    start: Unread<'a>,
) -> Result<(BlockHead, Unread<'a>), RecErr>
    requires block { IsTrue (begins_block start.bytes.now) }
    requires owed_fits { start.owed < 2 ^ 62 }
    ensures ids { IfOk result (λ x. (least_id before ≤ x.0.id) × (x.0.id ≤ 32)) }
    ensures owed { IfOk result (λ x.
        (x.1.owed ≡ start.entry.owed + payload_len x.0) × (payload_len x.0 ≤ 131070)) }
    ensures exact { GivesItem result (block_item before (cursor_of start.entry)) }
{
    let id = start.bytes[0];
    if before.is_some_and(|head| id <= head.id) {
        return Err(malformed(start.at, RecKind::Order));
    }
    let behind_id = Unread {
        at: start.at + 1,
        bytes: &start.bytes[1..],
        owed: start.owed,
    };
    let ((flags, content_len), unread) = fork_item(behind_id)?;
    let (image, unread) = image_item(flags.has_image, id, unread)?;
    let (rel, unread) = relation_item(flags.same, before, unread)?;
    let (blk, unread) = number_item(unread)?;
    let head = BlockHead {
        id,
        rel,
        fork: flags.fork,
        blk,
        will_init: flags.will_init,
        image,
        content_len,
    };
    let owed = start.owed + u64::from(head.payload_len());
    Ok((
        head,
        Unread {
            at: unread.at,
            bytes: unread.bytes,
            owed,
        },
    ))
}

/// The headers of blocks that stand here, put into `heads`.
#[tactic(auto, unfolding(crate::specs::Reading::block_items))]
pub(super) fn block_items<'a>(
    heads: &mut Vec<BlockHead>,
    start: Unread<'a>,
) -> Result<Unread<'a>, RecErr>
    requires { start.owed ≡ 0 }
    ensures exact { GivesAs (λ x. record { value = heads.new.items; next = cursor_of x }) result
        (block_items (length start.entry.bytes.now) None [] (cursor_of start.entry)) }
    ensures promised { IfOk result (λ x. x.owed ≡ sum_by payload_len heads.new.items) }
    ensures owed_fits { IfOk result (λ x. x.owed < 2 ^ 23) }
{
    heads.clear();
    let mut before = None;
    let mut unread = start;
    while unread.is_at_block() {
        let (head, behind) = block_item(before, unread)?;
        heads.push(head)?;
        before = Some(head);
        unread = behind;
    }
    Ok(unread)
}
