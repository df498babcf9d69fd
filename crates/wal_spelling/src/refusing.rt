//! Which records are refused (PostgreSQL's XLogRecordAssemble of xloginsert.c).

ghost use Rattle.std.specs.Prelude.{◌≡◌, Some};
ghost use Rattle.wal_types.specs.declared.record.Record.{Record};
ghost use Rattle.wal_spelling.specs.Record.{is_right_block, is_right_image};
ghost use Rattle.wal_spelling.specs.Refusal.{first_bad_block, refusal_of};

use crate::assembly::after_header_len;
use crate::fault::BodyErr;
use crate::layout::*;
use crate::manager::is_free_manager;
use crate::segment_switch::is_switch;
use wal_types::{Block, Image, Record};

/// Why a record cannot be assembled: the first reason, or none. It takes no memory, and never
/// answers `Memory`.
#[tactic(auto, unfolding(crate::specs::Refusal::refusal_of))]
pub fn refusal(r: &Record) -> Option<BodyErr>
    ensures { result ≡ refusal_of r.now }
{
    if is_free_manager(r.rmid) {
        return Some(BodyErr::BadRmgr { rmid: r.rmid });
    }
    if is_switch(r) {
        return Some(BodyErr::Switch);
    }
    if let Some(index) = first_bad_block(r.blocks.as_slice()) {
        return Some(BodyErr::BadBlock { index });
    }
    let len = (HEADER_LEN + after_header_len(r)) as u64;
    if len > MAX_LEN {
        return Some(BodyErr::TooLong { len });
    }
    None
}

// The place of the first block that is not right.
fn first_bad_block(blocks: &[Block]) -> Option<u32>
    ensures { result ≡ first_bad_block 0 blocks.now }
{
    let mut index = 0;
    let mut floor = 0;
    for block in blocks {
        if !is_right_block(floor, block) {
            return Some(index);
        }
        index += 1;
        floor = block.id + 1;
    }
    None
}

fn is_right_block(floor: u8, block: &Block) -> bool
    ensures { result ≡ is_right_block floor block.now }
{
    let is_right_image = match &block.image {
        None => true,
        Some(image) => is_right_image(image),
    };
    (floor..=MAX_BLOCK_ID).contains(&block.id)
        && block.fork <= MAX_FORK
        && block.content.as_slice().len() <= MAX_CONTENT_LEN
        && is_right_image
}

fn is_right_image(image: &Image) -> bool
    ensures { result ≡ is_right_image (Some image.now) }
{
    let hole_offset = usize::from(image.hole_offset);
    let hole_len = usize::from(image.hole_len);
    let has_right_hole = if hole_len == 0 {
        hole_offset == 0
    } else {
        hole_offset > 0 && hole_offset + hole_len <= usize::from(PAGE_LEN)
    };
    image.bytes.as_slice().len() + hole_len == usize::from(PAGE_LEN) && has_right_hole
}
