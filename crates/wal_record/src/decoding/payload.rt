//! The payload of a record: each block's image, then its data, and the main data last.

ghost use Rattle.std.specs.Prelude.{◌≡◌, ◌+◌, ◌≤◌, length, IfErr, IfOk, OnOk};
ghost use Rattle.std.specs.List.{sum_by};
ghost use Rattle.wal_record.specs.Reading.{block_of, blocks_read, image_len, image_read, main_of, payload_len};

use crate::fault::RecErr;
use crate::head::{BlockHead, ImageHead};
use std::alloc::{AllocError, Global};
use wal_types::{Block, BlockList, Bytes, Image};

fn image_of(
    alloc: Global,
    head: Option<ImageHead>,
    bytes: &[u8],
) -> Result<Option<Image>, AllocError>
    requires { length bytes.now ≡ image_len head }
    ensures { IfOk result (λ i. i ≡ image_read head bytes.now) }
{
    let Some(head) = head else {
        return Ok(None);
    };
    Ok(Some(Image {
        apply: head.apply,
        hole_offset: head.hole_offset,
        hole_len: head.hole_len,
        bytes: Bytes::of(Vec::from_slice(alloc, bytes)?),
    }))
}

// The block whose image and data these bytes are.
fn block_of(alloc: Global, head: BlockHead, bytes: &[u8]) -> Result<Block, AllocError>
    requires { length bytes.now ≡ payload_len head }
    ensures { IfOk result (λ b. b ≡ block_of head bytes.now) }
{
    let (image, content) = bytes.split_at(usize::from(head.image_len()));
    Ok(Block {
        id: head.id,
        rel: head.rel,
        fork: head.fork,
        blk: head.blk,
        will_init: head.will_init,
        content: Bytes::of(Vec::from_slice(alloc, content)?),
        image: image_of(alloc, head.image, image)?,
    })
}

/// Puts the blocks of these headers into a list, in place of those that it had, and answers what
/// stands behind them in the payload.
pub(super) fn put_blocks<'a>(
    alloc: Global,
    blocks: &mut BlockList,
    heads: &[BlockHead],
    payload: &'a [u8],
) -> Result<&'a [u8], RecErr>
    requires { sum_by payload_len heads.now ≤ length payload.now }
    ensures blocks { OnOk result (blocks.new ≡ blocks_read heads.now payload.now) }
    ensures memory { IfErr result (λ e. e ≡ RecErr.Memory) }
    ensures main { IfOk result (λ rest. rest.now ≡ main_of heads.now payload.now) }
{
    blocks.clear();
    let mut rest = payload;
    for head in heads {
        let (bytes, behind) = rest.split_at(head.payload_len() as usize);
        blocks.push(block_of(alloc, *head, bytes)?)?;
        rest = behind;
    }
    Ok(rest)
}
