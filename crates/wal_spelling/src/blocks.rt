//! How a record's references to blocks are spelled (XLogRecordBlockHeader of PostgreSQL's
//! xlogrecord.h).

ghost use Rattle.std.specs.Prelude.{◌≡◌, ◌+◌, ◌^◌, ◌<◌, ◌≤◌, ◌++◌, length, All, IfSome, IsTrue, OnOk, if◌then◌else◌, nat_lt, None, []};
ghost use Rattle.std.specs.List.{flat_map};
ghost use Rattle.wal_spelling.specs.Fitting.{HeaderFits, PayloadFits};
ghost use Rattle.wal_spelling.specs.Record.{are_right_blocks, is_right_block, is_right_image};
ghost use Rattle.wal_spelling.specs.Spelling.{block_header, block_headers, block_payload, flag, fork_byte, image_bytes, image_header, is_same_relation, relation_bytes};

use crate::layout::*;
use std::alloc::AllocError;
use wal_types::{Block, Image, Rel};

// How many bytes the blocks take up in their record.
pub(crate) fn blocks_len(blocks: &[Block]) -> usize
    requires { IsTrue (are_right_blocks 0 blocks.now) }
    ensures length { result
        ≡ length (block_headers None blocks.now) + length (flat_map block_payload blocks.now) }
    ensures bound { result < 2 ^ 22 }
{
    let mut len = 0;
    let mut before = None;
    for block in blocks {
        len += block_len(before, block);
        before = Some(block.rel);
    }
    len
}

fn block_len(before: Option<Rel>, block: &Block) -> usize
    requires { IsTrue (is_right_block 0 block.now) }
    ensures { result
        ≡ length (block_header block.now (is_same_relation before block.now.rel))
        + length (block_payload block.now) }
{
    let relation = if is_same_relation(before, block.rel) {
        0
    } else {
        12
    };
    let image = match &block.image {
        None => 0,
        Some(image) => 5 + image.bytes.as_slice().len(),
    };
    8 + relation + image + block.content.as_slice().len()
}

pub(crate) fn put_block_headers(out: &mut Vec<u8>, blocks: &[Block]) -> Result<(), AllocError>
    requires { All (λ b. IsTrue (is_right_block 0 b)) blocks.now }
    ensures ok { OnOk result (out.new.items ≡ out.old.items ++ block_headers None blocks.now) }
    ensures fits { OnOk result (All HeaderFits blocks.now) }
{
    let mut before = None;
    for block in blocks {
        put_block_header(out, before, block)?;
        before = Some(block.rel);
    }
    Ok(())
}

fn put_block_header(out: &mut Vec<u8>, before: Option<Rel>, block: &Block) -> Result<(), AllocError>
    requires { IsTrue (is_right_block 0 block.now) }
    ensures ok { OnOk result (out.new.items
        ≡ out.old.items ++ block_header block.now (is_same_relation before block.now.rel)) }
    ensures fits { OnOk result (HeaderFits block.now) }
{
    let Block { id, rel, blk, .. } = *block;
    let same = is_same_relation(before, rel);
    let [l0, l1] = (block.content.as_slice().len() as u16).to_le_bytes();
    out.extend_from_slice(&[id, block_flags(block, same), l0, l1])?;
    put_image_header(out, &block.image)?;
    put_relation(out, same, rel)?;
    out.extend_from_slice(&blk.to_le_bytes())
}

// Whether a block's relation is that of the block just before it.
pub(crate) fn is_same_relation(before: Option<Rel>, rel: Rel) -> bool
    ensures { result ≡ is_same_relation before rel }
{
    before == Some(rel)
}

// A block's fork, with its flags.
pub(crate) fn block_flags(block: &Block, same: bool) -> u8
    requires { block.now.fork ≤ 3 }
    ensures { result ≡ fork_byte block.now same }
{
    block.fork
        + flag(block.image.is_some(), HAS_IMAGE)
        + flag(!block.content.as_slice().is_empty(), HAS_DATA)
        + flag(block.will_init, WILL_INIT)
        + flag(same, SAME_REL)
}

fn flag(is: bool, worth: u8) -> u8
    ensures { result ≡ flag is worth }
{
    if is { worth } else { 0 }
}

fn put_image_header(out: &mut Vec<u8>, image: &Option<Image>) -> Result<(), AllocError>
    requires { IsTrue (is_right_image image.now) }
    ensures ok { OnOk result (out.new.items ≡ out.old.items ++ image_header image.now) }
    ensures fits { IfSome image.now (λ i. (i.hole_offset < 2 ^ 16) × (i.hole_len < 2 ^ 16)) }
{
    if let Some(image) = image {
        let [l0, l1] = (image.bytes.as_slice().len() as u16).to_le_bytes();
        let [h0, h1] = image.hole_offset.to_le_bytes();
        out.extend_from_slice(&[l0, l1, h0, h1, image_flags(image)])?;
    }
    Ok(())
}

pub(crate) fn image_flags(image: &Image) -> u8
    ensures { result ≡ flag (nat_lt 0 image.now.hole_len) 1 + flag image.now.apply 2 }
{
    flag(image.hole_len > 0, HAS_HOLE) + flag(image.apply, APPLY)
}

fn put_relation(out: &mut Vec<u8>, same: bool, rel: Rel) -> Result<(), AllocError>
    ensures ok { OnOk result
        (out.new.items ≡ out.old.items ++ (if same then [] else relation_bytes rel)) }
    ensures fits { (rel.spc < 2 ^ 32) × (rel.db < 2 ^ 32) × (rel.rel < 2 ^ 32) }
{
    if !same {
        let [s0, s1, s2, s3] = rel.spc.to_le_bytes();
        let [d0, d1, d2, d3] = rel.db.to_le_bytes();
        let [r0, r1, r2, r3] = rel.rel.to_le_bytes();
        out.extend_from_slice(&[s0, s1, s2, s3, d0, d1, d2, d3, r0, r1, r2, r3])?;
    }
    Ok(())
}

// What the blocks carry: of each its image, then its data.
pub(crate) fn put_payloads(out: &mut Vec<u8>, blocks: &[Block]) -> Result<(), AllocError>
    ensures ok { OnOk result (out.new.items ≡ out.old.items ++ flat_map block_payload blocks.now) }
    ensures fits { OnOk result (All PayloadFits blocks.now) }
{
    for block in blocks {
        put_payload(out, block)?;
    }
    Ok(())
}

fn put_payload(out: &mut Vec<u8>, block: &Block) -> Result<(), AllocError>
    ensures ok { OnOk result (out.new.items ≡ out.old.items ++ block_payload block.now) }
    ensures fits { OnOk result (PayloadFits block.now) }
{
    put_image(out, &block.image)?;
    put_bytes(out, block.content.as_slice())
}

fn put_image(out: &mut Vec<u8>, image: &Option<Image>) -> Result<(), AllocError>
    ensures ok { OnOk result (out.new.items ≡ out.old.items ++ image_bytes image.now) }
    ensures fits { IfSome image.now (λ i. All (λ b. b < 256) i.bytes) }
{
    match image {
        None => Ok(()),
        Some(image) => put_bytes(out, image.bytes.as_slice()),
    }
}

pub(crate) fn put_bytes(out: &mut Vec<u8>, bytes: &[u8]) -> Result<(), AllocError>
    ensures ok { OnOk result (out.new.items ≡ out.old.items ++ bytes.now) }
    ensures fits { All (λ b. b < 256) bytes.now }
{
    out.extend_from_slice(bytes)
}
