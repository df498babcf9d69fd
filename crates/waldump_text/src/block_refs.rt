//! The block references of a line (PostgreSQL's xlogdesc.c, XLogRecGetBlockRefInfo).

ghost use Rattle.std.specs.Prelude.{◌≡◌, ◌+◌, ◌^◌, ◌<◌, ◌≤◌, ◌++◌, length, All};
ghost use Rattle.wal_spelling.specs.Spelling.{image_bytes};
ghost use Rattle.waldump_text.specs.Put.{PutsBut, joined};
ghost use Rattle.waldump_text.specs.Listing.{block_pieces, blocks_text, fork_text, image_text, relation_text};
ghost use Rattle.waldump_text.specs.Sums.{images_len};
ghost use Rattle.waldump_text.specs.declared.line_buffer.TheConstants.{ROOM};

use crate::line_buffer::LineBuffer;
use crate::putting::SinkFault;
use segment_disk::Sink;
use wal_types::{Block, Image, Rel};
use waldump_filter::fork_name;

/// How many bytes a block's text has, at most.
const BLOCK_ROOM: usize = 128;

/// How many bytes the images of blocks have together.
pub(crate) fn images_len(blocks: &[Block]) -> u32
    requires { images_len blocks.now < 2 ^ 32 }
    ensures { result ≡ images_len blocks.now }
{
    let mut len = 0;
    for block in blocks {
        len += image_len(&block.image);
    }
    len
}

fn image_len(image: &Option<Image>) -> u32
    requires { length (image_bytes image.now) < 2 ^ 32 }
    ensures { result ≡ length (image_bytes image.now) }
{
    match image {
        None => 0,
        Some(image) => image.bytes.as_slice().len() as u32,
    }
}

/// Puts the references of a record to its blocks.
pub(crate) fn put_blocks<O: Sink>(
    buffer: &mut LineBuffer,
    blocks: &[Block],
    out: &mut O,
) -> Result<(), SinkFault>
    requires { All (λ b. b.fork ≤ 3) blocks.now }
    ensures { PutsBut (O.taken out.old) (O.taken out.new) (O.faults out.old) (O.faults out.new)
        (buffer.old ++ blocks_text blocks.now) buffer.new result }
{
    for block in blocks {
        buffer.make_room(BLOCK_ROOM, out)?;
        push_block(buffer, block);
    }
    Ok(())
}

fn push_block(buffer: &mut LineBuffer, block: &Block)
    requires fork { block.now.fork ≤ 3 }
    requires room { length buffer.old + BLOCK_ROOM ≤ ROOM }
    ensures { buffer.new ≡ buffer.old ++ joined (block_pieces block.now) }
{
    buffer.push(b", blkref #");
    buffer.push_number(u32::from(block.id));
    buffer.push(b": rel ");
    push_relation(buffer, block.rel);
    push_fork(buffer, block.fork);
    buffer.push(b" blk ");
    buffer.push_number(block.blk);
    buffer.push(image_text(&block.image));
}

fn push_relation(buffer: &mut LineBuffer, rel: Rel)
    requires { length buffer.old + 32 ≤ ROOM }
    ensures text { buffer.new ≡ buffer.old ++ relation_text rel }
    ensures length { length buffer.new ≤ length buffer.old + 32 }
{
    buffer.push_number(rel.spc);
    buffer.push(b"/");
    buffer.push_number(rel.db);
    buffer.push(b"/");
    buffer.push_number(rel.rel);
}

// A fork other than the main one is named.
fn push_fork(buffer: &mut LineBuffer, fork: u8)
    requires fork { fork ≤ 3 }
    requires room { length buffer.old + 10 ≤ ROOM }
    ensures text { buffer.new ≡ buffer.old ++ fork_text fork }
    ensures length { length buffer.new ≤ length buffer.old + 10 }
{
    if fork != 0 {
        buffer.push(b" fork ");
        buffer.push(fork_name(fork).as_bytes());
    }
}

// Whether a block has an image, and what it is for.
fn image_text(image: &Option<Image>) -> &'static [u8]
    ensures text { result.now ≡ image_text image.now }
    ensures short { length result.now ≤ 25 }
{
    match image {
        None => b"",
        Some(image) if image.apply => b" FPW",
        Some(_) => b" FPW for WAL verification",
    }
}
