ghost use Rattle.std.specs.Prelude.{◌≡◌, ◌==◌, [], not, count_by, slice_index_or};
ghost use Rattle.waldump_filter.specs.Names.{fork_names};
ghost use Rattle.std.specs.List.Sorted.{IsStrictlySortedBy};
ghost use Rattle.std.specs.Map.{keys_of};
ghost use Rattle.waldump_text.specs.Put.{Puts, joined};
ghost use Rattle.wal_redo.specs.BlockOrder.{block_order};
ghost use Rattle.wal_redo.specs.MemBlocks.{stored_pages};
ghost use Rattle.wal_redo.specs.RedoText.{block_line, counts_line, redo_text};

use crate::block_id::BlockId;
use crate::mem_blocks::MemBlocks;
use byte_position::Page;
use itoa::Buffer;
use segment_disk::Sink;
use waldump_filter::fork_name;
use waldump_text::{SinkFault, put_all};

// How many bytes of a piece are not 0. The count fits a byte, so sixteen bytes are counted at once.
fn nonzero_in_piece(piece: &[u8; 128]) -> u8
    ensures { result ≡ count_by (λ byte. not (byte == 0)) piece.now }
{
    let mut count = 0;
    for byte in piece {
        count += u8::from(*byte != 0);
    }
    count
}

// How many bytes of a page are not 0.
fn nonzero(page: &Page) -> u16
    ensures { result ≡ count_by (λ byte. not (byte == 0)) page.now }
{
    let mut count = 0;
    let mut rest = page.as_slice();
    // A page has whole pieces: nothing is left over.
    while let Some((piece, others)) = rest.split_first_chunk::<128>() {
        count += u16::from(nonzero_in_piece(piece));
        rest = others;
    }
    count
}

// A fork's name, and none of a number that forks do not have.
fn name_of_fork(fork: u8) -> &'static str
    ensures { result.now ≡ slice_index_or fork_names fork [] }
{
    if fork <= 3 { fork_name(fork) } else { "" }
}

// Puts the line of a block and its page.
fn put_block<O: Sink>(out: &mut O, block: &BlockId, page: &Page) -> Result<(), SinkFault>
    ensures { Puts (O.taken out.old) (O.taken out.new) (O.faults out.old) (O.faults out.new)
        (block_line (block.now, page.now)) result }
{
    let mut tablespace = Buffer::new();
    let mut database = Buffer::new();
    let mut relation = Buffer::new();
    let mut number = Buffer::new();
    let mut filled = Buffer::new();
    put_all(
        out,
        &[
            b"rel ",
            tablespace.format(block.rel.spc).as_bytes(),
            b"/",
            database.format(block.rel.db).as_bytes(),
            b"/",
            relation.format(block.rel.rel).as_bytes(),
            b" fork ",
            name_of_fork(block.fork).as_bytes(),
            b" blk ",
            number.format(block.blk).as_bytes(),
            b" nonzero ",
            filled.format(nonzero(page)).as_bytes(),
            b"\n",
        ],
    )
}

// Puts the line of the counts.
fn put_counts<O: Sink>(out: &mut O, images: u64, blocks: usize) -> Result<(), SinkFault>
    ensures { Puts (O.taken out.old) (O.taken out.new) (O.faults out.old) (O.faults out.new)
        (counts_line images blocks) result }
{
    let mut image_digits = Buffer::new();
    let mut block_digits = Buffer::new();
    put_all(
        out,
        &[
            b"images ",
            image_digits.format(images).as_bytes(),
            b" blocks ",
            block_digits.format(blocks).as_bytes(),
            b"\n",
        ],
    )
}

/// Puts a line for each block of a store, in their order, and then that of the counts.
pub(crate) fn put_redone<O: Sink>(
    out: &mut O,
    blocks: &MemBlocks,
    images: u64,
) -> Result<(), SinkFault>
    ensures put { Puts (O.taken out.old) (O.taken out.new) (O.faults out.old) (O.faults out.new)
        (redo_text (stored_pages blocks.now) images) result }
    ensures ordered { IsStrictlySortedBy block_order (keys_of (stored_pages blocks.now)) }
{
    for (block, page) in blocks.iter() {
        put_block(out, block, page)?;
    }
    put_counts(out, images, blocks.len())
}
