//! A record's line (PostgreSQL's pg_waldump.c, XLogDumpDisplayRecord).

ghost use Rattle.std.specs.Prelude.{◌≡◌, ◌≤◌, ◌<◌, ◌^◌, ◌++◌, All, FitsSigned, IfSome, OnOk, length, slice_index_or, []};
ghost use Rattle.std.specs.Fmt.{decimal};
ghost use Rattle.std.specs.Int.{w64};
ghost use Rattle.waldump_text.specs.Listing.{IsListable, image_text};
ghost use Rattle.waldump_text.specs.Put.{joined, padded_left, padded_right};
ghost use Rattle.waldump_text.specs.Sums.{images_len};
ghost use Rattle.wal_spelling.specs.Spelling.{image_bytes};
ghost use Rattle.cluster_listing.specs.Line.{block_reference, blocks_line, ended_text, fork_labels, len_without_images, line_head, manager_part, place_pieces, record_line, sizes_part, xid_part, shown_text, cut_mark, shown_bytes, tells_time, ended_time};

use crate::kinds::kind_name;
use crate::pieces::{push_all, push_hexadecimal};
use std::alloc::AllocError;
use wal_types::{Block, Image, Record};
use waldump_filter::Listed;
use waldump_text::{manager_name, padding, time_text};

/// How many bytes of main data are shown_bytes, unless all are asked for.
const SHOWN: usize = 64;

/// A record's line.
pub(crate) fn push_line(line: &mut Vec<u8>, whole: bool, r: &Listed) -> Result<(), AllocError>
    requires { IsListable r.now }
    ensures { OnOk result (line.new.items ≡ line.old.items ++ record_line whole r.now) }
{
    push_head(line, r)?;
    push_main(line, whole, r.value.main.as_slice())?;
    push_time(line, &r.value)?;
    push_blocks(line, r.value.blocks.as_slice())?;
    line.extend_from_slice(b"\n")?;
    Ok(())
}

// A line before its data.
fn push_head(line: &mut Vec<u8>, r: &Listed) -> Result<(), AllocError>
    requires { IsListable r.now }
    ensures { OnOk result (line.new.items ≡ line.old.items ++ line_head r.now) }
{
    push_manager(line, r)?;
    push_sizes(line, r)?;
    push_xid(line, r)?;
    push_places(line, r)
}

fn push_manager(line: &mut Vec<u8>, r: &Listed) -> Result<(), AllocError>
    requires { IsListable r.now }
    ensures { OnOk result (line.new.items ≡ line.old.items ++ manager_part r.now) }
{
    line.extend_from_slice(b"rmgr: ")?;
    push_left_aligned(line, manager_name(r.value.rmid).as_bytes(), 11)
}

fn push_sizes(line: &mut Vec<u8>, r: &Listed) -> Result<(), AllocError>
    requires { IsListable r.now }
    ensures { OnOk result (line.new.items ≡ line.old.items ++ sizes_part r.now) }
{
    let len = len_without_images(r);
    line.extend_from_slice(b" len (rec/tot): ")?;
    push_right_aligned(line, len, 6)?;
    line.extend_from_slice(b"/")?;
    push_right_aligned(line, r.total, 6)
}

fn push_xid(line: &mut Vec<u8>, r: &Listed) -> Result<(), AllocError>
    ensures { OnOk result (line.new.items ≡ line.old.items ++ xid_part r.now) }
{
    line.extend_from_slice(b", tx: ")?;
    push_right_aligned(line, r.value.xid.0, 10)
}

fn push_places(line: &mut Vec<u8>, r: &Listed) -> Result<(), AllocError>
    ensures { OnOk result (line.new.items ≡ line.old.items ++ joined (place_pieces r.now)) }
{
    push_all(
        line,
        &[
            b", lsn: ",
            r.start.text().as_bytes(),
            b", prev ",
            r.prev.text().as_bytes(),
            b", desc: ",
            kind_name(r.value.rmid, r.value.info).as_bytes(),
            b" data ",
        ],
    )
}

/// A text and blanks behind it, up to a width.
pub(crate) fn push_left_aligned(
    line: &mut Vec<u8>,
    text: &[u8],
    width: usize,
) -> Result<(), AllocError>
    requires { width ≤ 16 }
    ensures { OnOk result (line.new.items ≡ line.old.items ++ padded_right width text.now) }
{
    line.extend_from_slice(text)?;
    line.extend_from_slice(padding(width, text.len()))
}

// A number in decimal behind blanks.
fn push_right_aligned(line: &mut Vec<u8>, n: u32, width: usize) -> Result<(), AllocError>
    requires { width ≤ 16 }
    ensures { OnOk result (line.new.items ≡ line.old.items ++ padded_left width (decimal n)) }
{
    let mut digits = itoa::Buffer::new();
    let text = digits.format(n).as_bytes();
    line.extend_from_slice(padding(width, text.len()))?;
    line.extend_from_slice(text)
}

/// How many bytes a record has without its images.
pub(crate) fn len_without_images(r: &Listed) -> u32
    requires { IsListable r.now }
    ensures { result ≡ len_without_images r.now }
{
    let total = r.total;
    total - images_len(r.value.blocks.as_slice())
}

// How many bytes the images of blocks have together.
fn images_len(blocks: &[Block]) -> u32
    requires { images_len blocks.now < 2 ^ 32 }
    ensures { result ≡ images_len blocks.now }
{
    let mut len = 0;
    for block in blocks {
        len += image_len(&block.image);
    }
    len
}

fn image_len(image: &Option<Image>) -> u32
    requires { length (image_bytes image.now) < 2 ^ 32 }
    ensures { result ≡ length (image_bytes image.now) }
{
    match image {
        None => 0,
        Some(image) => image.bytes.as_slice().len() as u32,
    }
}

// Main data in hexadecimal, or `-` for none.
fn push_main(line: &mut Vec<u8>, whole: bool, main: &[u8]) -> Result<(), AllocError>
    ensures { OnOk result (line.new.items ≡ line.old.items ++ shown_text whole main.now) }
{
    if main.is_empty() {
        return line.extend_from_slice(b"-");
    }
    push_hexadecimal(line, shown_bytes(whole, main))?;
    line.extend_from_slice(cut_mark(whole, main))
}

/// What is shown_bytes of main data.
pub(crate) fn shown_bytes(whole: bool, main: &[u8]) -> &[u8]
    ensures { result.now ≡ shown_bytes whole main.now }
{
    if whole {
        return main;
    }
    if main.len() <= SHOWN {
        return main;
    }
    &main[..SHOWN]
}

fn cut_mark(whole: bool, main: &[u8]) -> &'static [u8]
    ensures { result.now ≡ cut_mark whole main.now }
{
    if whole {
        return b"";
    }
    if main.len() > SHOWN { b".." } else { b"" }
}

// When a transaction ended, or nothing for another record (PostgreSQL's xactdesc.c).
fn push_time(line: &mut Vec<u8>, value: &Record) -> Result<(), AllocError>
    ensures { OnOk result (line.new.items ≡ line.old.items ++ ended_text value.now) }
{
    match ended_time(value) {
        Some(time) => line.extend_from_slice(time_text(time).as_bytes()),
        None => Ok(()),
    }
}

/// When a transaction ended, by a record that tells it: in microseconds since 2000-01-01.
pub(crate) fn ended_time(value: &Record) -> Option<i64>
    ensures time { result ≡ ended_time value.now }
    ensures fits { IfSome result (λ time. FitsSigned w64 time) }
{
    if value.rmid != 1 || !tells_time(value.info / 16 % 8) {
        return None;
    }
    match value.main.as_slice().first_chunk::<8>() {
        Some(bytes) => Some(i64::from_le_bytes(*bytes)),
        None => None,
    }
}

fn tells_time(kind: u8) -> bool
    ensures { result ≡ tells_time kind }
{
    kind == 0 || kind == 2 || kind == 3 || kind == 4
}

// The references of a record to its blocks.
fn push_blocks(line: &mut Vec<u8>, blocks: &[Block]) -> Result<(), AllocError>
    requires { All (λ b. b.fork ≤ 3) blocks.now }
    ensures { OnOk result (line.new.items ≡ line.old.items ++ blocks_line blocks.now) }
{
    for block in blocks {
        push_block(line, block)?;
    }
    Ok(())
}

fn push_block(line: &mut Vec<u8>, block: &Block) -> Result<(), AllocError>
    requires { block.now.fork ≤ 3 }
    ensures { OnOk result (line.new.items ≡ line.old.items ++ joined (block_reference block.now)) }
{
    let mut id = itoa::Buffer::new();
    let mut spc = itoa::Buffer::new();
    let mut db = itoa::Buffer::new();
    let mut rel = itoa::Buffer::new();
    let mut blk = itoa::Buffer::new();
    push_all(
        line,
        &[
            b", blkref #",
            id.format(block.id).as_bytes(),
            b": rel ",
            spc.format(block.rel.spc).as_bytes(),
            b"/",
            db.format(block.rel.db).as_bytes(),
            b"/",
            rel.format(block.rel.rel).as_bytes(),
            fork_label(block.fork).as_bytes(),
            b" blk ",
            blk.format(block.blk).as_bytes(),
            image_text(&block.image),
        ],
    )
}

static FORK_LABELS: [&str; 4] = ["", " fork fsm", " fork vm", " fork init"];

fn fork_label(fork: u8) -> &'static str
    requires { fork ≤ 3 }
    ensures { result.now ≡ slice_index_or fork_labels fork [] }
{
    FORK_LABELS[fork as usize]
}

// Whether a block has an image, and what it is for.
fn image_text(image: &Option<Image>) -> &'static [u8]
    ensures { result.now ≡ image_text image.now }
{
    match image {
        None => b"",
        Some(image) if image.apply => b" FPW",
        Some(_) => b" FPW for WAL verification",
    }
}
