//! A record as a JSON object on a line.

ghost use Rattle.std.specs.Prelude.{◌≡◌, ◌≤◌, ◌++◌, All, OnOk, Some, [], codes, drop, if◌then◌else◌};
ghost use Rattle.std.specs.Option.{option_map_or};
ghost use Rattle.waldump_text.specs.Listing.{IsListable};
ghost use Rattle.waldump_text.specs.Put.{joined};
ghost use Rattle.cluster_listing.specs.Json.{block_head, block_object, blocks_behind, blocks_field, image_field, main_field, object_head, object_text, time_field};
ghost use Rattle.cluster_listing.specs.Line.{ended_time};

use crate::kinds::kind_name;
use crate::line::{ended_time, len_without_images, shown_bytes};
use crate::pieces::{push_all, push_hexadecimal};
use std::alloc::AllocError;
use wal_types::{Block, Image, Record};
use waldump_filter::Listed;
use waldump_text::{fork_name, manager_name, time_text};

/// A record's object.
pub(crate) fn push_object(line: &mut Vec<u8>, whole: bool, r: &Listed) -> Result<(), AllocError>
    requires { IsListable r.now }
    ensures { OnOk result (line.new.items ≡ line.old.items ++ object_text whole r.now) }
{
    push_object_head(line, r)?;
    push_main_field(line, whole, r.value.main.as_slice())?;
    push_time_field(line, &r.value)?;
    push_blocks_field(line, r.value.blocks.as_slice())
}

fn push_main_field(line: &mut Vec<u8>, whole: bool, main: &[u8]) -> Result<(), AllocError>
    ensures { OnOk result (line.new.items ≡ line.old.items ++ main_field whole main.now) }
{
    line.extend_from_slice(b",\"main\":\"")?;
    push_hexadecimal(line, shown_bytes(whole, main))?;
    line.extend_from_slice(b"\"")
}

fn push_blocks_field(line: &mut Vec<u8>, blocks: &[Block]) -> Result<(), AllocError>
    requires { All (λ b. b.fork ≤ 3) blocks.now }
    ensures { OnOk result (line.new.items ≡ line.old.items ++ blocks_field blocks.now) }
{
    line.extend_from_slice(b",\"blocks\":[")?;
    push_block_objects(line, blocks)?;
    line.extend_from_slice(b"]}\n")
}

fn push_object_head(line: &mut Vec<u8>, r: &Listed) -> Result<(), AllocError>
    requires { IsListable r.now }
    ensures { OnOk result (line.new.items ≡ line.old.items ++ joined (object_head r.now)) }
{
    let mut len = itoa::Buffer::new();
    let mut all = itoa::Buffer::new();
    let mut xid = itoa::Buffer::new();
    let mut main = itoa::Buffer::new();
    push_all(
        line,
        &[
            b"{\"rmgr\":\"",
            manager_name(r.value.rmid).as_bytes(),
            b"\",\"rec_len\":",
            len.format(len_without_images(r)).as_bytes(),
            b",\"total_len\":",
            all.format(r.total).as_bytes(),
            b",\"xid\":",
            xid.format(r.value.xid.0).as_bytes(),
            b",\"lsn\":\"",
            r.start.text().as_bytes(),
            b"\",\"prev\":\"",
            r.prev.text().as_bytes(),
            b"\",\"desc\":\"",
            kind_name(r.value.rmid, r.value.info).as_bytes(),
            b"\",\"main_len\":",
            main.format(r.value.main.as_slice().len()).as_bytes(),
        ],
    )
}

// When a transaction ended, or nothing for another record.
fn push_time_field(line: &mut Vec<u8>, value: &Record) -> Result<(), AllocError>
    ensures { OnOk result (line.new.items
        ≡ line.old.items ++ option_map_or time_field (ended_time value.now) []) }
{
    match ended_time(value) {
        Some(time) => {
            let text = time_text(time);
            push_all(
                line,
                &[b",\"time\":\"", behind_four(text.as_bytes()), b"\""],
            )
        }
        None => Ok(()),
    }
}

// What stands behind the first four bytes.
fn behind_four(text: &[u8]) -> &[u8]
    ensures { result.now ≡ drop 4 text.now }
{
    &text[text.len().min(4)..]
}

// The objects of blocks, with commas between.
fn push_block_objects(line: &mut Vec<u8>, blocks: &[Block]) -> Result<(), AllocError>
    requires { All (λ b. b.fork ≤ 3) blocks.now }
    ensures { OnOk result (line.new.items ≡ line.old.items ++ blocks_behind [] blocks.now) }
{
    let mut before: &'static [u8] = b"";
    for block in blocks {
        line.extend_from_slice(before)?;
        push_block_object(line, block)?;
        before = b",";
    }
    Ok(())
}

fn push_block_object(line: &mut Vec<u8>, block: &Block) -> Result<(), AllocError>
    requires { block.now.fork ≤ 3 }
    ensures { OnOk result (line.new.items ≡ line.old.items ++ block_object block.now) }
{
    push_block_head(line, block)?;
    push_image_field(line, &block.image)?;
    line.extend_from_slice(b"}")
}

fn push_block_head(line: &mut Vec<u8>, block: &Block) -> Result<(), AllocError>
    requires { block.now.fork ≤ 3 }
    ensures { OnOk result (line.new.items ≡ line.old.items ++ joined (block_head block.now)) }
{
    let mut id = itoa::Buffer::new();
    let mut spc = itoa::Buffer::new();
    let mut db = itoa::Buffer::new();
    let mut rel = itoa::Buffer::new();
    let mut blk = itoa::Buffer::new();
    let mut data = itoa::Buffer::new();
    push_all(
        line,
        &[
            b"{\"id\":",
            id.format(block.id).as_bytes(),
            b",\"spc\":",
            spc.format(block.rel.spc).as_bytes(),
            b",\"db\":",
            db.format(block.rel.db).as_bytes(),
            b",\"rel\":",
            rel.format(block.rel.rel).as_bytes(),
            b",\"fork\":\"",
            fork_name(block.fork).as_bytes(),
            b"\",\"blk\":",
            blk.format(block.blk).as_bytes(),
            b",\"data_len\":",
            data.format(block.content.as_slice().len()).as_bytes(),
        ],
    )
}

fn push_image_field(line: &mut Vec<u8>, image: &Option<Image>) -> Result<(), AllocError>
    ensures { OnOk result (line.new.items ≡ line.old.items ++ joined (image_field image.now)) }
{
    match image {
        None => Ok(()),
        Some(image) => push_image(line, image),
    }
}

fn push_image(line: &mut Vec<u8>, image: &Image) -> Result<(), AllocError>
    ensures { OnOk result
        (line.new.items ≡ line.old.items ++ joined (image_field (Some image.now))) }
{
    let mut hole_offset = itoa::Buffer::new();
    let mut hole_len = itoa::Buffer::new();
    let mut len = itoa::Buffer::new();
    push_all(
        line,
        &[
            b",\"image\":{\"apply\":",
            truth(image.apply),
            b",\"hole_offset\":",
            hole_offset.format(image.hole_offset).as_bytes(),
            b",\"hole_len\":",
            hole_len.format(image.hole_len).as_bytes(),
            b",\"len\":",
            len.format(image.bytes.as_slice().len()).as_bytes(),
            b"}",
        ],
    )
}

fn truth(is: bool) -> &'static [u8]
    ensures { result.now ≡ (if is then codes "true" else codes "false") }
{
    if is { b"true" } else { b"false" }
}
