//! What a record carries behind its header (PostgreSQL's XLogRecordAssemble of xloginsert.c).

ghost use Rattle.std.specs.Prelude.{◌≡◌, ◌+◌, ◌^◌, ◌<◌, ◌++◌, ◌==◌, [], length, nat_lt, if◌then◌else◌, All, IfOk, IfSome, IsTrue, OnOk};
ghost use Rattle.wal_types.specs.declared.record.Record.{Record};
ghost use Rattle.wal_spelling.specs.Fitting.{FitsAfterHeader};
ghost use Rattle.wal_spelling.specs.Record.{are_right_blocks};
ghost use Rattle.wal_spelling.specs.Spelling.{after_header, main_header, origin_item, top_xid_item};

use crate::blocks::{blocks_len, put_block_headers, put_bytes, put_payloads};
use crate::layout::*;
use std::alloc::{AllocError, Global};
use wal_types::{Record, Xid};

// How many bytes stand behind the header.
#[inline]
pub(crate) fn after_header_len(r: &Record) -> usize
    requires { IsTrue (are_right_blocks 0 r.now.blocks) }
    ensures length { result ≡ length (after_header r.now) }
    ensures bound { result < 2 ^ 63 + 2 ^ 22 + 13 }
{
    let origin = if r.origin.is_some() { 3 } else { 0 };
    let top_xid = if r.top_xid.is_some() { 5 } else { 0 };
    let main = r.main.as_slice().len();
    let main_header = match main {
        0 => 0,
        1..=255 => 2,
        _ => 5,
    };
    blocks_len(r.blocks.as_slice()) + origin + top_xid + main_header + main
}

// What stands behind the header, in a vector of its own.
pub(crate) fn after_header(alloc: Global, r: &Record) -> Result<Vec<u8>, AllocError>
    requires blocks { IsTrue (are_right_blocks 0 r.now.blocks) }
    requires short { length r.now.main < 2 ^ 32 }
    ensures ok { IfOk result (λ v. v.items ≡ after_header r.now) }
    ensures fits { OnOk result (FitsAfterHeader r.now) }
{
    let mut after_header = Vec::new(alloc);
    spell_after_header(&mut after_header, r)?;
    Ok(after_header)
}

// Spells what stands behind the header into a vector that is there, in place of what it held.
pub(crate) fn spell_after_header(room: &mut Vec<u8>, r: &Record) -> Result<(), AllocError>
    requires blocks { IsTrue (are_right_blocks 0 r.now.blocks) }
    requires short { length r.now.main < 2 ^ 32 }
    ensures ok { OnOk result (room.new.items ≡ after_header r.now) }
    ensures fits { OnOk result (FitsAfterHeader r.now) }
{
    room.clear();
    room.reserve(after_header_len(r))?;
    put_block_headers(room, r.blocks.as_slice())?;
    put_origin(room, r.origin)?;
    put_top_xid(room, r.top_xid)?;
    put_main_header(room, r.main.as_slice())?;
    put_payloads(room, r.blocks.as_slice())?;
    put_bytes(room, r.main.as_slice())
}

fn put_origin(out: &mut Vec<u8>, origin: Option<u16>) -> Result<(), AllocError>
    ensures ok { OnOk result (out.new.items ≡ out.old.items ++ origin_item origin) }
    ensures fits { IfSome origin (λ n. n < 2 ^ 16) }
{
    if let Some(number) = origin {
        let [b0, b1] = number.to_le_bytes();
        out.extend_from_slice(&[ORIGIN, b0, b1])?;
    }
    Ok(())
}

fn put_top_xid(out: &mut Vec<u8>, top_xid: Option<Xid>) -> Result<(), AllocError>
    ensures ok { OnOk result (out.new.items ≡ out.old.items ++ top_xid_item top_xid) }
    ensures fits { IfSome top_xid (λ x. x.0 < 2 ^ 32) }
{
    if let Some(Xid(number)) = top_xid {
        let [b0, b1, b2, b3] = number.to_le_bytes();
        out.extend_from_slice(&[TOP_XID, b0, b1, b2, b3])?;
    }
    Ok(())
}

#[inline(always)]
pub(crate) fn put_main_header(out: &mut Vec<u8>, main: &[u8]) -> Result<(), AllocError>
    requires { length main.now < 2 ^ 32 }
    ensures { OnOk result (out.new.items ≡ out.old.items ++ (if length main.now == 0 then []
        else main_header (nat_lt (length main.now) 256) (length main.now))) }
{
    match main.len() {
        0 => Ok(()),
        1..=255 => out.extend_from_slice(&[MAIN_SHORT, main.len() as u8]),
        _ => {
            let [b0, b1, b2, b3] = (main.len() as u32).to_le_bytes();
            out.extend_from_slice(&[MAIN_LONG, b0, b1, b2, b3])
        }
    }
}
