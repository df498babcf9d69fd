//! A record of main data alone, as most are: assembled of its parts.

ghost use Rattle.std.specs.Prelude.{◌≡◌, ◌+◌, ◌^◌, ◌<◌, ◌≤◌, false, length, drop, All, None, IfOk, IfErr, OnOk};
ghost use Rattle.std.specs.Cow.{cow_slice_items};
ghost use Rattle.wal_types.specs.declared.record.Xid.{Xid};
ghost use Rattle.wal_spelling.specs.Plain.{IsPlainSpelling};
ghost use Rattle.wal_spelling.specs.Record.{plain_record};
ghost use Rattle.wal_spelling.specs.Refusal.{RefusesToAssemble, refusal_of};
ghost use Rattle.wal_spelling.specs.Spelling.{IsWritable, assembled, is_assembled_switch, plain_after_header};

use crate::assembly::put_main_header;
use crate::blocks::put_bytes;
use crate::body::{Body, header_fits};
use crate::fault::BodyErr;
use crate::layout::{HEADER_LEN, MAIN_LONG, MAIN_SHORT, MAX_LEN};
use crate::manager::is_free_manager;
use crate::segment_switch::ends_segment;
use bumpalo::Bump;
use std::alloc::{AllocError, Global};
use std::borrow::CowSlice;
use wal_types::Xid;

/// How many bytes are free in front of main data that is spelled where it stands.
pub const FRONT: usize = 5;

impl<'a> Body<'a> {
    /// Makes a record of these parts, which has main data alone, ready with bytes of its own; it
    /// refuses what `assemble` does.
    pub fn assemble_plain(
        alloc: Global,
        xid: Xid,
        rmid: u8,
        info: u8,
        main: &[u8],
    ) -> Result<Body<'a>, BodyErr>
        ensures ok { IfOk result (λ body. (body ≡ assembled (plain_record xid rmid info main.now))
            × IsWritable (plain_record xid rmid info main.now)) }
        ensures inserted { IfOk result (λ body. is_assembled_switch body ≡ false) }
        ensures not_refused { OnOk result
            (refusal_of (plain_record xid rmid info main.now) ≡ None) }
        ensures which { IfErr result (λ e.
            RefusesToAssemble e (plain_record xid rmid info main.now)) }
    {
        if let Some(refusal) = refusal_of_plain(rmid, info, main) {
            return Err(refusal);
        }
        let mut bytes = Vec::new(alloc);
        spell_plain(&mut bytes, main)?;
        Ok(Body::of_plain(xid, rmid, info, main, CowSlice::Owned(bytes)))
    }

    // The body of such a record that was not refused, of the bytes behind its header.
    #[inline(always)]
    fn of_plain(xid: Xid, rmid: u8, info: u8, main: &[u8], bytes: CowSlice<'a, u8>) -> Body<'a>
        requires accepted { refusal_of (plain_record xid rmid info main.now) ≡ None }
        requires bytes { cow_slice_items bytes ≡ plain_after_header main.now }
        requires fits { All (λ b. b < 256) main.now }
        ensures ok { (result ≡ assembled (plain_record xid rmid info main.now))
            × IsWritable (plain_record xid rmid info main.now) }
        ensures inserted { is_assembled_switch result ≡ false }
    {
        header_fits(xid, rmid, info);
        Body::of_parts(xid, rmid, info, bytes)
    }
}

/// What stands behind the header of a record that has main data alone, in an arena; or why the
/// record cannot be assembled. The data stands in the room behind free bytes, into which goes what
/// is spelled in front of it.
#[inline(always)]
pub fn spell_plain_in<'a>(
    bump: &'a Bump,
    room: &mut [u8],
    rmid: u8,
    info: u8,
) -> Result<&'a [u8], BodyErr>
    requires { FRONT ≤ length room.old }
    ensures ok { IfOk result (λ bytes.
        IsPlainSpelling rmid info (drop FRONT room.old) bytes.now) }
    ensures which { IfErr result (λ e.
        (xid : Xid) → RefusesToAssemble e (plain_record xid rmid info (drop FRONT room.old))) }
    ensures stays { drop FRONT room.new ≡ drop FRONT room.old }
{
    if let Some(refusal) = refusal_of_plain(rmid, info, &room[FRONT..]) {
        return Err(refusal);
    }
    bytes_fit(&room[FRONT..]);
    let start = put_front(room);
    Ok(bump.try_alloc_slice_copy(&room[start..])?)
}

// Puts what is spelled in front of main data into the free bytes there, and tells where it begins.
#[inline(always)]
fn put_front(room: &mut [u8]) -> usize
    requires front { FRONT ≤ length room.old }
    requires short { length (drop FRONT room.old) < 2 ^ 32 }
    ensures spelled { drop result room.new ≡ plain_after_header (drop FRONT room.old) }
    ensures stays { drop FRONT room.new ≡ drop FRONT room.old }
    ensures within { result ≤ length room.new }
{
    let len = room.len() - FRONT;
    match len {
        0 => FRONT,
        1..=255 => {
            room[3] = MAIN_SHORT;
            room[4] = len as u8;
            3
        }
        _ => {
            let [b0, b1, b2, b3] = (len as u32).to_le_bytes();
            room[0] = MAIN_LONG;
            room[1] = b0;
            room[2] = b1;
            room[3] = b2;
            room[4] = b3;
            0
        }
    }
}

// The bytes of a value of the program are bytes.
#[inline(always)]
fn bytes_fit(bytes: &[u8])
    ensures { All (λ b. b < 256) bytes.now }
{}

// Why such a record cannot be assembled.
#[inline(always)]
#[tactic(auto, unfolding(crate::specs::Refusal::refusal_of))]
fn refusal_of_plain(rmid: u8, info: u8, main: &[u8]) -> Option<BodyErr>
    ensures { (xid : Xid) → result ≡ refusal_of (plain_record xid rmid info main.now) }
{
    if is_free_manager(rmid) {
        return Some(BodyErr::BadRmgr { rmid });
    }
    if ends_segment(rmid, info) {
        return Some(BodyErr::Switch);
    }
    let len = (HEADER_LEN + plain_len(main)) as u64;
    if len > MAX_LEN {
        return Some(BodyErr::TooLong { len });
    }
    None
}

// How many bytes of such a record stand behind its header.
#[inline(always)]
fn plain_len(main: &[u8]) -> usize
    ensures length { result ≡ length (plain_after_header main.now) }
    ensures bound { result < 2 ^ 63 + 5 }
{
    match main.len() {
        0 => 0,
        1..=255 => 2 + main.len(),
        _ => 5 + main.len(),
    }
}

// What of such a record stands behind its header, in place of what the room held.
#[inline(always)]
fn spell_plain(room: &mut Vec<u8>, main: &[u8]) -> Result<(), AllocError>
    requires { length main.now < 2 ^ 32 }
    ensures ok { OnOk result (room.new.items ≡ plain_after_header main.now) }
    ensures fits { OnOk result (All (λ b. b < 256) main.now) }
{
    room.clear();
    room.reserve(plain_len(main))?;
    put_main_header(room, main)?;
    put_bytes(room, main)
}
