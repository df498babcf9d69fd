//! The records that lines insert.

ghost use Rattle.std.specs.Prelude.{◌≡◌, ◌≤◌, [], IfOk, OnOk, drop, length};
ghost use Rattle.wal_spelling.specs.Record.{plain_record};
ghost use Rattle.run_script.specs.Meaning.{accepted, commit_of, commit_record, insert_of, insert_of_data, insert_with};
ghost use Rattle.run_script.specs.Reading.{InsertGives, Judges, JudgesBody};

use crate::blocks::blocks;
use crate::fields::{next_byte, next_time, next_u8, next_u32, no_more};
use crate::hexadecimal::put_data;
use crate::line::{Action, Line, ScriptFault};
use crate::line_error::LineError;
use crate::rooms::{LinesRead, Rooms};
use bumpalo::Bump;
use cli_text::Parts;
use std::alloc::{AllocError, Global};
use std::mem;
use wal_spelling::{Body, FRONT, KeptBody, spell_plain_in};
use wal_types::{BlockList, Bytes, Record, TRANSACTION_MANAGER, Xid};

/// Reads a line `I` by its fields: its record is assembled, and the line joins those before. Its
/// data is spelled out in its room, which is there for the next line again.
#[inline(always)]
pub(crate) fn insert<'a>(
    alloc: Global,
    read: &mut LinesRead<'a>,
    number: u32,
    mut fields: Parts,
) -> Result<(), LineError>
    ensures { InsertGives number read.old.lines.items read.new.lines.items result
        (insert_of fields.entry) }
{
    let xid = next_u32(&mut fields)?;
    let rmid = next_u8(&mut fields)?;
    let info = next_byte(&mut fields)?;
    let Some(main) = fields.next() else {
        return Err(LineError::Fault(ScriptFault::Count));
    };
    let header = Header {
        xid: Xid(xid),
        rmid,
        info,
    };
    if fields.is_done() {
        insert_plain(alloc, read, number, header, main)
    } else {
        insert_with_blocks(alloc, read, number, header, main, fields)
    }
}

/// What of a record its header tells.
#[derive(Clone, Copy)]
struct Header {
    xid: Xid,
    rmid: u8,
    info: u8,
}

// Reads a record of main data alone, by its header and the field that spells the data, and adds its
// line. The data is spelled where it stands, behind room for what stands in front of it.
#[inline(never)]
fn insert_plain<'a>(
    alloc: Global,
    read: &mut LinesRead<'a>,
    number: u32,
    header: Header,
    main: &[u8],
) -> Result<(), LineError>
    ensures { InsertGives number read.old.lines.items read.new.lines.items result
        (insert_of_data header.xid header.rmid header.info main.now []) }
{
    clear_to_front(&mut read.rooms.spelled)?;
    put_data(&mut read.rooms.spelled, main)?;
    match read.rooms.arena {
        Some(bump) => insert_plain_in(bump, read, number, header),
        None => insert_plain_alone(alloc, read, number, header),
    }
}

// Nothing but free bytes in front.
#[inline(always)]
fn clear_to_front(room: &mut Vec<u8>) -> Result<(), AllocError>
    ensures { OnOk result (length room.new.items ≡ FRONT) }
{
    room.truncate(FRONT);
    if room.len() < FRONT {
        room.resize(FRONT, 0)?;
    }
    Ok(())
}

// Adds the line of a record whose main data is in its room, with the body in an arena.
#[inline(always)]
fn insert_plain_in<'a>(
    bump: &'a Bump,
    read: &mut LinesRead<'a>,
    number: u32,
    header: Header,
) -> Result<(), LineError>
    requires { FRONT ≤ length read.old.rooms.spelled.items }
    ensures { InsertGives number read.old.lines.items read.new.lines.items result
        (accepted (plain_record header.xid header.rmid header.info
        (drop FRONT read.old.rooms.spelled.items))) }
{
    let Header { xid, rmid, info } = header;
    let bytes = spell_plain_in(bump, &mut read.rooms.spelled, rmid, info)?;
    read.lines.reserve(1)?;
    let main = &read.rooms.spelled[FRONT..];
    let Ok(body) = KeptBody::of_plain_in(bump, xid, rmid, info, main, bytes) else {
        return Err(LineError::Memory);
    };
    read.lines.push_reserved(Line {
        number,
        action: Action::Insert(body),
    });
    Ok(())
}

// Adds the line of a record whose main data is in its room, with bytes of its own, in a box.
#[inline(never)]
fn insert_plain_alone<'a>(
    alloc: Global,
    read: &mut LinesRead<'a>,
    number: u32,
    header: Header,
) -> Result<(), LineError>
    requires { FRONT ≤ length read.old.rooms.spelled.items }
    ensures { InsertGives number read.old.lines.items read.new.lines.items result
        (accepted (plain_record header.xid header.rmid header.info
        (drop FRONT read.old.rooms.spelled.items))) }
{
    let Header { xid, rmid, info } = header;
    let body = Body::assemble_plain(alloc, xid, rmid, info, &read.rooms.spelled[FRONT..])?;
    let body = KeptBody::boxed(alloc, body)?;
    read.push(number, Action::Insert(body))?;
    Ok(())
}

// Reads a record with blocks, which the fields behind its data spell, and adds its line.
#[inline(never)]
fn insert_with_blocks<'a>(
    alloc: Global,
    read: &mut LinesRead<'a>,
    number: u32,
    header: Header,
    main: &[u8],
    fields: Parts,
) -> Result<(), LineError>
    ensures { InsertGives number read.old.lines.items read.new.lines.items result
        (insert_of_data header.xid header.rmid header.info main.now fields.entry) }
{
    read.rooms.data.clear();
    put_data(&mut read.rooms.data, main)?;
    let body = with_blocks(alloc, &mut read.rooms, header, fields)?;
    read.push(number, Action::Insert(body))?;
    Ok(())
}

// Its record, assembled.
fn with_blocks<'a>(
    alloc: Global,
    rooms: &mut Rooms<'a>,
    header: Header,
    fields: Parts,
) -> Result<KeptBody<'a>, LineError>
    ensures { JudgesBody result (insert_with header.xid header.rmid header.info
        rooms.old.data.items fields.entry) }
{
    let blocks = blocks(alloc, fields)?;
    let value = Record {
        xid: header.xid,
        rmid: header.rmid,
        info: header.info,
        origin: None,
        top_xid: None,
        blocks,
        main: Bytes::of(mem::replace(&mut rooms.data, Vec::new(alloc))),
    };
    let body = assembled(alloc, rooms, &value);
    rooms.data = value.main.into_vec();
    body
}

// A record, assembled; where it cannot be, its fault.
fn assembled<'a>(
    alloc: Global,
    rooms: &mut Rooms<'a>,
    value: &Record,
) -> Result<KeptBody<'a>, LineError>
    ensures { JudgesBody result (accepted value.now) }
{
    match rooms.arena {
        Some(bump) => Ok(KeptBody::assemble_in(bump, &mut rooms.spelled, value)?),
        None => Ok(KeptBody::boxed(alloc, Body::assemble(alloc, value)?)?),
    }
}

// What room there is, with nothing in it.
fn taken(alloc: Global, room: &mut Vec<u8>) -> Vec<u8>
    ensures { result.items ≡ [] }
{
    let mut taken = mem::replace(room, Vec::new(alloc));
    taken.clear();
    taken
}

/// The record of a line `C`, assembled; its data as that of a line `I`.
#[inline(never)]
pub(crate) fn commit<'a>(
    alloc: Global,
    rooms: &mut Rooms<'a>,
    fields: Parts,
) -> Result<KeptBody<'a>, LineError>
    ensures { JudgesBody result (commit_of fields.entry) }
{
    let value = record_of_commit(alloc, taken(alloc, &mut rooms.data), fields)?;
    let body = assembled(alloc, rooms, &value);
    rooms.data = value.main.into_vec();
    body
}

// The record that the fields behind `C` spell.
fn record_of_commit(alloc: Global, room: Vec<u8>, mut fields: Parts) -> Result<Record, LineError>
    requires { room.items ≡ [] }
    ensures { Judges result (commit_of fields.entry) }
{
    let xid = next_u32(&mut fields)?;
    let microseconds = next_time(&mut fields)?;
    no_more(fields)?;
    Ok(commit_record(alloc, room, Xid(xid), microseconds)?)
}

// A transaction's commit, as PostgreSQL's xact.c records it: its time is the main data.
fn commit_record(
    alloc: Global,
    mut main: Vec<u8>,
    xid: Xid,
    microseconds: u64,
) -> Result<Record, AllocError>
    requires { main.items ≡ [] }
    ensures { IfOk result (λ r. r ≡ commit_record xid.0 microseconds) }
{
    main.extend_from_slice(&microseconds.to_le_bytes())?;
    Ok(Record {
        xid,
        rmid: TRANSACTION_MANAGER,
        info: 0,
        origin: None,
        top_xid: None,
        blocks: BlockList::of(Vec::new(alloc)),
        main: Bytes::of(main),
    })
}
