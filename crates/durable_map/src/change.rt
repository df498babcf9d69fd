//! A change as a record of the log, of the manager that PostgreSQL keeps free for experiments
//! (RM_EXPERIMENTAL_ID of rmgr.h), with main data alone. Of a set that is the key's length in four
//! bytes, the key, and the value; of a del the key.

ghost use Rattle.std.specs.Prelude.{◌≡◌, ◌≤◌, ◌↔◌, false, length, Some, None, IfOk, IsTrue, MatchOption};
ghost use Rattle.wal_spelling.specs.Spelling.{assembled, is_assembled_switch};
ghost use Rattle.durable_map.specs.Records.{IsShort, SaysChange, change_record, managed_record};
ghost use Rattle.durable_map.specs.Reading.{IsNoSet, IsSet, SaysNoChange, change_of};

use std::alloc::{AllocError, Global};
use wal_spelling::{Body, BodyErr};
use wal_types::{Record, Xid};

/// How many bytes a key or a value may have: 64 KiB.
pub const LONGEST: usize = 65_536;

/// The resource manager of a change.
pub const MANAGER: u8 = 128;

// The info of a set, and that of a del.
const SET: u8 = 0;

const DEL: u8 = 0x10;

/// A change that was read: a key's new value, or that it has none from now on.
#[derive(Debug, Drop)]
pub struct ReadChange {
    pub key: Vec<u8>,
    pub value: Option<Vec<u8>>,
}

/// The record that gives a key a value, ready to be written.
pub fn set_body(alloc: Global, key: &[u8], value: &[u8]) -> Result<Body<'static>, AllocError>
    requires key { IsShort key.now }
    requires value { IsShort value.now }
    ensures body { IfOk result (λ body. body
        ≡ assembled (change_record (record { key = key.now; value = Some value.now }))) }
    ensures inserted { IfOk result (λ body. is_assembled_switch body ≡ false) }
{
    let mut main = Vec::with_capacity(alloc, 4 + key.len() + value.len())?;
    main.extend_from_slice(&(key.len() as u32).to_le_bytes())?;
    main.extend_from_slice(key)?;
    main.extend_from_slice(value)?;
    body_of(alloc, SET, main.as_slice())
}

/// The record that takes a key out, ready to be written.
pub fn del_body(alloc: Global, key: &[u8]) -> Result<Body<'static>, AllocError>
    requires { IsShort key.now }
    ensures body { IfOk result (λ body. body
        ≡ assembled (change_record (record { key = key.now; value = None }))) }
    ensures inserted { IfOk result (λ body. is_assembled_switch body ≡ false) }
{
    body_of(alloc, DEL, key)
}

// A record of so little main data is refused for want of memory alone.
fn body_of(alloc: Global, info: u8, main: &[u8]) -> Result<Body<'static>, AllocError>
    requires { length main.now ≤ 131076 }
    ensures body { IfOk result (λ body. body ≡ assembled (managed_record info main.now)) }
    ensures inserted { IfOk result (λ body. is_assembled_switch body ≡ false) }
{
    match Body::assemble_plain(alloc, Xid(0), MANAGER, info, main) {
        Ok(body) => Ok(body),
        Err(fault) => match fault {
            BodyErr::Memory => Err(AllocError),
            _ => unreachable!(),
        },
    }
}

/// The change that a record says, or none where it says none: another program's record, or a
/// spelling that is not this one's.
pub fn read_change(alloc: Global, value: &Record) -> Result<Option<ReadChange>, AllocError>
    ensures { IfOk result (λ read. MatchOption read (SaysNoChange value.now)
        (λ change. SaysChange value.now (change_of change))) }
{
    let main = value.main.as_slice();
    if !is_plain(value) {
        return Ok(None);
    }
    match value.info {
        SET => read_set(alloc, main),
        DEL => read_del(alloc, main),
        _ => Ok(None),
    }
}

// Whether a record has main data alone, and is of no transaction and of the changes' manager.
fn is_plain(value: &Record) -> bool
    ensures { IsTrue result ↔ (value.now ≡ managed_record value.now.info value.now.main) }
{
    value.xid.0 == 0
        && value.rmid == MANAGER
        && value.origin.is_none()
        && value.top_xid.is_none()
        && value.blocks.as_slice().is_empty()
}

// The change of a set's main data.
fn read_set(alloc: Global, main: &[u8]) -> Result<Option<ReadChange>, AllocError>
    ensures { IfOk result (λ read. MatchOption read (SaysNoChange (managed_record 0 main.now))
        (λ change. SaysChange (managed_record 0 main.now) (change_of change))) }
{
    let Some((key, value)) = split_main(main) else {
        return Ok(None);
    };
    let key = Vec::from_slice(alloc, key)?;
    let value = Vec::from_slice(alloc, value)?;
    Ok(Some(ReadChange {
        key,
        value: Some(value),
    }))
}

// .. and of a del's.
fn read_del(alloc: Global, main: &[u8]) -> Result<Option<ReadChange>, AllocError>
    ensures { IfOk result (λ read. MatchOption read (SaysNoChange (managed_record 16 main.now))
        (λ change. SaysChange (managed_record 16 main.now) (change_of change))) }
{
    if main.len() > LONGEST {
        return Ok(None);
    }
    let key = Vec::from_slice(alloc, main)?;
    Ok(Some(ReadChange { key, value: None }))
}

// The key and the value of a set's main data.
fn split_main(main: &[u8]) -> Option<(&[u8], &[u8])>
    ensures { MatchOption result (IsNoSet main.now)
        (λ parts. IsSet main.now parts.0.now parts.1.now) }
{
    let Some((front, rest)) = main.split_first_chunk::<4>() else {
        return None;
    };
    let count = u32::from_le_bytes(*front) as usize;
    if count > LONGEST || count > rest.len() || rest.len() - count > LONGEST {
        return None;
    }
    Some(rest.split_at(count))
}
