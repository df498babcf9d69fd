//! What becomes of a record once its headers are read: it is put into a `Record`, or not kept.

ghost use Rattle.std.specs.Prelude.{◌≤◌, length, Ok};
ghost use Rattle.std.specs.List.{sum_by};
ghost use Rattle.wal_types.specs.declared.record.Record.{Record};
ghost use Rattle.wal_record.specs.Filled.{held_after};
ghost use Rattle.wal_record.specs.Headers.{headers_said};
ghost use Rattle.wal_record.specs.Reading.{GivesReading, payload_len, record_of};

use super::payload::put_blocks;
use crate::fault::RecErr;
use crate::head::BlockHead;
use crate::unkept::Unkept;
use std::alloc::Global;
use wal_spelling::layout::{INFO_AT, RMID_AT, XID_AT};
use wal_spelling::numbers::u32_at;
use wal_types::{Record, Xid};

/// What a record's headers say that are no blocks', and the payload behind them all.
#[derive(Clone, Copy)]
pub struct Headers<'a> {
    /// The replication origin.
    pub origin: Option<u16>,
    /// The number of the top-level transaction, where it is told.
    pub top_xid: Option<u32>,
    /// Each block's image and data, and the main data last.
    pub payload: &'a [u8],
}

/// What a record is put into once its headers are read and checked.
pub trait KeepsRecord {
    /// The record that is held, for clauses alone where nothing is.
    ghost kept: { Self → Record };

    /// Keeps the record of these bytes in place of the one before: `heads` and `headers` are what
    /// its headers say.
    fn keep(
        &mut self,
        alloc: Global,
        bytes: &[u8],
        heads: &[BlockHead],
        headers: Headers,
    ) -> Result<(), RecErr>
        requires header { 24 ≤ length bytes.now }
        requires promised { sum_by payload_len heads.now ≤ length headers.payload.now }
        ensures { GivesReading (held_after (kept self.new) result)
            (Ok (record_of bytes.now (headers_said heads.now headers.entry))) };
}

/// The record is put into this one, whatever it held. Behind an error it means nothing.
impl KeepsRecord for Record {
    ghost kept = { λ r. r };

    fn keep(
        &mut self,
        alloc: Global,
        bytes: &[u8],
        heads: &[BlockHead],
        headers: Headers,
    ) -> Result<(), RecErr> {
        let main = put_blocks(alloc, &mut self.blocks, heads, headers.payload)?;
        self.main.put(main)?;
        self.xid = Xid(u32_at(bytes, XID_AT));
        self.rmid = bytes[RMID_AT];
        self.info = bytes[INFO_AT];
        self.origin = headers.origin;
        self.top_xid = headers.top_xid.map(Xid);
        Ok(())
    }
}

/// Nothing is put anywhere: no byte is copied, and no memory is taken.
impl KeepsRecord for Unkept {
    ghost kept = { λ unkept. unkept.spelled };

    fn keep(
        &mut self,
        _alloc: Global,
        bytes: &[u8],
        heads: &[BlockHead],
        headers: Headers,
    ) -> Result<(), RecErr> {
        *self = Unkept::spelled_by(bytes, heads, headers);
        Ok(())
    }
}
