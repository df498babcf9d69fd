//! A record made ready to be written (PostgreSQL's XLogRecordAssemble of xloginsert.c).

ghost use Rattle.std.specs.Prelude.{◌≡◌, ℕ, ◌+◌, ◌*◌, ◌^◌, ◌<◌, ◌≤◌, [], ◌∷◌, ◌++◌, false, length, take, slice_index, All, None, IfOk, OnOk, IfErr};
ghost use Rattle.std.specs.Cow.{cow_slice_items};
ghost use Rattle.std.specs.Int.{w32, w64, from_le_bytes, to_le_bytes};
ghost use Rattle.wal_crc32c.specs.Crc32c.{HasFed};
ghost use Rattle.wal_types.specs.declared.record.Record.{Record};
ghost use Rattle.wal_spelling.specs.Fitting.{FitsAfterHeader};
ghost use Rattle.wal_spelling.specs.Record.{switch_record};
ghost use Rattle.wal_spelling.specs.Refusal.{RefusesToAssemble, refusal_of};
ghost use Rattle.wal_spelling.specs.Spelling.{AssembledFits, IsWritable, RecordOf, after_header, assembled, assembled_of, assembled_room, assembled_size, crc_of, filled, header_front, is_assembled_switch, word_at};

use crate::assembly::after_header;
use crate::fault::BodyErr;
use crate::layout::{HEADER_LEN, SWITCH_INFO, XLOG_RMID};
use crate::refusing::refusal;
use crate::segment_switch::ends_segment;
use std::alloc::Global;
use std::borrow::CowSlice;
use std::marker::Model;
use wal_crc32c::Crc;
use wal_types::{Lsn, Record, Xid};

/// A record ready to be written: all of its spelling but what depends on its place. At most
/// 1,048,576 bytes, which are the body's own or lent to it.
#[derive(Debug, Drop)]
pub struct Body<'a> {
    xid: Xid,
    rmid: u8,
    info: u8,
    after_header: CowSlice<'a, u8>,
    /// The CRC with zeros for the start of the record before, which is known only at its place.
    crc: Crc,
}

impl<'a> Model for Body<'a> {
    ghost use Rattle.std.specs.Prelude.{◌≡◌, ◌++◌};
    ghost use Rattle.std.specs.Cow.{cow_slice_items};
    ghost use Rattle.wal_crc32c.specs.Crc32c.{HasFed};
    ghost use Rattle.wal_spelling.specs.Spelling.{Assembled, AssembledFits, RecordOf, assembled_of, header_front};

    ghost Value = { Assembled };

    ghost view = { λ b. assembled_of b.xid.0 b.rmid b.info (cow_slice_items b.after_header) };

    ghost invariant = { λ b.
        let value = assembled_of b.xid.0 b.rmid b.info (cow_slice_items b.after_header) in
        HasFed b.crc (cow_slice_items b.after_header ++ header_front value 0)
        × AssembledFits value
        × RecordOf value };
}

impl<'a> Body<'a> {
    /// Makes a record ready, with bytes of its own. Where several reasons forbid it, the error is
    /// the first of BadRmgr, Switch, BadBlock and TooLong.
    pub fn assemble(alloc: Global, r: &Record) -> Result<Body<'a>, BodyErr>
        ensures ok { IfOk result (λ body. (body ≡ assembled r.now) × IsWritable r.now) }
        ensures inserted { IfOk result (λ body. is_assembled_switch body ≡ false) }
        ensures not_refused { OnOk result (refusal_of r.now ≡ None) }
        ensures which { IfErr result (λ e. RefusesToAssemble e r.now) }
    {
        if let Some(refusal) = refusal(r) {
            return Err(refusal);
        }
        let bytes = after_header(alloc, r)?;
        Ok(Body::of_record(r, CowSlice::Owned(bytes)))
    }

    /// The record that ends its segment (PostgreSQL's RequestXLogSwitch): of no transaction, and
    /// with no data. It takes no memory, though a body has an allocator.
    pub fn switch(alloc: Global) -> Body<'a>
        ensures { result ≡ assembled switch_record }
    {
        Body::of_parts(
            Xid(0),
            XLOG_RMID,
            SWITCH_INFO,
            CowSlice::Owned(Vec::new(alloc)),
        )
    }

    // The body of a record that was not refused, of the bytes behind its header.
    fn of_record(r: &Record, bytes: CowSlice<'a, u8>) -> Body<'a>
        requires accepted { refusal_of r.now ≡ None }
        requires bytes { cow_slice_items bytes ≡ after_header r.now }
        requires fits { FitsAfterHeader r.now }
        ensures ok { (result ≡ assembled r.now) × IsWritable r.now }
        ensures inserted { is_assembled_switch result ≡ false }
    {
        let Record {
            xid,
            rmid,
            info,
            ..
        } = *r;
        header_fits(xid, rmid, info);
        Body::of_parts(xid, rmid, info, bytes)
    }

    #[inline(always)]
    pub(crate) fn of_parts(xid: Xid, rmid: u8, info: u8, bytes: CowSlice<'a, u8>) -> Body<'a>
        requires { RecordOf (assembled_of xid.0 rmid info (cow_slice_items bytes)) }
        ensures { result ≡ assembled_of xid.0 rmid info (cow_slice_items bytes.entry) }
    {
        let crc = crc_under_way(xid, rmid, info, bytes.as_slice());
        Body {
            xid,
            rmid,
            info,
            after_header: bytes,
            crc,
        }
    }

    // A body to which its bytes are lent, with the CRC that was made of them.
    #[inline(always)]
    pub(crate) fn of_lent(xid: Xid, rmid: u8, info: u8, bytes: &'a [u8], crc: Crc) -> Body<'a>
        requires known { RecordOf (assembled_of xid.0 rmid info bytes.now) }
        requires fed { HasFed crc
            (bytes.now ++ header_front (assembled_of xid.0 rmid info bytes.now) 0) }
        ensures { result ≡ assembled_of xid.0 rmid info bytes.now }
    {
        Body {
            xid,
            rmid,
            info,
            after_header: CowSlice::Borrowed(bytes),
            crc,
        }
    }

    // A body of equal value, to which this one's bytes are lent.
    #[inline(always)]
    pub(crate) fn lent(&self) -> Body<'_>
        ensures { result ≡ self.now }
    {
        Body {
            xid: self.xid,
            rmid: self.rmid,
            info: self.info,
            after_header: CowSlice::Borrowed(self.after_header.as_slice()),
            crc: self.crc,
        }
    }

    /// Whether the record ends its segment.
    pub fn is_switch(&self) -> bool
        ensures { result ≡ is_assembled_switch self.now }
    {
        ends_segment(self.rmid, self.info)
    }

    /// How many bytes the record is spelled in.
    #[inline(always)]
    pub fn len(&self) -> u32
        ensures size { result ≡ assembled_size self.now }
        ensures bounds { (24 ≤ result) × (result ≤ 1048576) }
        ensures ready { AssembledFits self.now }
        // It was assembled of a record (of one alone, as reading it back shows).
        ensures known { RecordOf self.now }
    {
        (HEADER_LEN + self.after_header.len()) as u32
    }

    /// How many bytes the record takes up: a multiple of 8.
    #[inline(always)]
    pub fn room(&self) -> u32
        ensures room { result ≡ assembled_room self.now }
        ensures bounds { (24 ≤ result) × (result ≤ 1048576) }
        ensures known { RecordOf self.now }
    {
        self.len().div_ceil(8) * 8
    }

    /// How many words of eight bytes the record takes up.
    pub fn words(&self) -> u32
        ensures { 8 * result ≡ assembled_room self.now }
    {
        self.len().div_ceil(8)
    }

    /// The n-th word as it is written behind a record that starts at prev.
    pub fn word(&self, prev: Lsn, n: u32) -> u64
        requires { 8 * n < assembled_room self.now }
        ensures { result ≡ word_at (filled self.now prev.0) n }
    {
        if n < 3 {
            self.header_word(prev, n)
        } else {
            first_word(&self.after_header()[(n as usize - 3) * 8..])
        }
    }

    /// The three words of the header, as they are written behind a record that starts at prev.
    #[inline(always)]
    pub fn header_words(&self, prev: Lsn) -> [u64; 3]
        ensures words { (n : ℕ) → n < 3
            → slice_index result n ≡ word_at (filled self.now prev.0) n }
        ensures three { length result ≡ 3 }
    {
        [
            self.header_word(prev, 0),
            self.header_word(prev, 1),
            self.header_word(prev, 2),
        ]
    }

    // One of them. Only the last one needs the CRC.
    #[inline(always)]
    fn header_word(&self, prev: Lsn, n: u32) -> u64
        requires { n < 3 }
        ensures { result ≡ word_at (filled self.now prev.0) n }
    {
        match n {
            0 => size_and_xid(self.len(), self.xid),
            1 => prev.0,
            _ => {
                u64::from(info_and_manager(self.info, self.rmid))
                    + (u64::from(self.crc(prev)) << 32)
            }
        }
    }

    // Puts words from the n-th on one by one, as a copy needs that goes on within the header.
    #[inline(never)]
    pub(crate) fn put_each(&self, prev: Lsn, n: u32, words: &mut [u64])
        requires { 8 * (n + length words.old) ≤ assembled_room self.now }
        ensures { (k : ℕ) → k < length words.old
            → slice_index words.new k ≡ word_at (filled self.now prev.0) (n + k) }
    {
        prove!(words.len() <= self.words() as usize);
        for (k, word) in words.iter_mut().enumerate() {
            *word = self.word(prev, n + k as u32);
        }
    }

    // The bytes behind the header.
    #[inline(always)]
    pub(crate) fn after_header(&self) -> &[u8]
        ensures bytes { result.now ≡ self.now.after_header }
        ensures ready { AssembledFits self.now }
    {
        self.after_header.as_slice()
    }

    // The CRC runs over what stands behind the header, and then over the header's first 20 bytes,
    // in which the start of the record before is the gap.
    #[inline(always)]
    fn crc(&self, prev: Lsn) -> u32
        ensures { result ≡ crc_of self.now prev.0 }
    {
        self.crc.with_gap_filled(prev.0).value()
    }
}

// The CRC of a record's parts, with zeros for the start of the record before.
#[inline(always)]
pub(crate) fn crc_under_way(xid: Xid, rmid: u8, info: u8, bytes: &[u8]) -> Crc
    requires { RecordOf (assembled_of xid.0 rmid info bytes.now) }
    ensures { HasFed result (bytes.now ++ header_front (assembled_of xid.0 rmid info bytes.now) 0) }
{
    let size = (HEADER_LEN + bytes.len()) as u32;
    let mut crc = Crc::new();
    crc.update(bytes);
    crc.update_round_gap(size_and_xid(size, xid), info_and_manager(info, rmid));
    crc
}

// The header's first eight bytes as a number: the record's size and its transaction.
#[inline(always)]
fn size_and_xid(size: u32, xid: Xid) -> u64
    ensures number { result ≡ from_le_bytes w64 (to_le_bytes w32 size ++ to_le_bytes w32 xid.0) }
    ensures bytes { to_le_bytes w64 result ≡ to_le_bytes w32 size ++ to_le_bytes w32 xid.0 }
{
    u64::from(size) + (u64::from(xid.0) << 32)
}

// The four bytes before the header's CRC as a number: info, the manager and two zeros.
#[inline(always)]
fn info_and_manager(info: u8, rmid: u8) -> u32
    ensures number { result ≡ info + rmid * 256 }
    ensures bytes { to_le_bytes w32 result ≡ info ∷ rmid ∷ 0 ∷ 0 ∷ [] }
{
    u32::from(info) + (u32::from(rmid) << 8)
}

// The numbers of a value of the program fit their fields.
pub(crate) fn header_fits(xid: Xid, rmid: u8, info: u8)
    ensures { (xid.0 < 2 ^ 32) × (rmid < 256) × (info < 256) }
{}

// The first eight bytes as a number, with zeros for those that are not there.
pub(crate) fn first_word(bytes: &[u8]) -> u64
    ensures { result ≡ from_le_bytes w64 (take 8 bytes.now) }
{
    match bytes.first_chunk::<8>() {
        Some(eight) => u64::from_le_bytes(*eight),
        None => {
            let mut padded = [0; 8];
            padded[..bytes.len()].copy_from_slice(bytes);
            u64::from_le_bytes(padded)
        }
    }
}
