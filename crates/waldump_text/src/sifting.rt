//! What a filter makes of each record that is read, told by its header and the heads of its blocks,
//! before anything of it is copied. A record that the filter's rules refuse is read and checked as
//! any other, and not kept.

ghost use Rattle.std.specs.Prelude.{◌≡◌, ◌≤◌, IsTrue, false, is_some, length};
ghost use Rattle.std.specs.List.{list_any};
ghost use Rattle.waldump_filter.specs.declared.Filter.{Filter};
ghost use Rattle.waldump_filter.specs.Keeping.{everything_from, has_rules, keeps, meets_place, meets_rules};
ghost use Rattle.waldump_text.specs.Sifting.{held_of, listed_with, meets_by_heads};

use std::alloc::Global;
use std::marker::{Brand, PhantomData};
use wal_reader::RecordHead;
use wal_record::{BlockHead, Headers, KeepsRecord, RecErr, Unkept};
use wal_spelling::layout::{RMID_AT, XID_AT};
use wal_spelling::numbers::u32_at;
use wal_types::{Lsn, Record, Xid};
use waldump_filter::{Filter, Listed};

/// The filter by which records are sifted, which a call picks for the proof alone.
pub(crate) trait ByFilter {
    ghost filter: { Filter };
}

impl ByFilter for Brand {
    ghost filter = { everything_from (record { 0 = 0 }) };
}

/// Whether a record meets a filter's rules, by its bytes and the heads of its blocks. `asks` tells
/// whether the filter has any.
#[inline(always)]
pub(crate) fn meets(filter: &Filter, asks: bool, bytes: &[u8], heads: &[BlockHead]) -> bool
    requires asked { asks ≡ has_rules filter.now }
    requires header { 24 ≤ length bytes.now }
    ensures { result ≡ meets_by_heads filter.now bytes.now heads.now }
{
    !asks || meets_rules(filter, bytes, heads)
}

// A call of its own, so that a listing without rules pays nothing for them.
#[inline(never)]
fn meets_rules(filter: &Filter, bytes: &[u8], heads: &[BlockHead]) -> bool
    requires { 24 ≤ length bytes.now }
    ensures { result ≡ meets_by_heads filter.now bytes.now heads.now }
{
    let xid = Xid(u32_at(bytes, XID_AT));
    filter.meets_header(bytes[RMID_AT], xid)
        && (!filter.asks_for_block() || has_block(filter, heads))
        && (!filter.fullpage || has_page_image(heads))
}

fn has_block(filter: &Filter, heads: &[BlockHead]) -> bool
    ensures { result ≡ list_any (λ h. meets_place filter.now h.rel h.blk h.fork) heads.now }
{
    heads
        .iter()
        .any(|head| filter.meets_place(head.rel, head.blk, head.fork))
}

fn has_page_image(heads: &[BlockHead]) -> bool
    ensures { result ≡ list_any (λ h. is_some h.image) heads.now }
{
    heads.iter().any(|head| head.image.is_some())
}

/// The record that was read last, kept where it may meet a filter's rules.
#[derive(Drop)]
pub(crate) struct Sifted<B: ByFilter> {
    filter: Filter,
    /// Whether the filter has rules.
    asks: bool,
    /// Whether the rules refuse the record, which is not kept then.
    refused: bool,
    unkept: Unkept,
    /// The record as it is listed, where it is not refused.
    pub(crate) listed: Listed,
    by: PhantomData<B>,
    ghost own: { filter ≡ B.filter },
    ghost asked: { asks ≡ has_rules filter },
    ghost refuses: { IsTrue refused → meets_rules filter unkept.spelled ≡ false },
}

impl<B: ByFilter> KeepsRecord for Sifted<B> {
    ghost kept = { λ sifted. held_of sifted.refused sifted.unkept.spelled sifted.listed.value };

    // A call of its own, so that the decoder is compiled into the reader's loop.
    #[inline(never)]
    fn keep(
        &mut self,
        alloc: Global,
        bytes: &[u8],
        heads: &[BlockHead],
        headers: Headers,
    ) -> Result<(), RecErr> {
        self.refused = false;
        if meets(&self.filter, self.asks, bytes, heads) {
            return self.listed.value.keep(alloc, bytes, heads, headers);
        }
        self.unkept.keep(alloc, bytes, heads, headers)?;
        self.refused = true;
        Ok(())
    }
}

// A record to be listed that is none yet.
fn blank(alloc: Global) -> Listed {
    Listed {
        start: Lsn(0),
        prev: Lsn(0),
        total: 0,
        value: Record::blank(alloc),
    }
}

impl<B: ByFilter> Sifted<B> {
    /// Before any record.
    pub(crate) fn new(alloc: Global, filter: &Filter) -> Sifted<B>
        requires { filter.now ≡ B.filter }
    {
        Sifted {
            filter: *filter,
            asks: filter.has_rules(),
            refused: false,
            unkept: Unkept::new(),
            listed: blank(alloc),
            by: PhantomData,
        }
    }

    /// Whether the filter keeps the record that was read last, which stands here; then that is what
    /// is listed.
    #[inline(always)]
    pub(crate) fn keeps(&mut self, head: RecordHead) -> bool
        ensures keeps { result ≡ keeps B.filter (listed_with (held_of self.old.refused
            self.old.unkept.spelled self.old.listed.value) head) }
        ensures listed { IsTrue result → self.new.listed ≡ listed_with (held_of self.old.refused
            self.old.unkept.spelled self.old.listed.value) head }
    {
        if self.refused {
            return false;
        }
        self.listed.start = head.start;
        self.listed.prev = head.prev;
        self.listed.total = head.total;
        self.filter.keeps(&self.listed)
    }
}
