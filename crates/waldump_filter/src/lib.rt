//! Which records a listing keeps, as the words of a command line say it.
#![tactic(auto)]

ghost use Rattle.std.specs.Prelude.{◌≡◌, ◌&&◌, IsTrue, nat_le, not};
ghost use Rattle.std.specs.List.{list_any};
ghost use Rattle.waldump_filter.specs.declared.listed.Listed.{Listed};
ghost use Rattle.waldump_filter.specs.Keeping.{asks_for_block, everything_from, has_page_image, has_rules, is_reached, is_relation, keeps, meets_block, meets_header, meets_place, meets_rules};

mod listed;
mod names;

pub use listed::Listed;
pub use names::{fork, fork_name, own_manager, own_manager_name};
use wal_types::{Block, Lsn, Record, Rel, Xid};

/// What a listing keeps and how much of it it prints (`pg_waldump`'s options). A rule that is not
/// given keeps every record. The rules on a relation, a block's number and a fork are met by one
/// block of a record together.
#[derive(Clone, Copy, Debug)]
pub struct Filter {
    /// The resource manager.
    pub rmid: Option<u8>,
    pub xid: Option<Xid>,
    /// The relation of a block.
    pub rel: Option<Rel>,
    /// The number of a block in its relation's fork.
    pub blk: Option<u32>,
    /// The fork of a block: 0 main, 1 fsm, 2 vm, 3 init.
    pub fork: Option<u8>,
    /// Whether only records are kept that have a page's image.
    pub fullpage: bool,
    /// Where the listing begins: records that start below it are read and checked, and not kept.
    pub start: Lsn,
    /// Where it ends: at the first record whose last byte is not below it.
    pub end: Option<Lsn>,
    /// How many records are listed at most.
    pub limit: Option<u64>,
    /// Whether nothing is printed.
    pub quiet: bool,
    /// Whether statistics are printed in place of the records.
    pub stats: bool,
    /// Whether a commit's time is printed behind its data.
    pub times: bool,
}

impl Filter {
    /// The filter that keeps all that starts at an address or behind it, to the log's end.
    pub fn everything_from(start: Lsn) -> Filter
        ensures filter { result ≡ everything_from start }
        ensures keeps { (r : _) → keeps result r ≡ nat_le start.0 r.start.0 }
    {
        Filter {
            rmid: None,
            xid: None,
            rel: None,
            blk: None,
            fork: None,
            fullpage: false,
            start,
            end: None,
            limit: None,
            quiet: false,
            stats: false,
            times: false,
        }
    }

    /// Whether a record meets all rules but the end and the limit, which no record meets by itself
    /// (PostgreSQL's pg_waldump.c, XLogRecordMatchesRelationBlock and XLogRecordHasFPW).
    #[inline(always)]
    #[tactic(auto, unfolding(crate::specs::Keeping::keeps))]
    pub fn keeps(&self, r: &Listed) -> bool
        ensures { result ≡ keeps self.now r.now }
    {
        self.start.0 <= r.start.0 && (!self.has_rules() || self.meets_rules(&r.value))
    }

    /// Whether so many listed records are as many as are to be listed.
    pub fn is_full(&self, count: u64) -> bool
        ensures { result ≡ is_reached self.now.limit count }
    {
        self.limit.is_some_and(|limit| limit <= count)
    }

    /// Whether a listing only counts the records from the start on: nothing is printed, and no rule
    /// is given beside the start, so that what a record carries says nothing.
    pub fn only_counts(&self) -> bool
        ensures asked { result ≡ (self.now.quiet && not (has_rules self.now)) }
        ensures keeps { IsTrue result
            → (r : Listed) → keeps self.now r ≡ nat_le self.now.start.0 r.start.0 }
    {
        self.quiet && !self.has_rules()
    }

    /// Whether a rule is given beside the start.
    pub fn has_rules(&self) -> bool
        ensures { result ≡ has_rules self.now }
    {
        self.rmid.is_some() || self.xid.is_some() || self.fullpage || self.asks_for_block()
    }

    // A call of its own, so that a listing without rules pays nothing for them.
    #[inline(never)]
    fn meets_rules(&self, value: &Record) -> bool
        ensures { result ≡ meets_rules self.now value.now }
    {
        let blocks = value.blocks.as_slice();
        self.meets_header(value.rmid, value.xid)
            && (!self.asks_for_block() || self.is_met_by_one(blocks))
            && (!self.fullpage || has_page_image(blocks))
    }

    /// Whether a record of this manager and transaction meets the rules on both.
    pub fn meets_header(&self, rmid: u8, xid: Xid) -> bool
        ensures { result ≡ meets_header self.now rmid xid }
    {
        self.rmid.is_none_or(|wanted| rmid == wanted)
            && self.xid.is_none_or(|wanted| xid.0 == wanted.0)
    }

    /// Whether a rule is given on a relation, a block's number or a fork.
    pub fn asks_for_block(&self) -> bool
        ensures { result ≡ asks_for_block self.now }
    {
        self.rel.is_some() || self.blk.is_some() || self.fork.is_some()
    }

    fn is_met_by_one(&self, blocks: &[Block]) -> bool
        ensures { result ≡ list_any (meets_block self.now) blocks.now }
    {
        blocks.iter().any(|block| self.meets_block(block))
    }

    fn meets_block(&self, block: &Block) -> bool
        ensures { result ≡ meets_block self.now block.now }
    {
        self.meets_place(block.rel, block.blk, block.fork)
    }

    /// Whether a block of this relation, number and fork meets the rules on them, all three.
    pub fn meets_place(&self, rel: Rel, blk: u32, fork: u8) -> bool
        ensures { result ≡ meets_place self.now rel blk fork }
    {
        self.rel.is_none_or(|wanted| is_relation(rel, wanted))
            && self.blk.is_none_or(|wanted| blk == wanted)
            && self.fork.is_none_or(|wanted| fork == wanted)
    }
}

fn is_relation(rel: Rel, wanted: Rel) -> bool
    ensures { result ≡ is_relation rel wanted }
{
    rel.spc == wanted.spc && rel.db == wanted.db && rel.rel == wanted.rel
}

fn has_page_image(blocks: &[Block]) -> bool
    ensures { result ≡ has_page_image blocks.now }
{
    blocks.iter().any(|block| block.image.is_some())
}
