ghost use Rattle.std.specs.Cmp.{IsTotalOrder};
ghost use Rattle.std.specs.Cmp.Rules.{comparing};
ghost use Rattle.std.proofs.Common.{rules};

use std::cmp::Ordering;
use wal_types::{Block, Rel};

/// A block of a relation's fork (PostgreSQL's buf_internals.h, BufferTag). Blocks are ordered by
/// tablespace, database, relation, fork and number, in this order.
#[derive(Clone, Copy, Debug)]
pub struct BlockId {
    pub rel: Rel,
    /// The relation's fork: 0 main, 1 fsm, 2 vm, 3 init.
    pub fork: u8,
    /// The block's number in its fork.
    pub blk: u32,
}

impl BlockId {
    ghost use Rattle.std.specs.Prelude.{◌≡◌};
    ghost use Rattle.wal_redo.specs.Images.{block_named};

    /// The block that a record's reference names.
    pub(crate) fn of(reference: &Block) -> BlockId
        ensures { result ≡ block_named reference.now }
    {
        BlockId {
            rel: reference.rel,
            fork: reference.fork,
            blk: reference.blk,
        }
    }
}

impl PartialEq for BlockId {
    ghost use Rattle.wal_redo.specs.BlockOrder.{is_block};

    ghost eq = { is_block };

    ghost laws = { Prim.search (comparing, rules) };

    fn eq(&self, other: &BlockId) -> bool {
        self.rel.spc == other.rel.spc
            && self.rel.db == other.rel.db
            && self.rel.rel == other.rel.rel
            && self.fork == other.fork
            && self.blk == other.blk
    }
}

impl Eq for BlockId {
    ghost use Rattle.wal_redo.specs.BlockOrder.{is_block-equivalence};

    ghost laws = { is_block-equivalence };
}

impl Ord for BlockId {
    ghost use Rattle.wal_redo.specs.BlockOrder.{block_order, block_order-total};

    ghost cmp = { block_order };

    ghost total = { block_order-total };

    ghost matches_partial_cmp = { Prim.search (comparing, rules) };

    ghost matches_eq = { Prim.search (comparing, rules) };

    fn cmp(&self, other: &BlockId) -> Ordering {
        self.rel
            .spc
            .cmp(&other.rel.spc)
            .then_with(|| self.rel.db.cmp(&other.rel.db))
            .then_with(|| self.rel.rel.cmp(&other.rel.rel))
            .then_with(|| self.fork.cmp(&other.fork))
            .then_with(|| self.blk.cmp(&other.blk))
    }
}

impl PartialOrd for BlockId {
    ghost use Rattle.std.specs.Cmp.{partial_order_from_own_ties, partial_order_from_total};
    ghost use Rattle.std.specs.Ordering.{as_partial_cmp};
    ghost use Rattle.wal_redo.specs.BlockOrder.{block_order, block_order-total};

    ghost partial_cmp = { as_partial_cmp block_order };

    ghost laws = { partial_order_from_own_ties (partial_order_from_total block_order-total)
        (Prim.search (comparing, rules)) };

    fn partial_cmp(&self, other: &BlockId) -> Option<Ordering> {
        Some(self.cmp(other))
    }
}
