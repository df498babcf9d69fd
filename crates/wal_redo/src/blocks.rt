// A store of blocks, as redo sees it. A caller has it for itself while it calls (`&mut`). A put
// that was refused left all as it was (`refused`), and failed only where the count of faults rose
// (`cause`). Each put is noted once, with its answer, behind those before (`called`).
ghost use Rattle.std.specs.Prelude.{◌≡◌, ℕ, ◌≤◌, Bool, false, IfSome, IsTrue, List, Option, OnErr, OnOk};
ghost use Rattle.wal_redo.specs.BlockMap.{BlockMap, IsFinite, told_with};
ghost use Rattle.wal_redo.specs.Calls.{PutCall, with_put_call};
ghost use Rattle.wal_redo.specs.Redo.{HasPutCause, is_failed};

use crate::block_id::BlockId;
use byte_position::Page;
use std::alloc::Global;
use thiserror::Error;

/// Why a page was not put.
#[derive(Clone, Copy, Debug, PartialEq, Eq, Error)]
pub enum PutErr {
    #[error("out of memory")]
    Memory,
    /// The store failed, and its count of faults rose.
    #[error("the store failed")]
    Failed,
}

/// A store of pages by their blocks.
pub trait Blocks {
    /// The page of each block that has one, where the store tells them.
    ghost pages: { Self → Option BlockMap };

    /// Each put that was asked of the store, in order, and how it was answered.
    ghost calls: { Self → List PutCall };

    /// How often the store has failed.
    ghost faults: { Self → ℕ };

    /// Whether it is settled that no put will fail.
    ghost never_fails: { Self → Bool };

    /// Puts a page in a block's place.
    fn put(&mut self, alloc: Global, block: BlockId, page: &Page) -> Result<(), PutErr>
        ensures put { OnOk result (pages self.new ≡ told_with (pages self.old) block page.now) }
        ensures refused { OnErr result (pages self.new ≡ pages self.old) }
        ensures called { calls self.new ≡ with_put_call (calls self.old) block page.now result }
        ensures cause { HasPutCause (faults self.old) (faults self.new) result }
        ensures never { IsTrue (never_fails self.old)
            → (is_failed result ≡ false) × IsTrue (never_fails self.new) };

    fn faults(&self) -> u64
        ensures { result ≡ faults self.now };

    /// Only so many blocks have a page.
    ghost finite: { (store : Self) → IfSome (pages store) IsFinite };
}
