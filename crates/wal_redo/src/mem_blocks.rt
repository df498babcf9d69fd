// The store in memory. Each block's page lies in a box of its own, in a map that keeps the blocks
// in their order, so a put takes memory for a page, and for the block where it is new.
ghost use Rattle.std.specs.Prelude.{◌≡◌, ◌≤◌, false, [], All, IfOk, IsOk, IsTrue, OnErr, OnOk, length, option_map, slice_get};
ghost use Rattle.std.specs.BTreeMap.{keys};
ghost use Rattle.segment_disk.specs.Failing.{after_next, fails_next};

use crate::block_id::BlockId;
use crate::blocks::{Blocks, PutErr};
use crate::put_calls::PutCalls;
use byte_position::Page;
use segment_disk::{Memory, count_fault};
use std::alloc::Global;
use std::collections::BTreeMap;
use std::collections::btree_map::Iter;

/// A store of blocks in memory.
#[derive(Drop)]
pub struct MemBlocks {
    pages: BTreeMap<BlockId, Box<Page>>,
    /// The puts that fail, by their numbers from 1.
    fail: Vec<u64>,
    /// How many puts were asked for.
    called: u64,
    /// These puts, for clauses alone.
    calls: PutCalls,
    faults: u64,
}

impl MemBlocks {
    ghost use Rattle.std.specs.Prelude.{map};
    ghost use Rattle.std.specs.List.Sorted.{IsStrictlySortedBy};
    ghost use Rattle.std.specs.Map.{keys_of};
    ghost use Rattle.wal_redo.specs.BlockOrder.{block_order};
    ghost use Rattle.wal_redo.specs.BlockMap.{told_with};
    ghost use Rattle.wal_redo.specs.MemBlocks.{pages_told, stored_pages, puts_failing};
    ghost use Rattle.wal_redo.specs.Redo.{HasPutCause, is_failed};

    /// A store without a page, which fails at the puts that are listed by their numbers, from 1. It
    /// takes no memory yet.
    pub fn new(alloc: Global, fail: Vec<u64>) -> Result<MemBlocks, Memory>
        ensures made { IsOk result }
        ensures empty { IfOk result (λ store. stored_pages store ≡ []) }
        ensures uncalled { IfOk result (λ store. ⟦<MemBlocks as Blocks>⟧.calls store ≡ []) }
        ensures faults { IfOk result (λ store. ⟦<MemBlocks as Blocks>⟧.faults store ≡ 0) }
        ensures failing { IfOk result
            (λ store. puts_failing store ≡ record { numbers = fail.items; made = 0 }) }
    {
        Ok(MemBlocks {
            pages: BTreeMap::new(alloc),
            fail,
            called: 0,
            calls: PutCalls::none(),
            faults: 0,
        })
    }

    /// How many blocks have a page.
    pub fn len(&self) -> usize
        ensures { result ≡ length (stored_pages self.now) }
    {
        self.pages.len()
    }

    /// The block at a place of their order, counted from 0, and its page. Each call goes over all
    /// before.
    pub fn at(&self, place: usize) -> Option<(BlockId, &Page)>
        ensures page { option_map (λ e. (e.0, e.1.now)) result
            ≡ slice_get (stored_pages self.now) place }
        ensures ordered { IsStrictlySortedBy block_order (keys_of (stored_pages self.now)) }
    {
        let (block, page) = self.pages.iter().nth(place)?;
        Some((*block, page))
    }

    /// The blocks that have a page, in their order, and their pages.
    pub fn iter(&self) -> Iter<'_, BlockId, Box<Page>>
        ensures pages { map (λ e. (e.0, e.1.value)) result ≡ stored_pages self.now }
        ensures ordered { IsStrictlySortedBy block_order (keys_of (stored_pages self.now)) }
    {
        self.pages.iter()
    }

    // A put that is not noted yet.
    fn put_unnoted(&mut self, alloc: Global, block: BlockId, page: &Page) -> Result<(), PutErr>
        ensures put { OnOk result
            (pages_told self.new ≡ told_with (pages_told self.old) block page.now) }
        ensures refused { OnErr result (pages_told self.new ≡ pages_told self.old) }
        ensures cause { HasPutCause self.old.faults self.new.faults result }
        ensures fails { is_failed result ≡ fails_next (puts_failing self.old) }
        ensures failing { puts_failing self.new ≡ after_next (puts_failing self.old) }
        ensures unnoted { self.new.calls ≡ self.old.calls }
    {
        self.called = self.called.saturating_add(1);
        if self.fail.contains(&self.called) {
            let _ = count_fault(&mut self.faults);
            return Err(PutErr::Failed);
        }
        let Ok(page) = Box::new(alloc, *page) else {
            return Err(PutErr::Memory);
        };
        match self.pages.insert(block, page) {
            Ok(_) => Ok(()),
            Err(_) => Err(PutErr::Memory),
        }
    }
}

impl Blocks for MemBlocks {
    ghost use Rattle.wal_redo.specs.BlockMap.{BlockMap, told_with};
    ghost use Rattle.wal_redo.specs.Calls.{with_put_call};
    ghost use Rattle.wal_redo.specs.MemBlocks.{lists_none, pages_told, pages_told-finite, puts_failing};
    ghost use Rattle.wal_redo.specs.Redo.{HasPutCause, is_failed};

    ghost pages = { pages_told };

    ghost calls = { λ store. store.calls.calls };

    ghost faults = { λ store. store.faults };

    ghost never_fails = { lists_none };

    fn put(&mut self, alloc: Global, block: BlockId, page: &Page) -> Result<(), PutErr>
        ensures put { OnOk result
            (pages_told self.new ≡ told_with (pages_told self.old) block page.now) }
        ensures refused { OnErr result (pages_told self.new ≡ pages_told self.old) }
        ensures called { self.new.calls.calls
            ≡ with_put_call self.old.calls.calls block page.now result }
        ensures cause { HasPutCause self.old.faults self.new.faults result }
        ensures never { IsTrue (lists_none self.old)
            → (is_failed result ≡ false) × IsTrue (lists_none self.new) }

        // It fails at just the listed puts.
        ensures fails { is_failed result ≡ fails_next (puts_failing self.old) }
        ensures failing { puts_failing self.new ≡ after_next (puts_failing self.old) }
    {
        let answer = self.put_unnoted(alloc, block, page);
        self.calls = self.calls.with(block, page, answer);
        answer
    }

    fn faults(&self) -> u64 {
        self.faults
    }

    ghost finite = { pages_told-finite };
}
