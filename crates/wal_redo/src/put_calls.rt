//! The puts that were asked of a store, which clauses alone read.
ghost use Rattle.std.specs.Prelude.{◌≡◌, List, []};
ghost use Rattle.std.specs.Borrow.{ftrue};
ghost use Rattle.wal_redo.specs.Calls.{PutCall, with_put_call};

use crate::block_id::BlockId;
use crate::blocks::PutErr;
use byte_position::Page;
use std::marker::{Brand, Model, PhantomData};

/// Calls of puts, which a call picks for the proof alone.
pub trait PicksPuts {
    ghost calls: { List PutCall };
}

impl PicksPuts for Brand {
    ghost calls = { [] };
}

/// Each put that was asked of a store so far, and its answer. It takes no memory, and its methods
/// do nothing when they run: a store keeps one for its member `calls`.
#[derive(Drop)]
pub struct PutCalls {
    marker: PhantomData<u8>,
    pub ghost calls: { List PutCall },
}

impl Model for PutCalls {
    ghost also_owns = { λ _. ftrue };
}

impl PutCalls {
    /// Those of a store that was asked for none.
    pub fn none() -> PutCalls
        ensures { result.calls ≡ [] }
    {
        PutCalls::of::<Brand>()
    }

    /// With one more behind them.
    pub fn with(&self, block: BlockId, page: &Page, answer: Result<(), PutErr>) -> PutCalls
        ensures { result.calls ≡ with_put_call self.now.calls block page.now answer }
    {
        self.with_picked::<Brand>(block, page, answer)
    }

    fn with_picked<B: PicksPuts>(
        &self,
        _block: BlockId,
        _page: &Page,
        _answer: Result<(), PutErr>,
    ) -> PutCalls
        ensures { result.calls ≡ B.calls }
    {
        PutCalls::of::<B>()
    }

    fn of<B: PicksPuts>() -> PutCalls
        ensures { result.calls ≡ B.calls }
    {
        PutCalls {
            marker: PhantomData,
        }
    }
}
