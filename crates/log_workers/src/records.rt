// Transactions' records.
ghost use Rattle.std.specs.Prelude.{◌≡◌, false, IfOk, vec_len};
ghost use Rattle.wal_spelling.specs.Spelling.{is_assembled_switch};

use crate::insertion::Insertion;
use crate::worker::{Job, LogCall};
use std::alloc::Global;
use wal_spelling::{Body, BodyErr};
use wal_types::{BlockList, Bytes, Record, Xid};

/// A transaction's record of 34 bytes, which takes up 40 of the log: a header of 24, one of 2, and
/// 8 of main data.
pub fn transaction(alloc: Global, xid: u32) -> Result<Body<'static>, BodyErr>
    ensures inserted { IfOk result (λ body. is_assembled_switch body ≡ false) }
{
    let record = Record {
        xid: Xid(xid),
        rmid: 1,
        info: 0,
        origin: None,
        top_xid: None,
        blocks: BlockList::of(Vec::new(alloc)),
        main: Bytes::of(vec![in alloc; 0x5a; 8]?),
    };
    Body::assemble(alloc, &record)
}

/// When a commit is answered.
#[derive(Clone, Copy, Debug, PartialEq, Eq)]
pub enum CommitKind {
    /// Once it is durable.
    Hard,
    /// Ahead of the disk.
    Async,
}

/// The commits of so many transactions, with the numbers from `first` on.
pub fn commits(alloc: Global, kind: CommitKind, first: u32, count: u32) -> Result<Vec<Job>, BodyErr>
    ensures { IfOk result (λ commits. vec_len commits ≡ count) }
{
    let mut commits = Vec::with_capacity(alloc, count as usize)?;
    for number in 0..count {
        let record = Insertion::of(transaction(alloc, first.wrapping_add(number))?);
        let call = match kind {
            CommitKind::Hard => LogCall::Commit(record),
            CommitKind::Async => LogCall::CommitAsync(record),
        };
        commits.push(Job::of(call))?;
    }
    Ok(commits)
}
