//! Calls with what they have to be told.

use crate::records::record;
use log_workers::{Insertion, Job, LogAnswer, LogCall, SegmentEnd};
use std::alloc::Global;
use std::test::Fail;
use wal_log::{CommitErr, FlushErr, Hard, InsertErr, Receipt, Sealed, Switch, SwitchErr};
use wal_types::Lsn;

/// A call, and what it has to be told.
pub enum Step {
    /// Of a record with so many bytes of main data.
    Insert(usize, Result<Receipt, InsertErr>),
    /// Of a record that takes up 40 bytes.
    Commit(Result<Sealed, CommitErr>),
    Flush(Lsn, Result<Hard, FlushErr>),
    Switch(Result<Switch, SwitchErr>),
}

impl Step {
    // How many bytes of main data its record has.
    fn len(&self) -> usize {
        match self {
            Step::Insert(len, _) => *len,
            _ => 8,
        }
    }

    // The call with its record, which a flush and a switch do not need.
    fn call(&self, alloc: Global, record: Insertion) -> LogCall {
        match self {
            Step::Insert(..) => LogCall::Insert(record),
            Step::Commit(_) => LogCall::Commit(record),
            Step::Flush(upto, _) => LogCall::Flush(*upto),
            Step::Switch(_) => LogCall::Switch(SegmentEnd::new(alloc)),
        }
    }

    fn job(&self, alloc: Global) -> Result<Job, Fail> {
        let body = record(alloc, 1, self.len())?;
        Ok(Job::of(self.call(alloc, Insertion::of(body))))
    }

    /// What its call has to be told.
    pub fn told(&self) -> LogAnswer {
        match self {
            Step::Insert(_, told) => LogAnswer::Inserted(*told),
            Step::Commit(told) => LogAnswer::Committed(*told),
            Step::Flush(_, told) => LogAnswer::Flushed(*told),
            Step::Switch(told) => LogAnswer::Switched(*told),
        }
    }
}

/// A job for each step of a backend.
pub fn jobs_of(alloc: Global, steps: &[Step]) -> Result<Vec<Job>, Fail> {
    let mut jobs = Vec::new(alloc);
    for step in steps {
        jobs.push(step.job(alloc)?)?;
    }
    Ok(jobs)
}
