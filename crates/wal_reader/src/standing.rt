//! Where a log's reader stands, and what a step of it tells. A clean end is told and forgotten: the
//! log may go on there later. Damage is no end of the log, and is told from then on.

ghost use Rattle.std.specs.Prelude.{◌≡◌};
ghost use Rattle.wal_types.specs.declared.record.Record.{Record};
ghost use Rattle.wal_reader.specs.Filled.{step_with};
ghost use Rattle.wal_reader.specs.Standings.{standing_after, told};

use crate::found::{Answer, RecordHead, Stopped};
use crate::record_place::RecordPlace;
use std::alloc::AllocError;
use thiserror::Error;
use wal_types::{Lsn, Record};

/// Where a reader stands.
#[derive(Clone, Copy, Debug)]
pub(crate) enum Standing {
    /// Nothing was read yet.
    NotBegun,
    /// Before a record, or where none stands yet.
    At(RecordPlace),
    /// This is told from now on.
    Stopped(Stopped),
}

impl Standing {
    /// An end is no more than told; a stop is told for good.
    pub(crate) fn after(self, answer: Answer) -> Standing
        ensures { result ≡ standing_after self answer }
    {
        match answer {
            Answer::End { .. } => self,
            Answer::Stopped(stopped) => Standing::Stopped(stopped),
        }
    }
}

/// What a step of reading gives.
#[derive(Debug, Drop)]
pub enum Step {
    /// The next record.
    Record {
        start: Lsn,
        /// Just behind the record and its rounding; of a segment switch, where the next segment
        /// starts.
        end: Lsn,
        /// The start of the record before, as this one names it.
        prev: Lsn,
        /// The record's size in bytes.
        total: u32,
        value: Record,
    },
    /// A clean end of the log: where the last record ends, or how far reading came where there is
    /// none.
    End {
        at: Lsn,
    },
}

/// What a step of reading gives whose record is put into one that the caller has.
#[derive(Clone, Copy, Debug, PartialEq, Eq)]
pub enum Comes {
    /// The next record was put, and stands here.
    Record(RecordHead),
    /// A clean end of the log, as `Step::End` tells it.
    End { at: Lsn },
}

/// Why a step of reading gives nothing.
#[derive(Clone, Copy, Debug, PartialEq, Eq, Error)]
pub enum ReadErr {
    #[error("out of memory")]
    Memory,
    /// The disk failed, and stood at this count of faults then.
    #[error("the disk failed")]
    Disk { faults: u64 },
    /// All records before this were given; it is no end of the log.
    #[error("{0}")]
    Stopped(Stopped),
}

impl From<AllocError> for ReadErr {
    ghost use Rattle.wal_reader.specs.declared.standing.ReadErr.TheVariants as errors;

    ghost from_gives = { λ _ e. e ≡ errors.Memory };

    fn from(_error: AllocError) -> ReadErr {
        ReadErr::Memory
    }
}

/// A step that put its record into this one, as a step that gives it.
pub(crate) fn step_with(value: Record, comes: Result<Comes, ReadErr>) -> Result<Step, ReadErr>
    ensures { result ≡ step_with value comes }
{
    match comes {
        Ok(Comes::Record(head)) => Ok(Step::Record {
            start: head.start,
            end: head.end,
            prev: head.prev,
            total: head.total,
            value,
        }),
        Ok(Comes::End { at }) => Ok(Step::End { at }),
        Err(error) => Err(error),
    }
}

/// An answer as a step tells it.
pub(crate) fn told(answer: Answer) -> Result<Comes, ReadErr>
    ensures { (value : Record) → step_with value result ≡ told answer }
{
    match answer {
        Answer::End { at } => Ok(Comes::End { at }),
        Answer::Stopped(stopped) => Err(ReadErr::Stopped(stopped)),
    }
}
