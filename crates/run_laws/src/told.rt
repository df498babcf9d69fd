ghost use Rattle.std.specs.Prelude.{◌≡◌, ◌↔◌, IsTrue, if◌then◌else◌};
ghost use Rattle.run_laws.specs.Answered.{told_of_insert, told_of_commit, told_of_commit_async, told_of_flush};
ghost use Rattle.run_laws.specs.Counts.{is_hard};
ghost use Rattle.run_laws.specs.Told.{reserved_by, IsFullAnswer};

use wal_types::{Cause, Hard, Lsn, Receipt, Refused, Sealed};

/// What a line was told.
#[derive(Clone, Copy, Debug, PartialEq, Eq)]
pub enum Told {
    /// A record was written; it may not be durable.
    Wrote { start: Lsn, end: Lsn },
    /// A record is durable from this moment of the disk on.
    Hard { start: Lsn, end: Lsn, moment: u64 },
    /// All below an address is durable from this moment of the disk on.
    Flushed { upto: Lsn, moment: u64 },
    /// A commit's record was written; the commit is answered before it is durable.
    Async { start: Lsn, end: Lsn },
    /// A flush behind found nothing to flush: all below an address was durable already.
    Idle { upto: Lsn },
    /// A segment switch was written: the segment ends here. It may not be durable.
    Switched { start: Lsn, end: Lsn },
    /// A segment switch had nothing to do: the log stood at a segment's start, here.
    Stayed { end: Lsn },
    /// Nothing is told to be durable; where a record was reserved all the same, its start.
    Refused { cause: Cause, reserved: Option<Lsn> },
}

impl Told {
    /// What an insert's line is told, by what the log answered.
    pub fn of_insert(answer: Result<Receipt, Refused>) -> Told
        ensures { result ≡ told_of_insert answer }
    {
        match answer {
            Ok(Receipt { start, end }) => Told::Wrote { start, end },
            Err(refused) => Told::of_refusal(refused),
        }
    }

    /// What a commit's line is told, by what the log answered.
    pub fn of_commit(answer: Result<Sealed, Refused>) -> Told
        ensures { result ≡ told_of_commit answer }
    {
        match answer {
            Ok(Sealed { start, end, moment }) => Told::Hard { start, end, moment },
            Err(refused) => Told::of_refusal(refused),
        }
    }

    /// What a commit's line is told that is answered ahead of the disk, by what the log answered.
    pub fn of_commit_async(answer: Result<Receipt, Refused>) -> Told
        ensures { result ≡ told_of_commit_async answer }
    {
        match answer {
            Ok(Receipt { start, end }) => Told::Async { start, end },
            Err(refused) => Told::of_refusal(refused),
        }
    }

    /// What a flush's line is told, by what the log answered.
    pub fn of_flush(answer: Result<Hard, Refused>) -> Told
        ensures { result ≡ told_of_flush answer }
    {
        match answer {
            Ok(Hard { upto, moment }) => Told::Flushed { upto, moment },
            Err(refused) => Told::of_refusal(refused),
        }
    }

    /// What a line is told whose call was refused.
    pub fn of_refusal(refused: Refused) -> Told
        ensures { result ≡ Told.Refused refused.cause refused.reserved }
    {
        Told::Refused {
            cause: refused.cause,
            reserved: refused.reserved,
        }
    }

    /// Where a record was reserved for the line.
    pub fn reserved(&self) -> Option<Lsn>
        ensures { result ≡ reserved_by self.now }
    {
        match self {
            Told::Wrote { start, .. }
            | Told::Hard { start, .. }
            | Told::Async { start, .. }
            | Told::Switched { start, .. } => Some(*start),
            Told::Flushed { .. } | Told::Idle { .. } | Told::Stayed { .. } => None,
            Told::Refused { reserved, .. } => *reserved,
        }
    }

    /// Whether the line was told that its commit is durable.
    pub fn is_hard(&self) -> bool
        ensures { (if result then 1 else 0) ≡ is_hard self.now }
    {
        match self {
            Told::Hard { .. } => true,
            Told::Wrote { .. }
            | Told::Flushed { .. }
            | Told::Async { .. }
            | Told::Idle { .. }
            | Told::Switched { .. }
            | Told::Stayed { .. }
            | Told::Refused { .. } => false,
        }
    }

    /// Whether the line found the log full.
    pub fn is_full(&self) -> bool
        ensures { IsTrue result ↔ IsFullAnswer self.now }
    {
        match self {
            Told::Refused { cause, .. } => match cause {
                Cause::Full { .. } => true,
                Cause::Disk { .. } | Cause::Down { .. } => false,
            },
            Told::Wrote { .. }
            | Told::Hard { .. }
            | Told::Flushed { .. }
            | Told::Async { .. }
            | Told::Idle { .. }
            | Told::Switched { .. }
            | Told::Stayed { .. } => false,
        }
    }
}
