//! What lines were told, as it is kept for each line of a run.

ghost use Rattle.std.specs.Prelude.{◌≡◌, ◌↔◌, IsTrue, if◌then◌else◌};
ghost use Rattle.run_laws.specs.Counts.{is_hard};
ghost use Rattle.run_laws.specs.Told.{reserved_by, IsFullAnswer};

use crate::told::Told;
use std::marker::Model;
use wal_types::{Cause, Lsn};

/// What a line was told, in 32 bytes, since a run keeps it for each line; contracts see what was
/// told.
#[derive(Debug, Drop)]
pub struct KeptTold {
    answer: KeptAnswer,
}

// What a line was told, where a cause alone and a cause with a start are two: an `Option` would
// take the place of a number more.
#[derive(Debug, Drop)]
enum KeptAnswer {
    Wrote { start: Lsn, end: Lsn },
    Hard { start: Lsn, end: Lsn, moment: u64 },
    Flushed { upto: Lsn, moment: u64 },
    Async { start: Lsn, end: Lsn },
    Idle { upto: Lsn },
    Switched { start: Lsn, end: Lsn },
    Stayed { end: Lsn },
    Refused { cause: Cause },
    RefusedAt { cause: Cause, start: Lsn },
}

const _: () = prove!(size_of::<KeptTold>() == 32);

impl Model for KeptTold {
    ghost use Rattle.run_laws.specs.declared.told.Told.{Told};
    ghost use Rattle.run_laws.specs.Kept.{told_by_kept};

    ghost Value = { Told };

    ghost view = { λ kept. told_by_kept kept.answer };
}

impl KeptTold {
    /// What was told, to be kept.
    #[inline]
    pub fn of(told: Told) -> KeptTold
        ensures { result ≡ told }
    {
        let answer = match told {
            Told::Wrote { start, end } => KeptAnswer::Wrote { start, end },
            Told::Hard { start, end, moment } => KeptAnswer::Hard { start, end, moment },
            Told::Flushed { upto, moment } => KeptAnswer::Flushed { upto, moment },
            Told::Async { start, end } => KeptAnswer::Async { start, end },
            Told::Idle { upto } => KeptAnswer::Idle { upto },
            Told::Switched { start, end } => KeptAnswer::Switched { start, end },
            Told::Stayed { end } => KeptAnswer::Stayed { end },
            Told::Refused {
                cause,
                reserved: None,
            } => KeptAnswer::Refused { cause },
            Told::Refused {
                cause,
                reserved: Some(start),
            } => KeptAnswer::RefusedAt { cause, start },
        };
        KeptTold { answer }
    }

    /// What was told.
    #[inline]
    pub fn told(&self) -> Told
        ensures { result ≡ self.now }
    {
        match self.answer {
            KeptAnswer::Wrote { start, end } => Told::Wrote { start, end },
            KeptAnswer::Hard { start, end, moment } => Told::Hard { start, end, moment },
            KeptAnswer::Flushed { upto, moment } => Told::Flushed { upto, moment },
            KeptAnswer::Async { start, end } => Told::Async { start, end },
            KeptAnswer::Idle { upto } => Told::Idle { upto },
            KeptAnswer::Switched { start, end } => Told::Switched { start, end },
            KeptAnswer::Stayed { end } => Told::Stayed { end },
            KeptAnswer::Refused { cause } => Told::Refused {
                cause,
                reserved: None,
            },
            KeptAnswer::RefusedAt { cause, start } => Told::Refused {
                cause,
                reserved: Some(start),
            },
        }
    }

    /// `Told::reserved` of what was told.
    #[inline]
    pub fn reserved(&self) -> Option<Lsn>
        ensures { result ≡ reserved_by self.now }
    {
        match self.answer {
            KeptAnswer::Wrote { start, .. }
            | KeptAnswer::Hard { start, .. }
            | KeptAnswer::Async { start, .. }
            | KeptAnswer::Switched { start, .. }
            | KeptAnswer::RefusedAt { start, .. } => Some(start),
            KeptAnswer::Flushed { .. }
            | KeptAnswer::Idle { .. }
            | KeptAnswer::Stayed { .. }
            | KeptAnswer::Refused { .. } => None,
        }
    }

    /// `Told::is_hard` of it.
    #[inline]
    pub fn is_hard(&self) -> bool
        ensures { (if result then 1 else 0) ≡ is_hard self.now }
    {
        match self.answer {
            KeptAnswer::Hard { .. } => true,
            KeptAnswer::Wrote { .. }
            | KeptAnswer::Flushed { .. }
            | KeptAnswer::Async { .. }
            | KeptAnswer::Idle { .. }
            | KeptAnswer::Switched { .. }
            | KeptAnswer::Stayed { .. }
            | KeptAnswer::Refused { .. }
            | KeptAnswer::RefusedAt { .. } => false,
        }
    }

    /// `Told::is_full` of it.
    #[inline]
    pub fn is_full(&self) -> bool
        ensures { IsTrue result ↔ IsFullAnswer self.now }
    {
        match &self.answer {
            KeptAnswer::Refused { cause } | KeptAnswer::RefusedAt { cause, .. } => match cause {
                Cause::Full { .. } => true,
                Cause::Disk { .. } | Cause::Down { .. } => false,
            },
            KeptAnswer::Wrote { .. }
            | KeptAnswer::Hard { .. }
            | KeptAnswer::Flushed { .. }
            | KeptAnswer::Async { .. }
            | KeptAnswer::Idle { .. }
            | KeptAnswer::Switched { .. }
            | KeptAnswer::Stayed { .. } => false,
        }
    }
}
