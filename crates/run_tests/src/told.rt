//! What backends were told.

use backend_cli::{Cause, KeptTold, Told, ToldLists};
use std::alloc::Global;
use std::test::Fail;
use wal_types::Lsn;

/// Which records are looked at.
#[derive(Clone, Copy)]
pub enum Which {
    /// All that were reserved.
    All,
    /// Those of commits that were not refused.
    Commits,
    /// Those that end at or below an address.
    Upto(Lsn),
}

// The end of a record, where it is told.
fn end_told(answer: &Told) -> Option<Lsn> {
    match answer {
        Told::Wrote { end, .. }
        | Told::Hard { end, .. }
        | Told::Async { end, .. }
        | Told::Switched { end, .. } => Some(*end),
        _ => None,
    }
}

// Whether a line's record is one of these.
fn is_one(answer: &Told, which: Which) -> bool {
    match which {
        Which::All => true,
        Which::Commits => match answer {
            Told::Hard { .. } | Told::Async { .. } => true,
            _ => false,
        },
        Which::Upto(address) => match end_told(answer) {
            Some(end) => end <= address,
            None => false,
        },
    }
}

// Up to where an answer tells that all is durable by a moment; 0 where it does not.
fn durable_by(answer: &Told, latest: u64) -> Lsn {
    match answer {
        Told::Hard { end, moment, .. } if *moment <= latest => *end,
        Told::Flushed { upto, moment } if *moment <= latest => *upto,
        _ => Lsn(0),
    }
}

/// The records that lie below an address that some line was told to be durable by a moment: those
/// of inserts, of switches and of commits that were answered ahead too.
pub fn durable(told: &ToldLists, latest: u64) -> Which {
    let mut address = Lsn(0);
    for backend in 0..told.len() {
        address = address.max(durable_of(told.of(backend), latest));
    }
    Which::Upto(address)
}

// The highest address that a backend's answers tell so.
fn durable_of(told: &[KeptTold], latest: u64) -> Lsn {
    let mut address = Lsn(0);
    for answer in told {
        address = address.max(durable_by(&answer.told(), latest));
    }
    address
}

// Adds where the records of a backend start. An error if they do not rise.
fn add_starts(starts: &mut Vec<Lsn>, told: &[KeptTold], which: Which) -> Result<(), Fail> {
    let mut last = Lsn(0);
    for answer in told {
        if let Some(start) = answer.reserved() {
            if start <= last {
                return Err(Fail::from("records in the order of the lines"));
            }
            last = start;
            if is_one(&answer.told(), which) {
                starts.push(start)?;
            }
        }
    }
    Ok(())
}

/// Where such records of all backends start, sorted. An error if those of a backend do not rise.
pub fn starts_told(alloc: Global, told: &ToldLists, which: Which) -> Result<Vec<Lsn>, Fail> {
    let mut starts = Vec::new(alloc);
    for backend in 0..told.len() {
        add_starts(&mut starts, told.of(backend), which)?;
    }
    starts.sort()?;
    Ok(starts)
}

/// A fault of the line's own call of the disk.
pub const OWN_FAULT: Option<Cause> = Some(Cause::Disk { faults: 1 });

/// Why a line was refused.
pub fn cause_of(answer: &KeptTold) -> Option<Cause> {
    match answer.told() {
        Told::Refused { cause, .. } => Some(cause),
        _ => None,
    }
}

// Whether all lines of a backend were refused for this cause behind the first that was refused;
// that one may have been refused for a fault of its own.
fn is_refused_for(told: &[KeptTold], refused: Option<Cause>) -> bool {
    let mut is_refused = false;
    for answer in told {
        let cause = cause_of(answer);
        let is_first = !is_refused && (cause.is_none() || cause == OWN_FAULT);
        if !is_first && cause != refused {
            return false;
        }
        is_refused = cause.is_some();
    }
    true
}

/// How many lines of all backends were told an answer, if the refused ones were refused for this
/// cause, and each behind them.
pub fn count_told(told: &ToldLists, refused: Option<Cause>) -> Option<usize> {
    let mut count = 0usize;
    for backend in 0..told.len() {
        let answers = told.of(backend);
        if !is_refused_for(answers, refused) {
            return None;
        }
        count = count.wrapping_add(answers.len());
    }
    Some(count)
}

/// How many lines of all backends were refused for this cause, or were not refused if it is none.
pub fn count_for(told: &ToldLists, cause: Option<Cause>) -> usize {
    let mut count = 0usize;
    for backend in 0..told.len() {
        for answer in told.of(backend) {
            if cause_of(answer) == cause {
                count = count.wrapping_add(1);
            }
        }
    }
    count
}
