//! Why the program ends with another status than 0.

use crate::place::ShownPlace;
use crate::scanner::LineFault;
use durable_map::{ChangeErr, MapFaultKind};
use segment_disk::Memory;
use std::alloc::{AllocError, AllocFailed};
use std::io;
use std::io::ErrorKind;
use thiserror::Error;
use wal_log::OpenFaultKind;
use wal_reader::Stopped;
use wal_types::{Cause, Refused};

#[derive(Clone, Copy, Debug, Error)]
pub enum PgmapErr {
    #[error("out of memory")]
    Memory,
    #[error("usage: pgmap [--dir FOLDER] [--threads N | list]")]
    Usage,
    #[error("line {line}: {fault}")]
    Line { line: u64, fault: LineFault },
    #[error("line {line}: a key or a value has more than 65536 bytes")]
    TooLong { line: u64 },
    #[error("disk fault")]
    Disk,
    #[error("line {line}: disk fault")]
    DiskAt { line: u64 },
    #[error("line {line}: log full")]
    LogFull { line: u64 },
    #[error("the record at {at} is no set and no del")]
    NoChange { at: ShownPlace },
    #[error("damaged at {at}: {check}")]
    Damaged { at: ShownPlace, check: &'static str },
    #[error("a standard stream failed")]
    Stream,
    #[error("log beyond cap")]
    BeyondCap,
}

impl PgmapErr {
    /// The exit status: the numbers of pgwal's where the cause is the same.
    pub fn status(self) -> u8 {
        match self {
            PgmapErr::Memory => 1,
            PgmapErr::Usage => 2,
            PgmapErr::Line { .. } | PgmapErr::TooLong { .. } => 3,
            PgmapErr::Disk | PgmapErr::DiskAt { .. } => 4,
            PgmapErr::LogFull { .. } => 5,
            PgmapErr::NoChange { .. } | PgmapErr::Damaged { .. } => 6,
            PgmapErr::Stream => 7,
            PgmapErr::BeyondCap => 10,
        }
    }

    /// A line that has no meaning.
    pub fn of_line(line: u64, fault: LineFault) -> PgmapErr {
        match fault {
            LineFault::Memory => PgmapErr::Memory,
            fault => PgmapErr::Line { line, fault },
        }
    }

    /// A change that was refused.
    pub fn of_refused(line: u64, error: ChangeErr) -> PgmapErr {
        match error {
            ChangeErr::Memory => PgmapErr::Memory,
            ChangeErr::TooLong => PgmapErr::TooLong { line },
            ChangeErr::Refused(Refused { cause, .. }) => match cause {
                Cause::Full { .. } => PgmapErr::LogFull { line },
                Cause::Disk { .. } | Cause::Down { .. } => PgmapErr::DiskAt { line },
            },
        }
    }

    /// A map that was not opened.
    pub fn of_unopened(kind: MapFaultKind) -> PgmapErr {
        match kind {
            MapFaultKind::Memory => PgmapErr::Memory,
            MapFaultKind::Disk { .. } => PgmapErr::Disk,
            MapFaultKind::NoChange { at } => PgmapErr::NoChange { at: ShownPlace(at) },
            MapFaultKind::Log(kind) => PgmapErr::of_unopened_log(kind),
        }
    }

    // The setup is one that a log can have, and a reopening never tells that a log is there.
    fn of_unopened_log(kind: OpenFaultKind) -> PgmapErr {
        match kind {
            OpenFaultKind::Memory | OpenFaultKind::BadSetup | OpenFaultKind::NotEmpty => {
                PgmapErr::Memory
            }
            OpenFaultKind::Disk { .. } => PgmapErr::Disk,
            OpenFaultKind::Beyond { .. } => PgmapErr::BeyondCap,
            OpenFaultKind::Foreign(stopped) => PgmapErr::of_stopped(stopped),
        }
    }

    fn of_stopped(stopped: Stopped) -> PgmapErr {
        let (at, check) = match stopped {
            Stopped::Damaged { at, kind } => (at, kind.name()),
            Stopped::Compressed { at } => (at, "compressed"),
            Stopped::Overwritten { at } => (at, "overwritten"),
        };
        PgmapErr::Damaged {
            at: ShownPlace(at),
            check,
        }
    }
}

impl From<AllocError> for PgmapErr {
    fn from(_e: AllocError) -> PgmapErr {
        PgmapErr::Memory
    }
}

impl<T: Drop> From<AllocFailed<T>> for PgmapErr {
    fn from(_e: AllocFailed<T>) -> PgmapErr {
        PgmapErr::Memory
    }
}

impl From<Memory> for PgmapErr {
    fn from(_e: Memory) -> PgmapErr {
        PgmapErr::Memory
    }
}

impl From<io::Error> for PgmapErr {
    fn from(e: io::Error) -> PgmapErr {
        match e.kind() {
            ErrorKind::OutOfMemory => PgmapErr::Memory,
            _ => PgmapErr::Stream,
        }
    }
}
