// What is read and told, as values: a record with its place, the kinds of damage by name, and where
// and why a log stops. Each kind names one check; which check comes before which is said by the
// table of checks (specs/Decodes).
ghost use Rattle.std.specs.Prelude.{◌≡◌};
ghost use Rattle.wal_reader.specs.Names.{page_name};

use thiserror::Error;
use wal_page::PageErr;
use wal_types::{Lsn, Record};

/// Where a record that was read stands, whatever it carries.
#[derive(Clone, Copy, Debug, PartialEq, Eq)]
pub struct RecordHead {
    pub start: Lsn,
    /// Just behind the record and its rounding; of a segment switch, where the next segment
    /// starts.
    pub end: Lsn,
    /// The start of the record before, as this one names it.
    pub prev: Lsn,
    /// The record's size in bytes.
    pub total: u32,
}

/// A record that was read, as definitions of what a log decodes to list it; a step gives its
/// fields.
#[derive(Debug, Drop)]
pub struct FoundRecord {
    pub head: RecordHead,
    pub value: Record,
}

/// Which check failed.
#[derive(Clone, Copy, Debug, PartialEq, Eq)]
pub enum DamageKind {
    /// A check of a page.
    Page(PageErr),
    /// A record starts on a page that says that one continues into it.
    Claims,
    /// A record's size is less than its header's.
    Length,
    /// No manager has the record's number.
    Rmgr,
    /// The record names another record before it than the one read: what it names.
    Prev { found: Lsn },
    /// A page that a record needs is not there.
    Missing,
    /// A page into which a record continues does not say so.
    NoContinuation,
    /// A page says that another number of bytes is still to come: that number.
    RemLen { found: u32 },
    Crc,
    /// The record's items are not as they should be.
    Malformed,
}

impl DamageKind {
    ghost use Rattle.std.specs.Prelude.{◌≡◌};
    ghost use Rattle.wal_reader.specs.Names.{damage_name};

    /// The word by which the program names it.
    pub fn name(self) -> &'static str
        ensures { result.now ≡ damage_name self }
    {
        match self {
            DamageKind::Page(fault) => page_name(fault),
            DamageKind::Claims => "claims",
            DamageKind::Length => "length",
            DamageKind::Rmgr => "rmgr",
            DamageKind::Prev { .. } => "prev",
            DamageKind::Missing => "missing",
            DamageKind::NoContinuation => "nocontinuation",
            DamageKind::RemLen { .. } => "remlen",
            DamageKind::Crc => "crc",
            DamageKind::Malformed => "malformed",
        }
    }
}

fn page_name(fault: PageErr) -> &'static str
    ensures { result.now ≡ page_name fault }
{
    match fault {
        PageErr::Magic { .. } => "magic",
        PageErr::Flags { .. } => "flags",
        PageErr::NoLong => "nolong",
        PageErr::LongInside => "longinside",
        PageErr::SegSize { .. } => "segsize",
        PageErr::PageSize { .. } => "pagesize",
        PageErr::SysId => "sysid",
        PageErr::Address { .. } => "address",
        PageErr::Timeline { .. } => "timeline",
    }
}

/// Where and why a log stops that comes to no clean end.
#[derive(Clone, Copy, Debug, PartialEq, Eq, Error)]
pub enum Stopped {
    /// A check failed of the page or the record at this address.
    #[error("the log is damaged")]
    Damaged { at: Lsn, kind: DamageKind },
    /// A record that starts here has a compressed image.
    #[error("the log has a compressed image")]
    Compressed { at: Lsn },
    /// A record that starts here was given up, and its continuation overwritten.
    #[error("a record was overwritten")]
    Overwritten { at: Lsn },
}

/// What stands where no record does, as definitions of what a log decodes to name it; no call
/// answers it, a step tells `End` or fails by `Stopped`.
#[derive(Clone, Copy, Debug)]
pub enum Answer {
    /// A clean end of the log: where the last record ends, or how far reading came where there is
    /// none.
    End { at: Lsn },
    Stopped(Stopped),
}
