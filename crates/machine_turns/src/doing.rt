//! Where a backend stands in the order of its steps. A place says what the backend holds: from
//! `Reserves` to `Releases` the lock that the place or its purpose names; at `GivesTurn`, and at
//! `Maps` once it is taken, the turn to map; from `LoadsDown` to `GivesWriteTurn` the turn to
//! write, and behind `TakesOut` up to `PutsBack` the writer.

ghost use Rattle.std.specs.Prelude.{◌≡◌};

use crate::event::Event;

/// What pages are written for.
#[derive(Clone, Copy, Debug, PartialEq, Eq)]
pub enum PlainPurpose {
    /// A line that flushes.
    Line,
    /// An insert that holds this lock, and needs the buffer of a page that ends at this address.
    Page { lock: u32, end: u64 },
}

/// A backend's next step. An insert begins, tries locks (`taken` were held by others so far),
/// reserves, and then, under the lock that it holds, looks whether the page of its next word is
/// there, copies, maps a page, gives the turn to map back (and then writes pages up to an address,
/// if one is named), tells how far it is, and releases the lock, the log being full or not. A flush
/// loads what it asks for, visits the locks, takes the turn to write and the writer, goes page by
/// page, and puts all back (PostgreSQL's xlog.c: XLogInsertRecord, GetXLogBuffer,
/// AdvanceXLInsertBuffer, XLogFlush, XLogWrite).
#[derive(Clone, Copy, Debug, PartialEq, Eq)]
pub enum PlainDoing {
    Begins,
    Tries { taken: u32 },
    Reserves { lock: u32 },
    Looks { lock: u32 },
    Copies { lock: u32 },
    Maps { lock: u32 },
    GivesTurn { lock: u32, end: Option<u64> },
    Tells { lock: u32, end: u64 },
    Releases { lock: u32, full: bool },
    FlushBegins,
    LoadsPosition,
    LoadsFlushed,
    LoadsMoment,
    Visits { purpose: PlainPurpose, lock: u32 },
    TakesTurn { purpose: PlainPurpose },
    LoadsDown { purpose: PlainPurpose },
    TakesOut { purpose: PlainPurpose },
    /// So many words of the page are loaded.
    LoadsPage { purpose: PlainPurpose, loaded: u32 },
    Creates { purpose: PlainPurpose },
    Writes { purpose: PlainPurpose },
    /// The segment is full, and is synced for that.
    SyncsFull { purpose: PlainPurpose },
    /// The segment under way is synced.
    SyncsLast,
    StoresWritten { purpose: PlainPurpose },
    StoresMoment,
    StoresFlushed,
    SetsDown { purpose: PlainPurpose },
    PutsBack { purpose: PlainPurpose, failed: bool },
    GivesWriteTurn { purpose: PlainPurpose, failed: bool },
}

/// What comes behind a step.
#[derive(Clone, Copy, Debug, PartialEq, Eq)]
pub enum PlainNext {
    /// Another step.
    GoesOn(PlainDoing),
    /// The line is answered, the log being full or not.
    Answers { full: bool },
}

/// A step that was made, and what comes behind it.
#[derive(Clone, Copy, Debug, PartialEq, Eq)]
pub struct Made {
    pub event: Event,
    pub next: PlainNext,
}

impl Made {
    /// A step with another one behind it.
    pub(crate) fn then(event: Event, doing: PlainDoing) -> Made
        ensures { result ≡ record { event = event; next = PlainNext.GoesOn doing } }
    {
        Made {
            event,
            next: PlainNext::GoesOn(doing),
        }
    }
}
