//! How a listing ended, and what is told of it.

ghost use Rattle.std.specs.Prelude.{◌≡◌};
ghost use Rattle.waldump_text.specs.Put.{Puts, joined};
ghost use Rattle.cluster_listing.specs.Ending.{ending_at, ending_of, ending_of_read, ending_of_stop, ending_of_take, ending_text, enough_line, is_torn, kind_line, place_line, ending_status};

use crate::taking::TakeErr;
use crate::walking::{ListErr, Walked};
use segment_disk::Sink;
use wal_reader::{DamageKind, ReadErr, Stopped};
use wal_types::Lsn;
use waldump_text::{SinkFault, put_all};

/// How a listing ended.
#[derive(Clone, Copy, Debug, PartialEq, Eq)]
pub enum Ending {
    /// The log comes to a clean end.
    Clean { at: Lsn },
    /// As many records are listed as were asked for.
    Enough { count: u64 },
    /// The segment that holds this address is not there, though a later one is; a listing itself
    /// tells `Clean`, and who knows the folder tells this.
    NoSegment { at: Lsn },
    /// Bytes of the record that starts here are not there, or not as they were written.
    Torn { at: Lsn, kind: DamageKind },
    /// Another check failed of the page or the record at this address.
    Damaged { at: Lsn, kind: DamageKind },
    /// The record that starts here has a compressed image.
    Compressed { at: Lsn },
    OutOfMemory,
    DiskFault,
    SinkFault,
}

impl Ending {
    /// How a listing ended, by what it answered.
    pub fn of(walked: Result<Walked, ListErr>) -> Ending
        ensures { result ≡ ending_of walked }
    {
        match walked {
            Ok(walked) => ending_at(walked.end, walked.count),
            Err(ListErr::Read(error)) => ending_of_read(error),
            Err(ListErr::Take(error)) => ending_of_take(error),
        }
    }

    /// The exit status.
    pub fn status(self) -> u8
        ensures { result ≡ ending_status self }
    {
        match self {
            Ending::Clean { .. } => 0,
            Ending::Enough { .. } => 0,
            Ending::OutOfMemory => 1,
            Ending::DiskFault => 4,
            Ending::Torn { .. } => 5,
            Ending::Damaged { .. } => 6,
            Ending::Compressed { .. } => 6,
            Ending::NoSegment { .. } => 7,
            Ending::SinkFault => 8,
        }
    }

    /// Puts the line that tells it.
    pub fn tell<E: Sink>(self, err: &mut E) -> Result<(), SinkFault>
        ensures { Puts (E.taken err.old) (E.taken err.new) (E.faults err.old) (E.faults err.new)
            (joined (ending_text self)) result }
    {
        match self {
            Ending::Clean { at } => tell_place(err, "clean end at ", at, ""),
            Ending::Enough { count } => tell_enough(err, count),
            Ending::NoSegment { at } => tell_place(err, "segment missing at ", at, ""),
            Ending::Torn { at, kind } => tell_kind(err, "torn record at ", at, kind.name()),
            Ending::Damaged { at, kind } => tell_kind(err, "damaged at ", at, kind.name()),
            Ending::Compressed { at } => tell_place(err, "damaged at ", at, ": compressed"),
            Ending::OutOfMemory => put_all(err, &[b"cluster_dump: out of memory\n"]),
            Ending::DiskFault => put_all(err, &[b"cluster_dump: disk fault\n"]),
            Ending::SinkFault => put_all(err, &[b"cluster_dump: sink fault\n"]),
        }
    }
}

fn ending_at(end: Option<Lsn>, count: u64) -> Ending
    ensures { result ≡ ending_at end count }
{
    match end {
        Some(at) => Ending::Clean { at },
        None => Ending::Enough { count },
    }
}

fn ending_of_read(error: ReadErr) -> Ending
    ensures { result ≡ ending_of_read error }
{
    match error {
        ReadErr::Memory => Ending::OutOfMemory,
        ReadErr::Disk { .. } => Ending::DiskFault,
        ReadErr::Stopped(stopped) => ending_of_stop(stopped),
    }
}

fn ending_of_take(error: TakeErr) -> Ending
    ensures { result ≡ ending_of_take error }
{
    match error {
        TakeErr::Memory => Ending::OutOfMemory,
        TakeErr::Sink(_) => Ending::SinkFault,
    }
}

fn ending_of_stop(stopped: Stopped) -> Ending
    ensures { result ≡ ending_of_stop stopped }
{
    match stopped {
        Stopped::Damaged { at, kind } if is_torn(kind) => Ending::Torn { at, kind },
        Stopped::Damaged { at, kind } => Ending::Damaged { at, kind },
        Stopped::Compressed { at } => Ending::Compressed { at },
        // A walk goes on behind it; who does not has a record whose continuation is not there.
        Stopped::Overwritten { at } => Ending::Torn {
            at,
            kind: DamageKind::NoContinuation,
        },
    }
}

// Whether damage is such that a record's bytes are not there, or not as they were written.
fn is_torn(kind: DamageKind) -> bool
    ensures { result ≡ is_torn kind }
{
    match kind {
        DamageKind::Missing => true,
        DamageKind::NoContinuation => true,
        DamageKind::RemLen { .. } => true,
        DamageKind::Crc => true,
        DamageKind::Page(_) => false,
        DamageKind::Claims => false,
        DamageKind::Length => false,
        DamageKind::Rmgr => false,
        DamageKind::Prev { .. } => false,
        DamageKind::Malformed => false,
    }
}

// A line about an address.
fn tell_place<'a, E: Sink>(
    err: &mut E,
    what: &'a str,
    at: Lsn,
    behind: &'a str,
) -> Result<(), SinkFault>
    ensures { Puts (E.taken err.old) (E.taken err.new) (E.faults err.old) (E.faults err.new)
        (joined (place_line what.now at behind.now)) result }
{
    put_all(
        err,
        &[
            b"cluster_dump: ",
            what.as_bytes(),
            at.text().as_bytes(),
            behind.as_bytes(),
            b"\n",
        ],
    )
}

// A line about a kind of damage at an address.
fn tell_kind<'a, E: Sink>(
    err: &mut E,
    what: &'a str,
    at: Lsn,
    kind: &'a str,
) -> Result<(), SinkFault>
    ensures { Puts (E.taken err.old) (E.taken err.new) (E.faults err.old) (E.faults err.new)
        (joined (kind_line what.now at kind.now)) result }
{
    put_all(
        err,
        &[
            b"cluster_dump: ",
            what.as_bytes(),
            at.text().as_bytes(),
            b": ",
            kind.as_bytes(),
            b"\n",
        ],
    )
}

fn tell_enough<E: Sink>(err: &mut E, count: u64) -> Result<(), SinkFault>
    ensures { Puts (E.taken err.old) (E.taken err.new) (E.faults err.old) (E.faults err.new)
        (joined (enough_line count)) result }
{
    let mut digits = itoa::Buffer::new();
    put_all(
        err,
        &[
            b"cluster_dump: listed as many as asked for: ",
            digits.format(count).as_bytes(),
            b"\n",
        ],
    )
}
