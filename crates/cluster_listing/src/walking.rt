//! Reading a log record by record, and handing on those that a filter keeps.

ghost use Rattle.std.specs.Prelude.{◌≡◌, ◌+◌, ◌<◌, ◌^◌, IfOk, IfErr, IfSome, List};
ghost use Rattle.segment_disk.specs.Tape.{IsUncalled};
ghost use Rattle.waldump_filter.specs.declared.listed.Listed.{Listed};
ghost use Rattle.cluster_listing.specs.Taking.{CutMore, TookMore};
ghost use Rattle.wal_reader.specs.declared.standing.ReadErr.{ReadErr};
ghost use Rattle.wal_reader.specs.declared.standing.ReadErr.TheVariants.{Memory};
ghost use Rattle.wal_reader.specs.LogReader.{reader_state};
ghost use Rattle.cluster_listing.specs.Past.{HasPastCause, IsListablePast, StepsPast, behind_at, compressed_at, passed_as, goes_on_at, goes_on_behind, page_behind, past_of};
ghost use Rattle.cluster_listing.specs.Walk.{HasWalkCause, IsWalk};

use crate::taking::{TakeErr, TakesRecords};
use byte_position::{Geometry, PAGE_SIZE};
use segment_disk::Disk;
use std::alloc::Global;
use thiserror::Error;
use wal_reader::{Comes, ReadErr, Reader, RecordHead, Stopped};
use wal_types::{Lsn, Record};
use waldump_filter::{Filter, Listed};

/// Why a log was not listed to its end.
#[derive(Clone, Copy, Debug, PartialEq, Eq, Error)]
pub enum ListErr {
    #[error("{0}")]
    Read(ReadErr),
    #[error("{0}")]
    Take(TakeErr),
}

impl From<ReadErr> for ListErr {
    ghost use Rattle.std.specs.Prelude.{◌≡◌};
    ghost use Rattle.cluster_listing.specs.declared.walking.ListErr.TheVariants as errors;

    ghost from_gives = { λ error e. e ≡ errors.Read error };

    fn from(error: ReadErr) -> ListErr {
        ListErr::Read(error)
    }
}

impl From<TakeErr> for ListErr {
    ghost use Rattle.std.specs.Prelude.{◌≡◌};
    ghost use Rattle.cluster_listing.specs.declared.walking.ListErr.TheVariants as errors;

    ghost from_gives = { λ error e. e ≡ errors.Take error };

    fn from(error: TakeErr) -> ListErr {
        ListErr::Take(error)
    }
}

/// What a walk over a log came to.
#[derive(Clone, Copy, Debug, PartialEq, Eq)]
pub struct Walked {
    /// How many records were handed on.
    pub count: u64,
    /// The clean end of the log; none where the limit came first.
    pub end: Option<Lsn>,
}

// A record to be listed that is none yet.
fn blank(alloc: Global) -> Listed {
    Listed {
        start: Lsn(0),
        prev: Lsn(0),
        total: 0,
        value: Record::blank(alloc),
    }
}

// No page ends above address 2^60.
const PAGES: u64 = 1 << 47;

// Where the page begins that stands behind the one of an address.
fn page_behind(at: Lsn) -> Lsn
    ensures { result.0 ≡ page_behind at.0 }
{
    Lsn((at.0 / PAGE_SIZE + 1).min(PAGES) * PAGE_SIZE)
}

// Where reading goes on that has failed so, or why it does not.
fn goes_on_at(error: ReadErr) -> Result<Lsn, ReadErr>
    ensures { result ≡ goes_on_at error }
{
    match error {
        ReadErr::Memory => Err(ReadErr::Memory),
        ReadErr::Disk { faults } => Err(ReadErr::Disk { faults }),
        ReadErr::Stopped(stopped) => goes_on_behind(stopped),
    }
}

fn goes_on_behind(stopped: Stopped) -> Result<Lsn, ReadErr>
    ensures { result ≡ goes_on_behind stopped }
{
    match stopped {
        Stopped::Damaged { at, kind } => Err(ReadErr::Stopped(Stopped::Damaged { at, kind })),
        Stopped::Compressed { at } => Err(ReadErr::Stopped(Stopped::Compressed { at })),
        Stopped::Overwritten { at } => Ok(page_behind(at)),
    }
}

/// What comes of a log that is read on behind overwritten records and compressed images.
#[derive(Clone, Copy)]
pub(crate) enum Past {
    Record(RecordHead),
    End { at: Lsn },
    /// Reading begins again at this address.
    Behind(Lsn),
}

// What a reader's step comes to for who reads on.
fn read_on(comes: Result<Comes, ReadErr>) -> Result<Past, ReadErr>
    ensures { result ≡ past_of comes }
{
    match comes {
        Ok(Comes::Record(head)) => Ok(Past::Record(head)),
        Ok(Comes::End { at }) => Ok(Past::End { at }),
        Err(error) => behind_at(goes_on_at(error)),
    }
}

fn behind_at(from: Result<Lsn, ReadErr>) -> Result<Past, ReadErr>
    ensures { result ≡ behind_at from }
{
    match from {
        Ok(from) => Ok(Past::Behind(from)),
        Err(error) => Err(error),
    }
}

// The record with compressed images at which a step stopped.
fn compressed_at(comes: Result<Comes, ReadErr>) -> Option<Lsn>
    ensures { result ≡ compressed_at comes }
{
    match comes {
        Ok(_) => None,
        Err(ReadErr::Memory) => None,
        Err(ReadErr::Disk { .. }) => None,
        Err(ReadErr::Stopped(Stopped::Damaged { .. })) => None,
        Err(ReadErr::Stopped(Stopped::Compressed { at })) => Some(at),
        Err(ReadErr::Stopped(Stopped::Overwritten { .. })) => None,
    }
}

// What comes where such a record is passed over.
fn passed_as(comes: Result<Comes, ReadErr>) -> Result<Past, ReadErr>
    ensures { result ≡ passed_as comes }
{
    match comes {
        Ok(Comes::Record(head)) => Ok(Past::Record(head)),
        Ok(Comes::End { at }) => Ok(Past::End { at }),
        Err(error) => Err(error),
    }
}

/// The next record that comes, put into `value`, or what stands in its place for who reads on. One
/// with compressed images comes as it is stored.
fn next_past<D: Disk>(
    reader: &mut Reader,
    alloc: Global,
    disk: &mut D,
    value: &mut Record,
) -> Result<Past, ReadErr>
    ensures steps { StepsPast (D.tape disk.old) reader.old reader.new value.new result }
    ensures leaves { ((reader_state reader.new).size ≡ (reader_state reader.old).size)
        × ((reader_state reader.new).end ≡ (reader_state reader.old).end) }
    ensures listable { IfOk result (IsListablePast value.new) }
    ensures uncalled { IsUncalled D.tape D.moment disk.old disk.new }
    ensures cause { HasPastCause (D.faults disk.old) (D.faults disk.new) result }
{
    let comes = reader.next_into(alloc, disk, value);
    match compressed_at(comes) {
        None => read_on(comes),
        Some(at) => {
            let passed = reader.pass_over(alloc, disk, at, value);
            passed_as(passed)
        }
    }
}

// One turn more; no log has so many that their count has no room.
fn turn_behind(turns: u64) -> Result<u64, ReadErr>
    ensures more { IfOk result (λ more. (more ≡ turns + 1) × (more < 2 ^ 64)) }
    ensures wanting { IfErr result (λ e. e ≡ Memory) }
{
    if turns == u64::MAX {
        return Err(ReadErr::Memory);
    }
    Ok(turns + 1)
}

/// Hands the records that a filter keeps to what takes them, up to its limit. Once that many are
/// taken, nothing is read any more. Behind an overwritten record reading goes on, as by
/// PostgreSQL's reader (xlogreader.c, `overwrittenRecPtr`), with the first record that starts on a
/// page behind; which record that one names before it is not checked. A record with compressed
/// images is handed on with the bytes that are stored of them.
pub(crate) fn walk<D: Disk, V: TakesRecords>(
    alloc: Global,
    disk: &mut D,
    geometry: Geometry,
    filter: &Filter,
    taker: &mut V,
) -> Result<Walked, ListErr>
    ensures walks { IfSome (D.tape disk.old) (λ t. IsWalk geometry filter.now t
        (TookMore V.took taker.old taker.new)
        (λ e rs. CutMore V.took V.cut taker.old taker.new e rs) result) }
    ensures uncalled { IsUncalled D.tape D.moment disk.old disk.new }
    ensures cause { HasWalkCause (D.faults disk.old) (D.faults disk.new) result }
{
    let mut reader = Reader::new(geometry, filter.start, filter.end);
    let mut listed = blank(alloc);
    let mut count = 0;
    let mut turns = 0;
    'records: while !filter.is_full(count) {
        turns = turn_behind(turns)?;
        let head = match next_past(&mut reader, alloc, disk, &mut listed.value)? {
            Past::Record(head) => head,
            Past::End { at } => {
                return Ok(Walked {
                    count,
                    end: Some(at),
                });
            }
            Past::Behind(from) => {
                reader = Reader::new(geometry, from, filter.end);
                continue 'records;
            }
        };
        listed.start = head.start;
        listed.prev = head.prev;
        listed.total = head.total;
        if filter.keeps(&listed) {
            taker.take(alloc, &listed)?;
            count += 1;
        }
    }
    Ok(Walked { count, end: None })
}
