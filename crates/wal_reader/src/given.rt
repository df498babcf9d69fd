//! The next record that a reader gives (PostgreSQL's XLogReadRecord, behind XLogFindNextRecord, of
//! xlogreader.c). The first time it looks for where reading begins, on the page that holds the
//! start; from then on it reads at the place behind the last record. Records that start before the
//! address asked for are read and checked as any other, and passed over: so each record that is
//! given has a right one before it, but the first that was read.

ghost use Rattle.std.specs.Prelude.{◌≡◌, ◌<◌, ◌≤◌, ◌^◌, option_map, Some, None, IfOk, IfSome, MatchResult};
ghost use Rattle.byte_position.specs.Position.{address_of};
ghost use Rattle.wal_reader.specs.Cache.{HoldsLastPage};
ghost use Rattle.wal_reader.specs.PageCursor.{Sees};
ghost use Rattle.wal_reader.specs.Pages.{Pages};
ghost use Rattle.wal_reader.specs.Answered.{IsAnswered, IsNextIn};
ghost use Rattle.wal_reader.specs.Filled.{read_with};
ghost use Rattle.wal_reader.specs.ReadFailures.{HasFailureCause};
ghost use Rattle.wal_reader.specs.Ready.{IsReadyAt};
ghost use Rattle.wal_reader.specs.ReadsOn.{ReadsOn};
ghost use Rattle.wal_reader.specs.RecordPlace.{IsOutOfReach, IsReachable};

use crate::beginning::find_beginning;
use crate::buffers::Buffers;
use crate::found::RecordHead;
use crate::page_cursor::PageCursor;
use crate::read_failure::ReadFailure;
use crate::record_place::RecordPlace;
use crate::record_reading::read_record;
use segment_disk::Disk;
use std::alloc::Global;
use wal_record::KeepsRecord;
use wal_types::Lsn;

/// The next record at or behind `start`, and where the one behind it stands: from a place, or
/// where reading has not begun from where it begins. `end` is where reading ends, if it is given.
/// The record is kept by `value`. `ready` tells where the record at the place stands,
/// if that is known, and then where the next one does.
#[inline(always)]
pub(crate) fn next_given<D: Disk, K: KeepsRecord>(
    alloc: Global,
    value: &mut K,
    buffers: &mut Buffers,
    disk: &mut D,
    start: Lsn,
    end: Option<Lsn>,
    from: Option<RecordPlace>,
    ready: &mut Option<PageCursor>,
) -> Result<(RecordHead, RecordPlace), ReadFailure>
    requires reachable { IfSome from IsReachable }
    requires ready { IfSome from (λ at. IsReadyAt buffers.old.cache at ready.old) }
    ensures ready { MatchResult result (λ r. IsReadyAt buffers.new.cache r.1 ready.new)
        (λ _. ready.new ≡ None) }
    // What is answered is the next record of these pages, at or behind `start`.
    ensures answered { IfOk (read_with (K.kept value.new) result)
        (IsAnswered from buffers.old.cache.geometry) }
    ensures gives { (pages : Pages) → Sees (D.tape disk.old) buffers.old.cache pages
        → IsNextIn buffers.old.cache.geometry pages start.0 (option_map (λ e. e.0) end) from
        buffers.old.room.items buffers.new.room.items (read_with (K.kept value.new) result) }
    // Where nothing is to be read, or all that may be is held already, the disk is untouched.
    ensures unread { IfSome from (λ at. IsOutOfReach buffers.old.cache.geometry
        (option_map (λ e. e.0) end) at.position → disk.new ≡ disk.old) }
    ensures last_page { IfSome from (λ at. HoldsLastPage buffers.old.cache.number
        (address_of buffers.old.cache.geometry at.position) → disk.new ≡ disk.old) }
    ensures unbegun { from ≡ None → 2 ^ 60 ≤ start.0 → disk.new ≡ disk.old }

    ensures reads_on { ReadsOn D.tape D.moment disk.old disk.new
        buffers.old.cache buffers.new.cache }
    ensures cause { HasFailureCause (D.faults disk.old) (D.faults disk.new) result }
{
    let at = match from {
        Some(at) => at,
        None => {
            *ready = None;
            find_beginning(&mut buffers.cache, disk, start)?
        }
    };
    read_given(alloc, value, buffers, disk, start, end, at, ready)
}

// Records before `start` are read and checked as any other, and passed over.
#[inline(always)]
fn read_given<D: Disk, K: KeepsRecord>(
    alloc: Global,
    value: &mut K,
    buffers: &mut Buffers,
    disk: &mut D,
    start: Lsn,
    end: Option<Lsn>,
    from: RecordPlace,
    ready: &mut Option<PageCursor>,
) -> Result<(RecordHead, RecordPlace), ReadFailure>
    requires reachable { IsReachable from }
    requires ready { IsReadyAt buffers.old.cache from ready.old }
    ensures ready { MatchResult result (λ r. IsReadyAt buffers.new.cache r.1 ready.new)
        (λ _. ready.new ≡ None) }
    // What is answered is the next record of these pages from the place on, at or behind `start`.
    // Where nothing is to be read, or all that may be is held already, the disk is untouched.
    ensures answered { IfOk (read_with (K.kept value.new) result)
        (IsAnswered (Some from) buffers.old.cache.geometry) }
    ensures gives { (pages : Pages) → Sees (D.tape disk.old) buffers.old.cache pages
        → IsNextIn buffers.old.cache.geometry pages start.0 (option_map (λ e. e.0) end) (Some from)
        buffers.old.room.items buffers.new.room.items (read_with (K.kept value.new) result) }
    ensures unread { IsOutOfReach buffers.old.cache.geometry
        (option_map (λ e. e.0) end) from.position → disk.new ≡ disk.old }
    ensures last_page { HoldsLastPage buffers.old.cache.number
        (address_of buffers.old.cache.geometry from.position) → disk.new ≡ disk.old }

    ensures reads_on { ReadsOn D.tape D.moment disk.old disk.new
        buffers.old.cache buffers.new.cache }
    ensures cause { HasFailureCause (D.faults disk.old) (D.faults disk.new) result }
{
    let mut at = from;
    'records: loop {
        let (found, behind) = read_record(alloc, value, buffers, disk, end, at, ready)?;
        if found.start.0 >= start.0 {
            return Ok((found, behind));
        }
        at = behind;
    }
}
