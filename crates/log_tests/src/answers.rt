//! What passes of one table are answered while another one is under way.

ghost use Rattle.std.specs.Prelude.{◌≡◌, [], ◌∷◌, false};
ghost use Rattle.wal_spelling.specs.Spelling.{is_assembled_switch};
ghost use Rattle.machine_state.specs.Views.{Free, Landed};
ghost use Rattle.wal_rule.specs.SeatedPasses.{view_of};

use crate::records::record;
use crate::tables::{open, resume};
use insert_locks::{AllHeld, LockNo, Watched, try_take, watch};
use reserve_lock::{ReserveErr, try_reserve};
use segment_disk::MemDisk;
use std::alloc::Global;
use std::process::Abort;
use std::test::Fail;
use wal_rule::SeatedPass;
use wal_spelling::Body;
use wal_types::Lsn;
use word_ring::{MapTry, Presence, confirm, try_map};

// The last one of the segment's first four pages, which the ring has, counted from the log's
// address 0.
const LAST_PAGE: u64 = 131;

// Whether a page is in its buffer, and what a try to map it is told, where no pass has a turn.
fn told_of_page(alloc: Global, page: u64) -> Result<(Presence, MapTry), Fail> {
    if page >= 1 << 40 {
        return Err(Fail::from("a page of a log"));
    }
    let (table, mut first) = open(alloc)?;
    let mut second = first.split(&table);
    let presence = confirm(&mut first.seat(&table), page);
    Ok((presence, try_map(&mut second.seat(&table), page)))
}

// What a try to map a page is told where another pass has the turn, and whether the writer is there
// where another one has that.
fn told_without_turns(alloc: Global) -> Result<(MapTry, bool), Fail> {
    let (table, mut first) = open(alloc)?;
    let mut second = first.split(&table);
    let mut third = first.split(&table);
    let mut fourth = first.split(&table);
    first.seat(&table).take_mapping_turn();
    let told = try_map(&mut second.seat(&table), LAST_PAGE);
    third.seat(&table).take_write_turn();
    Ok((told, fourth.seat(&table).take_writer()))
}

#[test]
fn pages_and_turns_are_told(rt: HostRuntime) -> Result<(), Fail> {
    let alloc = rt.alloc();
    let there = (Presence::Present, MapTry::There);
    assert_eq!(rt; told_of_page(alloc, LAST_PAGE)?, there);
    let other = Presence::Other { end: 129 * 8192 };
    let unwritten = MapTry::Unwritten { written: 1 << 20 };
    assert_eq!(rt; told_of_page(alloc, LAST_PAGE + 1)?, (other, unwritten));
    let taken = MapTry::Taken { turn: 1 };
    assert_eq!(rt; told_without_turns(alloc)?, (taken, false));
    Ok(())
}

#[test]
fn a_log_is_answered_up_to_its_start(rt: HostRuntime) -> Result<(), Fail> {
    let (table, mut first) = open(rt.alloc())?;
    assert_eq!(rt; first.seat(&table).load_async(), 1 << 20);
    Ok(())
}

#[test]
fn a_log_that_was_found_empty_is_answered_up_to_its_start(rt: HostRuntime) -> Result<(), Fail> {
    let (table, mut first) = resume(rt.alloc())?;
    assert_eq!(rt; first.seat(&table).load_async(), 1 << 20);
    Ok(())
}

// The lock that a pass takes, and what it sees under it of the position, which another one has
// locked.
fn position_seen(alloc: Global) -> Result<Option<(LockNo, u64)>, Fail> {
    let (table, mut first) = open(alloc)?;
    let mut second = first.split(&table);
    let body = record(alloc, 700, 8)?;
    first.seat(&table).lock_position(1_045_488);
    let mut seated = second.seat(&table);
    let Ok(lock) = try_take(&mut seated) else {
        return Ok(None);
    };
    Ok(seen_under(&mut seated, &body, lock))
}

// What a pass sees of the position under the one lock that it holds.
fn seen_under<'a, 'p>(
    seated: &mut SeatedPass<'p, MemDisk>,
    body: &'a Body<'a>,
    lock: LockNo,
) -> Option<(LockNo, u64)>
    requires inserted { is_assembled_switch body.now ≡ false }
    requires holds { (view_of seated.old).working
        ≡ record { locks = lock.0 ∷ []; flight = Landed } }
    requires place { (view_of seated.old).reserving.place ≡ Free }
{
    match try_reserve(seated, body) {
        Err(ReserveErr::Busy { seen }) => Some((lock, seen)),
        _ => None,
    }
}

// Takes all locks, from the one of the pass's number on.
fn takes_all<'p, R: Abort>(rt: &R, seated: &mut SeatedPass<'p, MemDisk>) {
    for lock in [3, 4, 5, 6, 7, 0, 1, 2] {
        assert_eq!(rt; try_take(seated), Ok(LockNo(lock)));
    }
}

#[test]
fn held_locks_and_a_locked_position_are_told(rt: HostRuntime) -> Result<(), Fail> {
    let alloc = rt.alloc();
    assert_eq!(rt; position_seen(alloc)?, Some((LockNo(1), 1_045_489)));
    let (table, mut first) = open(alloc)?;
    let mut second = first.split(&table);
    first.split(&table);
    let mut fourth = first.split(&table);
    takes_all(&rt, &mut fourth.seat(&table));
    let mut seated = second.seat(&table);
    let held = AllHeld { seen: [1; 8] };
    assert_eq!(rt; try_take(&mut seated), Err(held));
    let behind = Watched::Behind {
        lock: LockNo(0),
        word: 1,
    };
    assert_eq!(rt; watch(&mut seated, Lsn(1 << 20)), behind);
    Ok(())
}

// What a watch for an address is told where nobody holds a lock.
fn told_of_free_locks(alloc: Global, upto: u64) -> Result<Watched, Fail> {
    let (table, mut first) = open(alloc)?;
    let mut second = first.split(&table);
    Ok(watch(&mut second.seat(&table), Lsn(upto)))
}

// Nothing is reserved: so a watch ends where the log starts, whatever is asked.
#[test]
fn a_watch_ends_where_nobody_holds_a_lock(rt: HostRuntime) -> Result<(), Fail> {
    for upto in [0, 1 << 20, 2 << 20] {
        let finished = Watched::Finished { upto: Lsn(1 << 20) };
        assert_eq!(rt; told_of_free_locks(rt.alloc(), upto)?, finished);
    }
    Ok(())
}
