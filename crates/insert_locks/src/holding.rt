// What a pass tells under the insertion locks that it holds, and how it gives them back
// (PostgreSQL's xlog.c, WALInsertLockUpdateInsertingAt, WALInsertLockRelease). An insert holds one
// lock, a segment switch all eight, and while it takes them those below one. An entry stands under
// all that its pass holds. So each of them tells the same address, from lock 0 up, as a watch
// visits them; and with the last one that is given back the entry has landed.
ghost use Rattle.std.specs.Prelude.{◌≡◌, ◌+◌, ◌<◌, ◌≤◌, ◌^◌, [], ◌∷◌};
ghost use Rattle.machine_state.specs.Moves.{without_work};
ghost use Rattle.machine_state.specs.Steps.{advance, MayStep};
ghost use Rattle.wal_rule.specs.SeatedPasses.{HasView, view_of};
ghost use Rattle.insert_locks.specs.Holding.{HasTold, MayTell, NothingLeft, lock_run};

use crate::numbers::LockNo;
use segment_disk::Disk;
use wal_rule::SeatedPass;
use wal_types::Lsn;

/// Tells under a lock that is held that all below an address is copied.
pub fn advance<'p, D: Disk>(seated: &mut SeatedPass<'p, D>, lock: LockNo, upto: Lsn)
    // The address may be told under the lock, which so is held.
    requires lock { lock.0 < 8 }
    requires may { MayStep (view_of seated.old) (advance lock.0 upto.0) }
    requires low { upto.0 + 1 < 2 ^ 64 }
    ensures told { HasTold (lock.0 ∷ []) upto.0 seated.old seated.new }
{
    seated.advance(u32::from(lock.0), upto.0);
}

/// Tells so under each lock below a number, all of which are held: of a switch that has them all,
/// or takes the next one.
pub fn advance_below<'p, D: Disk>(seated: &mut SeatedPass<'p, D>, count: u32, upto: Lsn)
    // One at least, and the address may be told under each.
    requires some { 1 ≤ count }
    requires locks { count ≤ 8 }
    requires may { MayTell (lock_run 0 count) upto.0 (view_of seated.old) }
    requires low { upto.0 + 1 < 2 ^ 64 }
    ensures told { HasTold (lock_run 0 count) upto.0 seated.old seated.new }
{
    for lock in 0..count {
        seated.advance(lock, upto.0);
    }
}

/// Gives a lock back, which is the only one that the pass holds.
pub fn release<'p, D: Disk>(seated: &mut SeatedPass<'p, D>, lock: LockNo)
    // Nothing is left to copy of what stands under it.
    requires lock { lock.0 < 8 }
    requires holds { (view_of seated.old).working.locks ≡ lock.0 ∷ [] }
    requires left { NothingLeft (view_of seated.old).opening.setup (lock.0 ∷ [])
        (view_of seated.old).working.flight }
    // The pass holds none, and has nothing in flight.
    ensures view { HasView (without_work (view_of seated.old)) seated.old seated.new }
{
    seated.release(u32::from(lock.0));
}

/// Gives the locks below a number back, which are those that the pass holds.
pub fn release_below<'p, D: Disk>(seated: &mut SeatedPass<'p, D>, count: u32)
    requires locks { count ≤ 8 }
    requires holds { (view_of seated.old).working.locks ≡ lock_run 0 count }
    requires left { NothingLeft (view_of seated.old).opening.setup (lock_run 0 count)
        (view_of seated.old).working.flight }
    ensures view { HasView (without_work (view_of seated.old)) seated.old seated.new }
{
    for lock in 0..count {
        seated.release(lock);
    }
}
