// An insertion lock is taken (PostgreSQL's xlog.c, WALInsertLockAcquire), by an exchange of 0 for 1
// in its word. The eight are tried in turn, from the lock of the pass's number on, so that passes
// with other numbers begin at other locks. PostgreSQL waits at a lock that is held; here the caller
// is told if all eight are, and then holds no more than before. A segment switch needs them all,
// and tries each by itself, from lock 0 up. A record is reserved only under a lock that its pass
// holds already. So a watch that saw the record reserved, and visits the locks afterwards, finds
// this one held, or all of it copied.
ghost use Rattle.std.specs.Prelude.{◌≡◌, ◌≢◌, ◌<◌, IfErr, IfOk};
ghost use Rattle.machine_state.specs.Steps.{take_lock};
ghost use Rattle.wal_rule.specs.Stepping.{Meets};
ghost use Rattle.wal_rule.specs.SeatedPasses.{HasView, view_of};
ghost use Rattle.insert_locks.specs.Taking.{AreHeldWords, IsFirstFree, with_lock};

use crate::numbers::LockNo;
use machine_state::layout::LOCKS;
use segment_disk::Disk;
use wal_rule::SeatedPass;

/// All locks were held: the words met, none of them 0, in the order of the tries.
#[derive(Clone, Copy, Debug, PartialEq, Eq)]
pub struct AllHeld {
    pub seen: [u64; 8],
}

/// Takes an insertion lock: the one of the pass's number first, then the next ones, each tried
/// once. Where each is held, nothing has changed.
pub fn try_take<'p, D: Disk>(seated: &mut SeatedPass<'p, D>) -> Result<LockNo, AllHeld>
    // The pass holds this lock beside those that it held, and nothing else has changed for it.
    ensures taken { IfOk result (λ lock. (lock.0 < 8)
        × HasView (with_lock lock.0 (view_of seated.old)) seated.old seated.new) }
    // It is the first one that was free, in the order of the tries.
    ensures first { IfOk result (λ lock. IsFirstFree (view_of seated.old) lock.0) }
    // None of the eight words is 0, and each was met where its lock was tried.
    ensures held { IfErr result (λ e. AreHeldWords (view_of seated.old) e.seen
        × HasView (view_of seated.old) seated.old seated.new) }
{
    let first = seated.number % LOCKS;
    let mut seen = [0; 8];
    for tried in 0..8 {
        let lock = LockNo(((first + tried) % LOCKS) as u8);
        let word = try_take_lock(seated, lock);
        if word == 0 {
            return Ok(lock);
        }
        seen[tried as usize] = word;
    }
    Err(AllHeld { seen })
}

/// Takes this lock where it is free, by one try, and tells the word met, which is 0 just then.
pub fn try_take_lock<'p, D: Disk>(seated: &mut SeatedPass<'p, D>, lock: LockNo) -> u64
    requires lock { lock.0 < 8 }
    // The pass holds the lock beside those that it held, or what it held.
    ensures taken { result ≡ 0
        → HasView (with_lock lock.0 (view_of seated.old)) seated.old seated.new }
    ensures held { result ≢ 0 → HasView (view_of seated.old) seated.old seated.new }
    ensures met { Meets (view_of seated.old) (take_lock lock.0) result }
{
    seated.take_lock(u32::from(lock.0))
}
