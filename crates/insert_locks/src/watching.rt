// All insertion locks are watched (PostgreSQL's xlog.c, WaitXLogInsertionsToFinish): the position
// is loaded, and then the eight locks' words, in this order. The other way round a record would be
// missed that was reserved in between, under a lock that was visited already. Nothing is stored.
// A free lock holds nothing back. One that tells an address lowers the bound to it, unless the
// bound is lower. One that tells nothing, or less than is asked for, ends the watch: PostgreSQL
// waits there (LWLockWaitForVar), here the caller is told and asks again.
// What a finished watch knows stays true whatever others do, since copies only go on (laws.rt). So
// who takes the writer out of its slot behind it may write up to the bound.
ghost use Rattle.std.specs.Prelude.{◌≡◌, ◌%◌, ◌<◌, ◌≤◌, true, false};
ghost use Rattle.segment_disk.specs.Tape.{empty_state};
ghost use Rattle.machine_state.specs.Moves.{begun, is_own, visited_on};
ghost use Rattle.machine_state.specs.Steps.{load_lock};
ghost use Rattle.wal_rule.specs.Stepping.{Meets};
ghost use Rattle.wal_rule.specs.SeatedPasses.{HasView, StaysSeated, view_of};
ghost use Rattle.insert_locks.specs.Watching.{HasFinished, HoldsBack, IsHeldBack, LetsPass};
ghost use Rattle.insert_locks.specs.Watching.{bound_behind, with_watching};

use crate::numbers::LockNo;
use crate::seeing::see_reserved;
use machine_state::layout::LOCKS;
use segment_disk::Disk;
use wal_rule::SeatedPass;
use wal_types::Lsn;

/// What a watch tells.
#[derive(Clone, Copy, Debug, PartialEq, Eq)]
pub enum Watched {
    /// All that is reserved below this address is copied. It is no less than the address asked for,
    /// or than the end of what was reserved where that is less.
    Finished { upto: Lsn },
    /// A lock's holder has not told so far: the lock's word, which is 1, or one more than an
    /// address below the one asked for.
    Behind { lock: LockNo, word: u64 },
}

/// Visits the eight locks, to learn below which address all that is reserved is copied, which is at
/// least the one asked for. It does not wait: the caller asks again. An insert that holds a lock
/// first tells its progress there.
pub fn watch<'p, D: Disk>(seated: &mut SeatedPass<'p, D>, upto: Lsn) -> Watched
    // All eight locks were visited. Below the bound all is copied that was reserved, and it is no
    // less than the address asked for, or than the reserved end if that is less.
    ensures finished { (bound : _) → result ≡ Watched.Finished bound
        → HasFinished upto.0 bound.0 (view_of seated.old) (view_of seated.new) }
    // The locks before this one let the watch pass, and this one does not: its word was met. Here
    // as there nothing of the view has changed but what is seen reserved and what is watched.
    ensures behind { (lock : _) (word : _) → result ≡ Watched.Behind lock word
        → IsHeldBack upto.0 lock.0 word (view_of seated.old) (view_of seated.new) }
    ensures stays { StaysSeated seated.old seated.new }
{
    let end = see_reserved(seated);
    let asked = upto.0.min(end);
    let mut bound = end;
    for number in 0..LOCKS {
        let lock = LockNo(number as u8);
        let word = visit(seated, lock, end);
        if holds_back(asked, word) {
            return Watched::Behind { lock, word };
        }
        bound = lowered(bound, word);
    }
    Watched::Finished { upto: Lsn(bound) }
}

// Visits a lock, to learn up to the end of what is reserved: the view watches as the machine has it
// behind such a visit, which begins a watch at lock 0.
fn visit<'p, D: Disk>(seated: &mut SeatedPass<'p, D>, lock: LockNo, end: u64) -> u64
    requires lock { lock.0 < 8 }
    requires whole { end % 8 ≡ 0 }
    ensures visits { HasView (with_watching
        (visited_on (is_own lock.0 (view_of seated.old).working) lock.0 result
        (begun lock.0 end (view_of seated.old)))
        (view_of seated.old)) seated.old seated.new }
    ensures met { Meets (view_of seated.old) (load_lock lock.0 end) result }
{
    seated.load_lock(u32::from(lock.0), end)
}

// Whether a lock with this word holds back a watch for an address.
fn holds_back(asked: u64, word: u64) -> bool
    ensures held { result ≡ true → HoldsBack asked word }
    ensures passes { result ≡ false → LetsPass asked word }
{
    word == 1 || word != 0 && word <= asked
}

// The bound behind a lock with this word.
fn lowered(bound: u64, word: u64) -> u64
    ensures { result ≡ bound_behind word bound }
{
    if word == 0 {
        bound
    } else {
        bound.min(word - 1)
    }
}
