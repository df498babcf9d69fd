// The insertion locks, a word each (PostgreSQL's xlog.c, WALInsertLockAcquire,
// WALInsertLockRelease, WALInsertLockUpdateInsertingAt; a visit is what WaitXLogInsertionsToFinish
// makes of each lock). A word is 0 where its lock is free, 1 where it is held and tells nothing,
// else one more than an address: of the holder's record all words below it are copied, and if it
// has none yet, it will lie at or above it. Anybody
// takes a lock that is free; only its holder stores into it, and gives it back once no word of its
// record is left to copy. So who has seen how far records are reserved, and has visited all eight
// then, knows below which address all is copied. As each step (quiet.rt) these are made by a seated
// pass whose view lets it step (`may`), and tell what is left of the pass (`steps`) and what was
// met (`met`).
ghost use Rattle.std.specs.Prelude.{◌≡◌, ◌+◌, ◌%◌, ◌<◌, ◌^◌};
ghost use Rattle.machine_state.specs.Steps.{advance, load_lock, release, take_lock, MayStep};
ghost use Rattle.wal_rule.specs.Stepping.{Meets};
ghost use Rattle.wal_rule.specs.SeatedPasses.{Steps, view_of};

use crate::memory::place_of_lock;
use crate::quiet::Operands;
use crate::seated::SeatedPass;
use segment_disk::Disk;
use std::marker::Brand;

impl<'a, D: Disk> SeatedPass<'a, D> {
    /// Visits a lock, to learn up to which address all is copied under it, up to a limit at most.
    /// An insert's vain try of a lock is such a visit too, with the limit 0. With lock 0 a watch
    /// begins, for what the pass has seen reserved; it goes on with the lock behind the last one
    /// visited, but not past one that is held and tells nothing, unless that is the pass's own and
    /// the pass copies nothing. The limit is a multiple of 8, as each address that a pass learns.
    pub fn load_lock(&mut self, lock: u32, limit: u64) -> u64
        requires lock { lock < 8 }
        requires whole { limit % 8 ≡ 0 }
        ensures steps { Steps (load_lock lock limit) result self.old self.new }
        ensures met { Meets (view_of self.old) (load_lock lock limit) result }
    {
        self.loads::<Brand>(place_of_lock(lock), lock_and(lock, limit))
    }

    /// Takes a lock where it is free, which is where the word found is 0. The lock tells nothing
    /// then, and so holds other watchers back until its holder tells more or gives it back.
    pub fn take_lock(&mut self, lock: u32) -> u64
        requires lock { lock < 8 }
        ensures steps { Steps (take_lock lock) result self.old self.new }
        ensures met { Meets (view_of self.old) (take_lock lock) result }
    {
        self.exchanges::<Brand>(place_of_lock(lock), 0, 1, lock_and(lock, 0))
    }

    /// Tells that all below an address is copied under a lock that is held. If the pass's record is
    /// in flight under it, the address lies not past the record's next word to copy; if nothing is,
    /// not past the reserved end that the pass has seen, since whatever comes under the lock starts
    /// there or above. It is a multiple of 8. The view keeps what was told.
    pub fn advance(&mut self, lock: u32, upto: u64)
        requires lock { lock < 8 }
        requires low { upto + 1 < 2 ^ 64 }
        requires may { MayStep (view_of self.old) (advance lock upto) }
        ensures steps { Steps (advance lock upto) 0 self.old self.new }
    {
        self.stores::<Brand>(place_of_lock(lock), upto + 1, lock_and(lock, upto));
    }

    /// Gives a lock back that the pass holds, and under which nothing is left to copy: its record
    /// is copied whole, or is not under this lock.
    pub fn release(&mut self, lock: u32)
        requires lock { lock < 8 }
        requires may { MayStep (view_of self.old) (release lock) }
        ensures steps { Steps (release lock) 0 self.old self.new }
    {
        self.stores::<Brand>(place_of_lock(lock), 0, lock_and(lock, 0));
    }
}

// A lock, and an address.
fn lock_and(lock: u32, address: u64) -> Operands
    ensures { result ≡ record { first = lock; second = address } }
{
    Operands {
        first: u64::from(lock),
        second: address,
    }
}
