// The insertion locks under which a record is copied: an insert's one, or all eight of a segment
// switch. Its copy is the same under both (copying.rt), and so are what it tells under them and
// that they are given back behind its last word (landing.rt).
ghost use Rattle.std.specs.Prelude.{◌≡◌, ◌+◌, ◌<◌, ◌^◌};
ghost use Rattle.machine_state.specs.Moves.{without_work};
ghost use Rattle.wal_rule.specs.SeatedPasses.{HasView, view_of};
ghost use Rattle.insert_locks.specs.Holding.{AreLocks, HasTold, MayTell, NothingLeft};
ghost use Rattle.wal_log.specs.HeldLocks.{locks_of};

use insert_locks::{LockNo, advance, advance_below, release, release_below};
use machine_state::layout::LOCKS;
use segment_disk::Disk;
use wal_rule::SeatedPass;
use wal_types::Lsn;

/// The insertion locks that a pass holds which copies.
#[derive(Clone, Copy, Debug, PartialEq, Eq)]
pub enum Held {
    /// An insert's.
    One(LockNo),
    /// A segment switch's.
    All,
}

// Tells under each lock that is held that all below an address is copied.
pub(crate) fn tell_under<'p, D: Disk>(seated: &mut SeatedPass<'p, D>, held: Held, upto: Lsn)
    requires locks { AreLocks (locks_of held) }
    requires may { MayTell (locks_of held) upto.0 (view_of seated.old) }
    requires low { upto.0 + 1 < 2 ^ 64 }
    ensures told { HasTold (locks_of held) upto.0 seated.old seated.new }
{
    match held {
        Held::One(lock) => advance(seated, lock, upto),
        Held::All => advance_below(seated, LOCKS, upto),
    }
}

// Gives the locks that are held back, under which nothing is left to copy.
pub(crate) fn release_held<'p, D: Disk>(seated: &mut SeatedPass<'p, D>, held: Held)
    requires locks { AreLocks (locks_of held) }
    requires holds { (view_of seated.old).working.locks ≡ locks_of held }
    requires left { NothingLeft (view_of seated.old).opening.setup (locks_of held)
        (view_of seated.old).working.flight }
    // The pass holds none, and has nothing in flight.
    ensures view { HasView (without_work (view_of seated.old)) seated.old seated.new }
{
    match held {
        Held::One(lock) => release(seated, lock),
        Held::All => release_below(seated, LOCKS),
    }
}
