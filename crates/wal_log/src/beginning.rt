// A record's place is reserved under an insertion lock, by one try (PostgreSQL's xlog.c,
// XLogInsertRecord, WALInsertLockAcquire, ReserveXLogInsertLocation). The pass comes with nothing
// held. In this order: down is loaded, a lock is taken, the position is locked, and stored behind
// the record. The lock is taken before the position moves, so that a watch that sees the record
// reserved finds it held until all is copied. It stays held with the record in flight under it. A
// try that reserves nothing releases it: the caller waits with nothing held.
ghost use Rattle.std.specs.Prelude.{◌≡◌, false, [], ◌∷◌, IsErrOf};
ghost use Rattle.wal_spelling.specs.Spelling.{is_assembled_switch};
ghost use Rattle.wal_rule.specs.Downs.{KnowsDown};
ghost use Rattle.wal_rule.specs.SeatedPasses.{StandsAtRest, setup_of, view_of};
ghost use Rattle.wal_log.specs.Beginning.{AnswersBeginTry, try_err_known_down, try_err_of_reserve};
ghost use Rattle.wal_log.specs.Downs.{KnowsNoFault};
ghost use Rattle.wal_log.specs.Standing.{GoesOnSeated, HoldsLocks};
ghost use Rattle.wal_log.specs.declared.beginning.TryErr.TheVariants.{AllHeld};

use insert_locks::{AllHeld, LockNo, release, try_take};
use reserve_lock::{ReserveErr, try_reserve_place};
use segment_disk::Disk;
use wal_page::Placed;
use wal_rule::SeatedPass;
use wal_spelling::Body;
use wal_types::Lsn;

/// A record whose place is reserved, under an insertion lock: where it starts and ends, and the
/// words that are left to copy.
#[derive(Drop)]
pub struct Begun<'a> {
    pub lock: LockNo,
    pub start: Lsn,
    pub end: Lsn,
    pub placed: Placed<'a>,
}

/// Why one try reserved nothing.
#[derive(Debug, Drop)]
pub enum TryErr {
    /// The position was locked, or was another one when it was to be locked: what was found.
    Busy { seen: u64 },
    /// All insertion locks were held: their words, none of them 0, in the order of the tries.
    AllHeld { seen: [u64; 8] },
    /// So many bytes of the log are left, fewer than the record takes up.
    Full { free: u64 },
    /// The disk has failed before: its count of faults then.
    Down { faults: u64 },
}

// Takes an insertion lock, and reserves the record's place under it. Where it reserves nothing, no
// lock stays held.
#[inline(always)]
pub(crate) fn try_begin<'p, 'a, D: Disk>(
    seated: &mut SeatedPass<'p, D>,
    body: &'a Body<'a>,
) -> Result<Begun<'a>, TryErr>
    requires rests { StandsAtRest seated.old }
    requires inserted { is_assembled_switch body.now ≡ false }
    // Reserved: the entry is the last of the pass's log, and in flight under one lock that it
    // holds, with all its words left to copy. Else the pass is about nothing again, and its log is
    // as it was, but for a note if the log was full.
    ensures begins { AnswersBeginTry (setup_of seated.old) body.now (view_of seated.old) result
        (view_of seated.new) }
    // A failed disk that the pass knows of is told again, and a try sets no down value.
    ensures down_again { (faults : _) → KnowsDown faults (view_of seated.old)
        → IsErrOf result (try_err_known_down faults) }
    ensures sets_none { (view_of seated.new).writing.down_set
        ≡ (view_of seated.old).writing.down_set }
    ensures goes_on { GoesOnSeated seated.old seated.new }
{
    let faults = seated.load_down();
    if faults != 0 {
        return Err(TryErr::Down { faults });
    }
    let lock = try_take(seated)?;
    reserve_under(seated, lock, body)
}

// Reserves the record's place under a lock that the pass holds, or releases the lock. The pass
// knows of no failed disk. It leaves what `try_begin` leaves: the record in flight under the lock,
// or a pass that is about nothing.
#[inline(always)]
fn reserve_under<'p, 'a, D: Disk>(
    seated: &mut SeatedPass<'p, D>,
    lock: LockNo,
    body: &'a Body<'a>,
) -> Result<Begun<'a>, TryErr>
    requires holds { HoldsLocks (lock.0 ∷ []) seated.old }
    requires up { KnowsNoFault (view_of seated.old) }
    requires inserted { is_assembled_switch body.now ≡ false }
    ensures begins { AnswersBeginTry (setup_of seated.old) body.now (view_of seated.old) result
        (view_of seated.new) }
    ensures sets_none { (view_of seated.new).writing.down_set
        ≡ (view_of seated.old).writing.down_set }
    ensures goes_on { GoesOnSeated seated.old seated.new }
{
    match try_reserve_place(seated, body) {
        Ok(reserved) => Ok(Begun {
            lock,
            start: reserved.start,
            end: reserved.end,
            placed: reserved.placed,
        }),
        Err(e) => {
            release(seated, lock);
            Err(TryErr::from(e))
        }
    }
}

impl From<AllHeld> for TryErr {
    ghost from_gives = { λ e t. t ≡ AllHeld e.seen };

    fn from(e: AllHeld) -> TryErr {
        let seen = e.seen;
        TryErr::AllHeld { seen }
    }
}

impl From<ReserveErr> for TryErr {
    ghost from_gives = { λ e t. t ≡ try_err_of_reserve e };

    fn from(e: ReserveErr) -> TryErr {
        match e {
            ReserveErr::Busy { seen } => TryErr::Busy { seen },
            ReserveErr::Full { free } => TryErr::Full { free },
        }
    }
}
