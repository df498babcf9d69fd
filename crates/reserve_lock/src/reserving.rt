// One try of a reservation (PostgreSQL's xlog.c, ReserveXLogInsertLocation). The pass took its
// insertion lock before: a watch that sees the record reserved looks at the locks afterwards, and
// must find what is still to copy. Here the position is locked (locking.rt), and stored again
// behind the record or as it was (places.rt). Once it is stored behind it, the record has its place
// for good, whatever fails later: its words are the pass's to copy, and the next record names its
// start as prev. Nobody else reserves those bytes.
ghost use Rattle.std.specs.Prelude.{◌≡◌, ℕ, ◌-◌, ◌<◌, [], ◌∷◌, false, IfErr, IfOk};
ghost use Rattle.byte_position.specs.Geometry.{IsSegmentSize};
ghost use Rattle.byte_position.specs.Position.{address_of};
ghost use Rattle.wal_spelling.specs.Spelling.{RecordOf, is_assembled_switch};
ghost use Rattle.machine_state.specs.Views.{Free, Landed};
ghost use Rattle.machine_state.specs.Words.{log_limit};
ghost use Rattle.wal_page.specs.Order.{assembled_room_at};
ghost use Rattle.wal_page.specs.Placed.{placed_end};
ghost use Rattle.wal_rule.specs.SeatedPasses.{StaysSeated, setup_of, view_of};
ghost use Rattle.reserve_lock.specs.Reserved.{HoldsLocksFor, IsInsertReserved, IsLockedAt, IsPlaceReserved, TellsWhy, full_view};

use crate::locking::{LockedAt, lock_seen};
use crate::places::{give_back, reserve_at};
use crate::starting::end_behind;
use byte_position::Geometry;
use segment_disk::Disk;
use std::marker::Brand;
use wal_page::Placed;
use wal_rule::SeatedPass;
use wal_spelling::Body;
use wal_types::Lsn;

/// Why nothing was reserved.
#[derive(Debug, Drop)]
pub enum ReserveErr {
    /// The position was locked, or was another one when it was to be locked: what was found, a byte
    /// position, one more where it was locked.
    Busy { seen: u64 },
    /// So many bytes of the log are left, fewer than the record takes up.
    Full { free: u64 },
}

/// A record's place: where it starts and ends, and its words, none of which is copied.
#[derive(Drop)]
pub struct Reserved<'a> {
    pub start: Lsn,
    pub end: Lsn,
    pub placed: Placed<'a>,
}

/// Reserves a record's place under the one insertion lock that the pass holds (PostgreSQL's xlog.c,
/// ReserveXLogInsertLocation), and gives the record there, with all its words left to copy. It
/// tries once and never waits: where another pass has the position locked, or has moved it, the
/// caller tries again. The lock stays held at each exit. A segment switch has a call of its own
/// (`try_reserve_switch`), since it stands under all locks.
#[inline(always)]
pub fn try_reserve<'a, 'p, D: Disk>(
    seated: &mut SeatedPass<'p, D>,
    body: &'a Body<'a>,
) -> Result<Placed<'a>, ReserveErr>
    requires inserted { is_assembled_switch body.now ≡ false }
    // The pass holds one insertion lock, copies nothing, and has not locked the position.
    requires holds { (lock : ℕ) × ((view_of seated.old).working
        ≡ record { locks = lock ∷ []; flight = Landed }) }
    requires place { (view_of seated.old).reserving.place ≡ Free }
    // The entry stands behind all that the pass had seen and ends within the log; it is in flight
    // under the lock, and all its words are left to copy.
    ensures reserved { (lock : ℕ) → (view_of seated.old).working
        ≡ record { locks = lock ∷ []; flight = Landed }
        → IfOk result (λ placed. IsInsertReserved (setup_of seated.old) body.now lock
        (view_of seated.old) (view_of seated.new)
        (address_of (setup_of seated.old).seg_size placed.start) placed) }
    // Nothing was reserved, and the pass has the position locked no longer.
    ensures why { IfErr result (λ e. TellsWhy (setup_of seated.old) body.now (view_of seated.old)
        (view_of seated.new) e) }
    ensures stays { StaysSeated seated.old seated.new }
{
    match try_reserve_place(seated, body) {
        Ok(reserved) => Ok(reserved.placed),
        Err(e) => Err(e),
    }
}

/// As `try_reserve`, and tells the addresses too at which the record starts and ends: a reservation
/// computes both, and who asks the record for them has to divide again.
#[inline(always)]
pub fn try_reserve_place<'a, 'p, D: Disk>(
    seated: &mut SeatedPass<'p, D>,
    body: &'a Body<'a>,
) -> Result<Reserved<'a>, ReserveErr>
    requires inserted { is_assembled_switch body.now ≡ false }
    requires holds { (lock : ℕ) × ((view_of seated.old).working
        ≡ record { locks = lock ∷ []; flight = Landed }) }
    requires place { (view_of seated.old).reserving.place ≡ Free }
    ensures reserved { (lock : ℕ) → (view_of seated.old).working
        ≡ record { locks = lock ∷ []; flight = Landed }
        → IfOk result (λ r. IsInsertReserved (setup_of seated.old) body.now lock
        (view_of seated.old) (view_of seated.new) r.start.0 r.placed) }
    ensures end { IfOk result (λ r. r.end.0 ≡ placed_end r.placed) }
    ensures why { IfErr result (λ e. TellsWhy (setup_of seated.old) body.now (view_of seated.old)
        (view_of seated.new) e) }
    ensures stays { StaysSeated seated.old seated.new }
{
    let geometry = seated.shape().geometry();
    let locked = match lock_seen(seated, geometry) {
        Ok(locked) => locked,
        Err(seen) => return Err(ReserveErr::Busy { seen }),
    };
    match reserve_locked(seated, geometry, body, locked, u64::from(body.room())) {
        Ok(reserved) => Ok(reserved),
        Err(free) => Err(ReserveErr::Full { free }),
    }
}

// Reserves the record's place at the locked position, where it takes up `room` bytes, under the
// insertion locks that the pass holds. Where too few bytes of the log are left, it gives the
// position back and tells how many.
#[inline(always)]
pub(crate) fn reserve_locked<'a, 'p, D: Disk>(
    seated: &mut SeatedPass<'p, D>,
    geometry: Geometry,
    body: &'a Body<'a>,
    locked: LockedAt,
    room: u64,
) -> Result<Reserved<'a>, u64>
    requires known { RecordOf body.now }
    requires valid { IsSegmentSize geometry }
    requires locked { IsLockedAt (setup_of seated.old) geometry locked.at locked.behind.0
        locked.start.0 (view_of seated.old) }
    requires room { room
        ≡ assembled_room_at (setup_of seated.old).seg_size locked.at body.now }
    requires holds { HoldsLocksFor body.now (view_of seated.old) }
    ensures reserved { IfOk result (λ r. (p : IsPlaceReserved (setup_of seated.old) body.now
        (view_of seated.old).working.locks (view_of seated.old) (view_of seated.new)
        r.start.0 r.placed) × (p.at ≡ locked.at)) }
    ensures end { IfOk result (λ r. r.end.0 ≡ placed_end r.placed) }
    ensures full { IfErr result (λ free. (free ≡ log_limit (setup_of seated.old) - locked.at)
        × (free < room) × (view_of seated.new ≡ full_view locked.at (view_of seated.old))) }
    ensures stays { StaysSeated seated.old seated.new }
{
    let at = locked.at;
    let start = locked.start;
    let shape = seated.shape();
    let free = shape.limit() - at;
    if free < room {
        give_back::<D, Brand>(seated, body, at);
        return Err(free);
    }
    let prev = reserve_at::<D, Brand>(seated, body, at, start, room);
    Ok(Reserved {
        start,
        end: end_behind(geometry, at, start, room),
        placed: Placed::reserved(
            geometry,
            shape.sysid(),
            body,
            at,
            room,
            Lsn(prev),
            locked.behind,
        ),
    })
}
