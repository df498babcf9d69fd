// One try to reserve a segment switch (PostgreSQL's xlog.c, ReserveXLogSwitch). The pass holds all
// insertion locks, so that no other record is under way while the rest of the segment is filled.
// Where the log stands at a segment's start already, a switch has nothing to do: the position is
// stored as it was.
ghost use Rattle.std.specs.Prelude.{◌≡◌, IfErr, IfOk};
ghost use Rattle.wal_spelling.specs.Record.{switch_record};
ghost use Rattle.wal_spelling.specs.Spelling.{assembled};
ghost use Rattle.machine_state.specs.Views.{Free, Landed};
ghost use Rattle.wal_rule.specs.SeatedPasses.{StaysSeated, setup_of, view_of};
ghost use Rattle.reserve_lock.specs.Reserved.{AnswersSwitchTry, LeavesNoSwitch, TellsWhy, every_lock};

use crate::locking::lock_seen;
use crate::places::stay_there;
use crate::reserving::{ReserveErr, Reserved, reserve_locked};
use segment_disk::Disk;
use wal_page::room_at;
use wal_rule::SeatedPass;
use wal_spelling::Body;
use wal_types::Lsn;

/// What a segment switch comes to.
#[derive(Drop)]
pub enum SwitchTry<'a> {
    /// Its place is reserved, up to the start of the next segment.
    Switched(Reserved<'a>),
    /// Nothing is reserved: the log ends at this address, a segment's start.
    Stayed { end: Lsn },
}

/// Reserves a segment switch's place under all insertion locks, which the pass holds (PostgreSQL's
/// xlog.c, ReserveXLogSwitch), and with it the rest of its segment. It tries once and never waits,
/// as `try_reserve`. The locks stay held at each exit.
pub fn try_reserve_switch<'a, 'p, D: Disk>(
    seated: &mut SeatedPass<'p, D>,
    body: &'a Body<'a>,
) -> Result<SwitchTry<'a>, ReserveErr>
    requires switch { body.now ≡ assembled switch_record }
    // The pass holds all insertion locks, copies nothing, and has not locked the position.
    requires holds { (view_of seated.old).working
        ≡ record { locks = every_lock; flight = Landed } }
    requires place { (view_of seated.old).reserving.place ≡ Free }
    // The switch stands behind all that the pass had seen and is in flight under the locks, or the
    // log stands at a segment's start.
    ensures answers { IfOk result (λ t. AnswersSwitchTry (setup_of seated.old) body.now
        (view_of seated.old) (view_of seated.new) t) }
    // Nothing was reserved, and the pass has the position locked no longer.
    ensures why { IfErr result (λ e. TellsWhy (setup_of seated.old) body.now (view_of seated.old)
        (view_of seated.new) e) }
    ensures no_room { IfErr result (λ e. LeavesNoSwitch e) }
    ensures stays { StaysSeated seated.old seated.new }
{
    let geometry = seated.shape().geometry();
    let locked = match lock_seen(seated, geometry) {
        Ok(locked) => locked,
        Err(seen) => return Err(ReserveErr::Busy { seen }),
    };
    let at = locked.at;
    let end = geometry.to_end_lsn(at);
    if end.0 % geometry.segment_size() == 0 {
        stay_there(seated, at);
        return Ok(SwitchTry::Stayed { end });
    }
    let room = room_at(geometry, at, body);
    match reserve_locked(seated, geometry, body, locked, room) {
        Ok(reserved) => Ok(SwitchTry::Switched(reserved)),
        Err(free) => Err(ReserveErr::Full { free }),
    }
}
