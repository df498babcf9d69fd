// The position is locked where it is the one that was loaded. An odd word tells that somebody has
// it locked, so only an even one is tried, by one exchange that sets its lowest bit. An exchange
// that meets another word changes nothing. In both cases the word that was in the way is told:
// PostgreSQL spins here (insertpos_lck), this call does not wait.
// With the bit set the position is this pass's to store, and so is the last start (places.rt). The
// address there is made before: nothing but steps is done while the position is locked.
ghost use Rattle.std.specs.Prelude.{◌≡◌, ◌<◌, ◌^◌, IfErr, IfOk};
ghost use Rattle.byte_position.specs.Geometry.{IsSegmentSize};
ghost use Rattle.byte_position.specs.Position.{address_of, end_address_of};
ghost use Rattle.machine_state.specs.Views.{Free};
ghost use Rattle.wal_rule.specs.SeatedPasses.{StaysSeated, setup_of, view_of};
ghost use Rattle.reserve_lock.specs.Reserved.{IsPositionBusy, IsPositionLocked};

use crate::starting::start_at;
use byte_position::Geometry;
use segment_disk::Disk;
use wal_rule::SeatedPass;
use wal_types::Lsn;

// A position that was locked, where the byte before it ends, and the address of the byte there.
#[derive(Clone, Copy)]
pub(crate) struct LockedAt {
    pub(crate) at: u64,
    pub(crate) behind: Lsn,
    pub(crate) start: Lsn,
}

// The position that was locked; an error tells what was found in its place.
#[inline(always)]
pub(crate) fn lock_seen<'p, D: Disk>(
    seated: &mut SeatedPass<'p, D>,
    geometry: Geometry,
) -> Result<LockedAt, u64>
    requires place { (view_of seated.old).reserving.place ≡ Free }
    // It is locked at a multiple of 8 behind all that the pass had seen, and within the log.
    ensures locked { IfOk result (λ l. IsPositionLocked (setup_of seated.old) l.at
        (view_of seated.old) (view_of seated.new)) }
    ensures behind { IfOk result (λ l. l.behind.0 ≡ end_address_of geometry l.at) }
    ensures start { IfOk result (λ l. l.start.0 ≡ address_of geometry l.at) }
    ensures low { IfOk result (λ l. l.at < 2 ^ 60) }
    ensures valid { IfOk result (λ _. IsSegmentSize geometry) }
    // It is not locked by this pass, which has seen reserved what it loaded, and knows no more.
    ensures busy { IfErr result (λ seen. IsPositionBusy seen (view_of seated.old)
        (view_of seated.new)) }
    ensures stays { StaysSeated seated.old seated.new }
{
    let loaded = seated.load_position();
    if loaded % 2 == 1 {
        return Err(loaded);
    }
    let behind = geometry.to_end_lsn(loaded);
    let start = start_at(geometry, loaded, behind);
    let met = seated.lock_position(loaded);
    if met == loaded {
        Ok(LockedAt {
            at: loaded,
            behind,
            start,
        })
    } else {
        Err(met)
    }
}
