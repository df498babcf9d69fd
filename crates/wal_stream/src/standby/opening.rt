//! A standby is opened on what its disk has, as a log is that is gone on with.

ghost use Rattle.std.specs.Prelude.{◌≤◌, IfErr, IfOk, IfSome};
ghost use Rattle.found_log.specs.Found.{LeavesUnsettled, RefusesLog};
ghost use Rattle.wal_stream.specs.Opened.{HasOpenCause, StandsAtFound};

use super::Standby;
use byte_position::Geometry;
use found_log::{FindFault, find_and_settle};
use segment_disk::Disk;
use std::alloc::Global;

/// A standby that was not opened: its disk, and why.
#[derive(Drop)]
pub struct StandbyFault<D> {
    pub disk: D,
    pub fault: FindFault,
}

impl<D: Disk> Standby<D> {
    /// Opens a standby on what its disk has of a log, whoever wrote it: as a log that is gone on
    /// with is found, judged and settled, with the same refusals and the same device calls. An
    /// empty disk has a log that ends where it starts.
    pub fn open(
        alloc: Global,
        disk: D,
        geometry: Geometry,
        cap: u32,
    ) -> Result<Standby<D>, StandbyFault<D>>
        requires few { cap ≤ 4096 }
        ensures stands { IfOk result (StandsAtFound D.tape D.moment D.faults geometry cap disk) }
        ensures refused { IfErr result (λ e. IfSome (D.tape disk)
            (RefusesLog geometry cap e.fault)) }
        ensures unsettled { IfErr result (λ e. LeavesUnsettled geometry cap
            (D.tape disk) (D.tape e.disk) (D.moment disk) (D.moment e.disk) e.fault) }
        ensures cause { IfErr result (λ e.
            HasOpenCause (D.faults disk) (D.faults e.disk) e.fault) }
    {
        let mut disk = disk;
        match find_and_settle(alloc, &mut disk, geometry, cap) {
            Ok(log) => Ok(Standby::resume(disk, geometry, cap, log.end, log.made, log.page)),
            Err(fault) => Err(StandbyFault { disk, fault }),
        }
    }
}
