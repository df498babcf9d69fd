// A log is closed, and its disk comes back (PostgreSQL's xlog.c, ShutdownXLOG, which writes a
// checkpoint first). The pass holds nothing and has all numbers, so no other pass is left and no
// copy is under way, unless one was given up behind a failed disk. What no flush has made durable
// is left as it is: who wants it flushes before.
ghost use Rattle.machine_laws.specs.ClosedLogs.{HasAllNumbers};
ghost use Rattle.wal_rule.specs.Passes.{view_of_pass};
ghost use Rattle.wal_log.specs.Closing.{ClosesLog};
ghost use Rattle.wal_log.specs.Logs.{IsPassOfLog, setup_of_log};

use crate::wal::Wal;
use segment_disk::Disk;
use wal_rule::Pass;
use wal_types::Lsn;

/// What a log leaves: its disk, the end of the last record that was reserved, at segment 1's start
/// where there is none, and the disk's count of faults where it has failed.
#[derive(Drop)]
pub struct Closed<D> {
    pub disk: D,
    pub end: Lsn,
    pub down: Option<u64>,
}

impl<D: Disk> Wal<D> {
    /// Ends the log by the pass that took in every one which was split off. It makes no device
    /// call.
    pub fn close(self, pass: Pass) -> Closed<D>
        requires pass { IsPassOfLog self pass }
        // Each pass that was split off was taken in, so the log comes back whole.
        requires numbers { HasAllNumbers (setup_of_log self).passes
            (view_of_pass pass).reserving }
        ensures { ClosesLog D.tape D.moment D.faults self pass result }
    {
        let Wal { table } = self;
        let geometry = table.shape.geometry();
        let (writer, position) = pass.close(table);
        let down = writer.fault();
        Closed {
            disk: writer.into_disk(),
            end: geometry.to_end_lsn(position),
            down,
        }
    }
}
