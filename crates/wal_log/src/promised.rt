// How far the log is durable is told, without a flush (PostgreSQL's xlog.c, GetFlushRecPtr). The
// flushed address is loaded, and then the moment: the moment of an address is stored before it, and
// only later ones behind it, so no moment is told that is too early. No other word is loaded: also
// where the disk has failed, what was durable before is so still.
ghost use Rattle.wal_rule.specs.Passes.{view_of_pass};
ghost use Rattle.wal_rule.specs.SeatedPasses.{StandsAtRest, view_of};
ghost use Rattle.wal_log.specs.Flushing.{TellsHard};
ghost use Rattle.wal_log.specs.Logs.{IsPassOfLog, LeavesPass};
ghost use Rattle.wal_log.specs.Standing.{ComesToRest};

use crate::wal::Wal;
use segment_disk::Disk;
use wal_rule::{Pass, SeatedPass};
use wal_types::{Hard, Lsn};

impl<D: Disk> Wal<D> {
    /// How far the log is durable, and since which moment. It makes no device call and does not
    /// wait.
    pub fn hard(&self, pass: &mut Pass) -> Hard
        requires pass { IsPassOfLog self.now pass.old }
        // The flushed address that was loaded, and the moment that was loaded behind it. The two
        // join the pass's log, and are no less than those that it was promised before.
        ensures told { TellsHard result.upto.0 result.moment (view_of_pass pass.old)
            (view_of_pass pass.new) }
        // Of a failed disk it tells nothing.
        ensures leaves { LeavesPass self.now (λ faults. Unit {0}) pass.old pass.new }
    {
        let mut seated = pass.seat(&self.table);
        let hard = hard_on(&mut seated);
        pass.put_back(seated);
        hard
    }
}

// Loads the flushed address, and then the moment. It leaves of the pass what `Wal::hard` says.
fn hard_on<'p, D: Disk>(seated: &mut SeatedPass<'p, D>) -> Hard
    requires rests { StandsAtRest seated.old }
    ensures told { TellsHard result.upto.0 result.moment (view_of seated.old)
        (view_of seated.new) }
    ensures rests { ComesToRest seated.old seated.new }
{
    let flushed = seated.load_flushed();
    let moment = seated.load_moment();
    Hard {
        upto: Lsn(flushed),
        moment,
    }
}
