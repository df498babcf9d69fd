// The log is flushed behind commits that were answered already (PostgreSQL's xlog.c,
// XLogBackgroundFlush, as its WAL writer calls it). The down value is loaded, then the flushed
// address, the async address (the last word), and the position behind that: so what is answered is
// seen reserved. Whole pages come first: where the page that holds the reserved end starts above
// the flushed address, the log is flushed up to that start, else up to the async address, also in
// the midst of a page. Where neither is above, nothing is to be done, and no device call is made.
// No clock drives it: who calls it says how soon a commit becomes durable.
ghost use Rattle.std.specs.Prelude.{◌≡◌, IsErrOf, MatchResult};
ghost use Rattle.wal_rule.specs.Downs.{KnowsDown};
ghost use Rattle.wal_rule.specs.Passes.{view_of_pass};
ghost use Rattle.wal_rule.specs.SeatedPasses.{StandsAtRest, StaysSeated, view_of};
ghost use Rattle.wal_log.specs.Behind.{AnswersBehind, AnswersBehindTry, HasAim, SeesTarget, behind_known_down, behind_try_known_down};
ghost use Rattle.wal_log.specs.Downs.{MeetsDown};
ghost use Rattle.wal_log.specs.Logs.{IsPassOfLog, LeavesPass};
ghost use Rattle.wal_log.specs.PassLogs.{log_of_pass};
ghost use Rattle.wal_log.specs.Standing.{ComesToRest};

use crate::flushing::{FlushErr, TryFlushErr, flush_on, try_flush};
use crate::wal::Wal;
use byte_position::PAGE_SIZE;
use insert_locks::see_reserved;
use segment_disk::Disk;
use std::sync::Wait;
use wal_rule::{Pass, SeatedPass};
use wal_types::{Hard, Lsn};

/// What a call that flushes behind has done.
#[derive(Clone, Copy, Debug, PartialEq, Eq)]
pub enum Caught {
    /// It has flushed, or found that somebody had.
    Flushed(Hard),
    /// There was nothing to flush: all answered commits, and all whole pages, lie below this
    /// flushed address.
    Idle { upto: Lsn },
}

/// What there is to flush behind.
#[derive(Clone, Copy, Debug, PartialEq, Eq)]
pub enum Aim {
    /// Nothing: all answered commits, and all whole pages, lie below this flushed address.
    Idle { upto: Lsn },
    /// All below this address, which is reserved, and above the flushed one.
    Upto { target: Lsn },
}

impl<D: Disk> Wal<D> {
    /// Flushes what is answered and not durable, whole pages first: up to the start of the page
    /// that holds the reserved end where that is not flushed, else up to the last commit that was
    /// answered ahead. It waits as a flush does.
    pub fn write_behind<R: Wait>(&self, rt: &R, pass: &mut Pass) -> Result<Caught, FlushErr>
        requires pass { IsPassOfLog self.now pass.old }
        // A flush is told, of the target: it reaches the start of the page that holds the end of
        // all that the pass had seen. Or the flushed address is told, which is no less than that
        // page's start and than the async address that the pass met. Or it is refused as a flush
        // of the target, which is reserved, and adds nothing.
        ensures catches { AnswersBehind (view_of_pass pass.old) result (view_of_pass pass.new) }
        // However it ends, the pass is about nothing, with its numbers and all that it had seen.
        // A pass that knows of a failed disk is told of it.
        ensures leaves { LeavesPass self.now (λ faults. result ≡ behind_known_down faults)
            pass.old pass.new }
    {
        let mut seated = pass.seat(&self.table);
        let answer = write_behind_on(rt, &mut seated);
        pass.put_back(seated);
        answer
    }

    /// As `write_behind`, but with one try of the flush, which does not wait: it tells which
    /// insertion lock or turn is in its way, and the caller may try again.
    pub fn try_write_behind(&self, pass: &mut Pass) -> Result<Caught, TryFlushErr>
        requires pass { IsPassOfLog self.now pass.old }
        // As `write_behind` tells it. Or it tells why not, as a try of a flush of the target, which
        // is reserved, and adds nothing.
        ensures catches { AnswersBehindTry (view_of_pass pass.old) result (view_of_pass pass.new) }
        // However it ends, the pass is about nothing, with its numbers and all that it had seen.
        // A pass that knows of a failed disk is told of it.
        ensures leaves { LeavesPass self.now (λ faults. result ≡ behind_try_known_down faults)
            pass.old pass.new }
    {
        let mut seated = pass.seat(&self.table);
        let answer = try_write_behind(&mut seated);
        pass.put_back(seated);
        answer
    }
}

// It leaves of the pass what `Wal::write_behind` says.
fn write_behind_on<'p, D: Disk, R: Wait>(
    rt: &R,
    seated: &mut SeatedPass<'p, D>,
) -> Result<Caught, FlushErr>
    requires rests { StandsAtRest seated.old }
    ensures catches { AnswersBehind (view_of seated.old) result (view_of seated.new) }
    ensures down_again { (faults : _) → KnowsDown faults (view_of seated.old)
        → result ≡ behind_known_down faults }
    ensures rests { ComesToRest seated.old seated.new }
{
    let target = match take_aim(seated) {
        Ok(Aim::Idle { upto }) => return Ok(Caught::Idle { upto }),
        Ok(Aim::Upto { target }) => target,
        Err(faults) => return Err(FlushErr::Down { faults }),
    };
    match flush_on(rt, seated, target) {
        Ok(hard) => Ok(Caught::Flushed(hard)),
        Err(e) => Err(e),
    }
}

// It leaves of the pass what `Wal::try_write_behind` says.
fn try_write_behind<'p, D: Disk>(seated: &mut SeatedPass<'p, D>) -> Result<Caught, TryFlushErr>
    requires rests { StandsAtRest seated.old }
    ensures catches { AnswersBehindTry (view_of seated.old) result (view_of seated.new) }
    ensures down_again { (faults : _) → KnowsDown faults (view_of seated.old)
        → result ≡ behind_try_known_down faults }
    ensures rests { ComesToRest seated.old seated.new }
{
    let target = match take_aim(seated) {
        Ok(Aim::Idle { upto }) => return Ok(Caught::Idle { upto }),
        Ok(Aim::Upto { target }) => target,
        Err(faults) => return Err(TryFlushErr::Down { faults }),
    };
    match try_flush(seated, target) {
        Ok(hard) => Ok(Caught::Flushed(hard)),
        Err(e) => Err(e),
    }
}

// Loads down, and where the disk is up finds what there is to flush. Else it tells the count of
// faults.
fn take_aim<'p, D: Disk>(seated: &mut SeatedPass<'p, D>) -> Result<Aim, u64>
    requires rests { StandsAtRest seated.old }
    ensures aims { MatchResult result (λ aim. HasAim aim (view_of seated.old) (view_of seated.new))
        (λ faults. MeetsDown faults (view_of seated.old) (view_of seated.new)) }
    ensures known { (faults : _) → KnowsDown faults (view_of seated.old)
        → IsErrOf result faults }
    ensures log { log_of_pass (view_of seated.new) ≡ log_of_pass (view_of seated.old) }
    ensures rests { ComesToRest seated.old seated.new }
{
    let faults = seated.load_down();
    if faults != 0 {
        return Err(faults);
    }
    let (flushed, target) = see_target(seated);
    if target <= flushed {
        let upto = Lsn(flushed);
        return Ok(Aim::Idle { upto });
    }
    Ok(Aim::Upto {
        target: Lsn(target),
    })
}

// Loads the flushed address and tells it, with the address up to which is to be flushed, which is
// reserved: the position is loaded behind the async address.
fn see_target<'p, D: Disk>(seated: &mut SeatedPass<'p, D>) -> (u64, u64)
    ensures sees { SeesTarget result.0 result.1 (view_of seated.old) (view_of seated.new) }
    ensures stays { StaysSeated seated.old seated.new }
{
    let flushed = seated.load_flushed();
    let async_met = seated.load_async();
    let end = see_reserved(seated);
    let page = end - end % PAGE_SIZE;
    if flushed < page {
        return (flushed, page);
    }
    (flushed, async_met)
}
