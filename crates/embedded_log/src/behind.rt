// A session flushes behind commits that were answered ahead of the disk. What is flushed is told
// once the host has made it, as by a flush.
ghost use Rattle.std.specs.Prelude.{IfErr, IfOk};
ghost use Rattle.wal_rule.specs.Passes.{view_of_pass};
ghost use Rattle.wal_log.specs.Behind.{TellsCaught};
ghost use Rattle.wal_log.specs.Logs.{IsPassOfLog};
ghost use Rattle.wal_log.specs.PassLogs.{log_of_pass};
ghost use Rattle.wal_log.specs.Standing.{KeepsPass};
ghost use Rattle.wal_log_laws.specs.Growing.{GrowsTo};
ghost use Rattle.embedded_log.specs.Sessions.{GoesOnOpen, IsOpenSession, view_of_session};
ghost use Rattle.embedded_log.specs.Promised.{RefusesWriteBehind, SaysHeldBack, TellsMade, refusal_of_stop};

use crate::flushing::FlushRefusal;
use crate::session::LogSession;
use crate::shared::{FlushBusy, FlushStop, SharedLog};
use std::sync::atomic::{Ordering, Rule};
use wal_log::{Caught, Pass};

impl<H: Rule> LogSession<H> {
    /// Flushes what is answered and not durable, whole pages first, by one try (`Wal::write_behind`
    /// says up to where). `Idle` tells how far the log has flushed: whether the host has made that,
    /// a flush of that address tells. So it does where this one is `Behind`.
    pub fn write_behind(&mut self) -> Result<Caught, FlushRefusal>
        requires { IsOpenSession self.old }
        // What was found to be flushed the log has promised, and the host has said to have made
        // that many calls. Or nothing was to be flushed.
        ensures told { IfOk result (λ caught. TellsMade H.invariant caught
            (view_of_session self.old) (view_of_session self.new)) }
        // What is Behind the log has promised.
        ensures behind { IfErr result (λ e. SaysHeldBack e (view_of_session self.new)) }
        // Another refusal is told as a try of the log's own is.
        ensures refused { IfErr result (λ e. RefusesWriteBehind (view_of_session self.old)
            (view_of_session self.new) e) }
        ensures goes_on { GoesOnOpen self.old self.new }
    {
        match self.log.try_write_behind(&mut self.pass) {
            Ok(Caught::Flushed(hard)) => {
                self.pending = Some(hard);
                match self.tell(hard.upto, hard) {
                    Ok(told) => Ok(Caught::Flushed(told)),
                    Err(e) => Err(e),
                }
            }
            Ok(Caught::Idle { upto }) => Ok(Caught::Idle { upto }),
            Err(stop) => Err(FlushRefusal::from(stop)),
        }
    }
}

impl<H: Rule> SharedLog<H> {
    // One try of a flush behind, if nobody else is at a flush and the queue has room for it.
    fn try_write_behind(&self, pass: &mut Pass) -> Result<Caught, FlushStop>
        requires { IsPassOfLog self.now.wal pass.old }
        ensures catches { IfOk result (λ caught.
            TellsCaught caught (view_of_pass pass.old) (view_of_pass pass.new)) }
        ensures refused { IfErr result (λ stop. RefusesWriteBehind (view_of_pass pass.old)
            (view_of_pass pass.new) (refusal_of_stop stop)) }
        ensures grows { GrowsTo (log_of_pass (view_of_pass pass.old))
            (log_of_pass (view_of_pass pass.new)) }
        ensures keeps { KeepsPass (view_of_pass pass.old) (view_of_pass pass.new) }
        ensures pass { IsPassOfLog self.now.wal pass.new }
    {
        let began = self
            .flushing
            .compare_exchange(false, true, Ordering::SeqCst, Ordering::SeqCst);
        if began.is_err() {
            return Err(FlushStop::Busy(FlushBusy::Flushing));
        }
        let answer = self.write_behind_alone(pass);
        self.flushing.store(false, Ordering::SeqCst);
        answer
    }

    // One try of it, while nobody else is at a flush.
    fn write_behind_alone(&self, pass: &mut Pass) -> Result<Caught, FlushStop>
        requires { IsPassOfLog self.now.wal pass.old }
        ensures catches { IfOk result (λ caught.
            TellsCaught caught (view_of_pass pass.old) (view_of_pass pass.new)) }
        ensures refused { IfErr result (λ stop. RefusesWriteBehind (view_of_pass pass.old)
            (view_of_pass pass.new) (refusal_of_stop stop)) }
        ensures grows { GrowsTo (log_of_pass (view_of_pass pass.old))
            (log_of_pass (view_of_pass pass.new)) }
        ensures keeps { KeepsPass (view_of_pass pass.old) (view_of_pass pass.new) }
        ensures pass { IsPassOfLog self.now.wal pass.new }
    {
        if self.lacks_room() {
            return Err(FlushStop::Busy(FlushBusy::Queue));
        }
        match self.wal.try_write_behind(pass) {
            Ok(caught) => Ok(caught),
            Err(e) => Err(FlushStop::from(e)),
        }
    }
}
