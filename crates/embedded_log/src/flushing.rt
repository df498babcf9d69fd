// A flush of a session. What the log tells to be durable from a moment of its disk on is so on the
// host's disk once the host has made that many calls. So it is held back until the host has
// acknowledged them, and asked for again it is told without another flush.
ghost use Rattle.std.specs.Prelude.{◌≡◌, ◌≤◌, IfErr, IfOk, IfSome};
ghost use Rattle.wal_log.specs.PassLogs.{log_of_pass};
ghost use Rattle.embedded_log.specs.Sessions.{GoesOnOpen, IsOpenSession, view_of_session};
ghost use Rattle.embedded_log.specs.Promised.{HasMade, IsPromisedHard, IsToldMade, RefusesFlush, SaysBehind, SaysHeldBack, TellsPromised, refusal_of_stop};

use crate::session::LogSession;
use crate::shared::{FlushBusy, FlushStop};
use std::sync::atomic::Rule;
use wal_log::Hard;
use wal_types::Lsn;

/// Why a flush told nothing.
#[derive(Clone, Copy, Debug, PartialEq, Eq)]
pub enum FlushRefusal {
    /// Something was in its way: it may be tried again.
    Busy(FlushBusy),
    /// The log has queued what makes all below `upto` durable: it is so once the host has made the
    /// calls up to this moment, and the host has acknowledged so many.
    Behind { upto: Lsn, moment: u64, made: u64 },
    /// The address is above the end of what is reserved, which is this one.
    Unreserved { end: Lsn },
    /// The disk has failed: its count of faults then.
    Down { faults: u64 },
}

impl From<FlushStop> for FlushRefusal {
    ghost from_gives = { λ stop e. e ≡ refusal_of_stop stop };

    fn from(stop: FlushStop) -> FlushRefusal {
        match stop {
            FlushStop::Busy(busy) => FlushRefusal::Busy(busy),
            FlushStop::Unreserved { end } => FlushRefusal::Unreserved { end },
            FlushStop::Down { faults } => FlushRefusal::Down { faults },
        }
    }
}

impl<H: Rule> LogSession<H> {
    /// Makes all below an address durable, by one try, and answers how far it is, and since which
    /// moment of the disk.
    pub fn flush(&mut self, upto: Lsn) -> Result<Hard, FlushRefusal>
        requires { IsOpenSession self.old }
        // What is told the log has promised, and the host has said to have made that many calls.
        ensures told { IfOk result (λ hard. IsToldMade H.invariant upto.0 hard
            (view_of_session self.new)) }
        // What is Behind the log has promised.
        ensures behind { IfErr result (λ e. SaysHeldBack e (view_of_session self.new)) }
        // Another refusal is told as a try of the log's own is.
        ensures refused { IfErr result (λ e. RefusesFlush upto.0 (view_of_session self.old)
            (view_of_session self.new) e) }
        ensures goes_on { GoesOnOpen self.old self.new }
    {
        match self.promise_upto(upto) {
            Ok(hard) => self.tell(upto, hard),
            Err(stop) => Err(FlushRefusal::from(stop)),
        }
    }

    // What the log promises of an address, as it is held back or by a flush.
    fn promise_upto(&mut self, upto: Lsn) -> Result<Hard, FlushStop>
        requires { IsOpenSession self.old }
        ensures told { TellsPromised upto.0 result (view_of_session self.old)
            (view_of_session self.new) }
        ensures goes_on { GoesOnOpen self.old self.new }
    {
        if let Some(hard) = self.held_back(upto) {
            return Ok(hard);
        }
        let answer = self.log.try_flush(&mut self.pass, upto);
        if let Ok(hard) = answer {
            self.pending = Some(hard);
        }
        answer
    }

    // What is held back, where it reaches the address.
    fn held_back(&self, upto: Lsn) -> Option<Hard>
        requires { IsOpenSession self.now }
        ensures reached { IfSome result (λ hard. upto.0 ≤ hard.upto.0) }
        ensures promised { IfSome result (λ hard. IsPromisedHard hard
            (log_of_pass (view_of_session self.now))) }
    {
        match self.pending {
            Some(hard) => {
                if upto.0 <= hard.upto.0 {
                    Some(hard)
                } else {
                    None
                }
            }
            None => None,
        }
    }

    // Tells what was promised, once the host has made the calls up to its moment.
    pub(crate) fn tell(&self, asked: Lsn, hard: Hard) -> Result<Hard, FlushRefusal>
        requires reached { asked.0 ≤ hard.upto.0 }
        requires promised { IsPromisedHard hard (log_of_pass (view_of_session self.now)) }
        ensures told { IfOk result (λ told. IsToldMade H.invariant asked.0 told
            (view_of_session self.now)) }
        ensures behind { IfErr result (λ e. SaysHeldBack e (view_of_session self.now)) }
        ensures held { IfErr result (λ e. SaysBehind e) }
    {
        let made = self.log.host.made();
        let Hard { upto, moment } = hard;
        if made < moment {
            return Err(FlushRefusal::Behind { upto, moment, made });
        }
        Ok(hard)
    }
}
