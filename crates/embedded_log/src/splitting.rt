// Sessions are split off, each for a thread of its own, and taken in again.
ghost use Rattle.std.specs.Prelude.{◌≡◌, MatchOption};
ghost use Rattle.embedded_log.specs.Sessions.{IsOpenSession, JoinsIn, SplitsOff, wal_of_session};

use crate::session::LogSession;
use std::sync::Arc;
use std::sync::atomic::Rule;

impl<H: Rule> LogSession<H> {
    /// A session for another thread, if two passes are left to give away.
    pub fn split(&mut self) -> Option<LogSession<H>>
        requires { IsOpenSession self.old }
        ensures { MatchOption result (self.new ≡ self.old)
            (λ other. SplitsOff self.old self.new other) }
    {
        if self.pass.spare() < 2 {
            return None;
        }
        let log = Arc::try_clone(&self.log).ok()?;
        let pass = self.log.wal.split(&mut self.pass);
        let helper = self.log.wal.split(&mut self.pass);
        Some(LogSession {
            log,
            pass,
            helper,
            pending: None,
            appended: None,
        })
    }

    /// Takes another session of the log in, which makes no calls any more.
    pub fn join(&mut self, other: LogSession<H>)
        requires kept { IsOpenSession self.old }
        requires other { IsOpenSession other }
        requires log { wal_of_session other ≡ wal_of_session self.old }
        ensures { JoinsIn self.old other self.new }
    {
        let LogSession {
            log: _,
            pass,
            helper,
            pending: _,
            appended: _,
        } = other;
        self.log.wal.join(&mut self.pass, pass);
        self.log.wal.join(&mut self.pass, helper);
    }
}
