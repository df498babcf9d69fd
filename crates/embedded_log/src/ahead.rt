// A commit is answered before it is durable: an append, and then the async address is raised to
// the record's end. Who flushes behind (`write_behind`) reaches it. What is answered so may be lost
// in a crash, until a flush by anybody has passed its end.
ghost use Rattle.std.specs.Prelude.{IfSome};
ghost use Rattle.wal_log.specs.Behind.{AnswersRaise};
ghost use Rattle.embedded_log.specs.Sessions.{GoesOnOpen, IsOpenSession, view_of_session};

use crate::session::LogSession;
use std::sync::atomic::Rule;
use wal_types::Lsn;

impl<H: Rule> LogSession<H> {
    /// Counts what the session has appended as answered: it raises the async address to the end of
    /// its last record, by one try. At Err somebody else has raised it in between, to this lower
    /// address: it may be tried again.
    pub fn raise_async(&mut self) -> Result<(), Lsn>
        requires { IsOpenSession self.old }
        // The session has met or stored an async address that is no less than its record's end. Or
        // it met the one told.
        ensures raises { IfSome self.old.appended (λ end. AnswersRaise end.0
            (view_of_session self.old) result (view_of_session self.new)) }
        ensures goes_on { GoesOnOpen self.old self.new }
    {
        match self.appended {
            Some(end) => self.log.wal.try_raise_async(&mut self.pass, end),
            None => Ok(()),
        }
    }
}
