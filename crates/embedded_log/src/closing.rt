// A log is closed by the session that has taken in all others. The calls that are queued stay the
// host's to take. What no flush has made durable is left as it is: who wants it flushes before.
ghost use Rattle.std.specs.Prelude.{◌≡◌, MatchResult};
ghost use Rattle.embedded_log.specs.Opened.{ClosesSession};
ghost use Rattle.embedded_log.specs.Sessions.{IsOpenSession, IsSole};

use crate::session::LogSession;
use hosted_disk::HostedDisk;
use std::sync::Arc;
use std::sync::atomic::Rule;
use wal_log::Closed;
use wal_log::shared_numbers::passes_share_numbers;

impl<H: Rule> LogSession<H> {
    /// Ends the log. The session comes back where another one is left.
    pub fn close(self) -> Result<Closed<HostedDisk>, LogSession<H>>
        requires kept { IsOpenSession self }
        // Each session that was split off was taken in.
        requires sole { IsSole self }
        ensures { MatchResult result (λ closed. ClosesSession self closed) (λ back. back ≡ self) }
    {
        passes_share_numbers();
        let LogSession {
            log,
            mut pass,
            helper,
            pending,
            appended,
        } = self;
        match Arc::try_unwrap(log) {
            Ok(shared) => {
                shared.wal.join(&mut pass, helper);
                Ok(shared.wal.close(pass))
            }
            Err(log) => Err(LogSession {
                log,
                pass,
                helper,
                pending,
                appended,
            }),
        }
    }
}
