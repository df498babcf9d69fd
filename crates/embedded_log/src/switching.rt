// The segment is ended. A switch's place is reserved by one try, under all insertion locks, and it
// is copied as a record that is appended, zeros up to its segment's end. So it goes on as that
// does, and stops as often as the ring's pages have to be written: until it is whole nobody else
// appends.
ghost use Rattle.std.specs.Prelude.{◌≡◌};
ghost use Rattle.wal_spelling.specs.Record.{switch_record};
ghost use Rattle.wal_spelling.specs.Spelling.{assembled};
ghost use Rattle.embedded_log.specs.Sessions.{IsOpenSession};
ghost use Rattle.embedded_log.specs.Switched.{AnswersSegmentSwitch};

use crate::appending::{Append, Appending};
use crate::session::LogSession;
use std::sync::atomic::Rule;
use wal_log::{SwitchBegun, TrySwitchErr};
use wal_spelling::Body;
use wal_types::Lsn;

/// What a segment switch comes to.
pub enum SegmentSwitch<'a, H: Rule> {
    /// Its place is reserved: what it comes to is told as of a record that is appended.
    Begun(Append<'a, H>),
    /// Nothing was to be done: the log ends at this address, a segment's start.
    Stayed {
        end: Lsn,
        session: LogSession<H>,
    },
    /// Nothing was reserved: somebody was in the way, the log is full, or the disk has failed.
    Refused {
        why: TrySwitchErr,
        session: LogSession<H>,
    },
}

impl<H: Rule> LogSession<H> {
    /// Ends the segment, by one try: puts a switch behind all that is reserved, which takes up the
    /// rest of its segment, and copies it as far as it goes.
    pub fn switch<'a>(self, body: &'a Body<'a>) -> SegmentSwitch<'a, H>
        requires kept { IsOpenSession self }
        // The body is a segment switch's (`Body::switch`).
        requires switch { body.now ≡ assembled switch_record }
        ensures { AnswersSegmentSwitch body.now self result }
    {
        let LogSession {
            log,
            pass,
            helper,
            pending,
            appended,
        } = self;
        match log.wal.try_switch(pass, body) {
            Ok(SwitchBegun::Going(flight)) => {
                let begun = Appending {
                    log,
                    flight,
                    helper,
                    pending,
                    appended,
                };
                SegmentSwitch::Begun(begun.go_on())
            }
            Ok(SwitchBegun::Stayed { end, pass }) => SegmentSwitch::Stayed {
                end,
                session: LogSession {
                    log,
                    pass,
                    helper,
                    pending,
                    appended,
                },
            },
            Err((why, pass)) => SegmentSwitch::Refused {
                why,
                session: LogSession {
                    log,
                    pass,
                    helper,
                    pending,
                    appended,
                },
            },
        }
    }
}
