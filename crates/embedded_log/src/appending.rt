// A record is appended. Its place is reserved, its words are copied as far as it goes, and its lock
// is given back. Where the page of the next word could not be mapped the record stays in flight,
// and its caller goes on with it: other sessions append and flush meanwhile. If what is in the way
// is a page that is not written yet, the helper flushes it: so a session needs no other one to get
// on, and a record may be longer than the ring.
ghost use Rattle.std.specs.Prelude.{◌≡◌, false};
ghost use Rattle.wal_spelling.specs.Spelling.{Assembled, is_assembled_switch};
ghost use Rattle.wal_rule.specs.Passes.{view_of_pass};
ghost use Rattle.wal_log.specs.Logs.{IsPassOfLog};
ghost use Rattle.wal_log.specs.Standing.{KeepsPass};
ghost use Rattle.embedded_log.specs.Appended.{AnswersAppend, IsGoing, IsOpenAppending};
ghost use Rattle.embedded_log.specs.Sessions.{IsOpenSession};
ghost use Rattle.embedded_log.specs.declared.session.LogSession.{LogSession};

use crate::session::LogSession;
use crate::shared::SharedLog;
use byte_position::PAGE_SIZE;
use std::alloc::Global;
use std::sync::Arc;
use std::sync::atomic::Rule;
use wal_log::{CopyStop, Hard, Inflight, Pass, Receipt, TryErr};
use wal_spelling::Body;
use wal_types::Lsn;

/// A record whose place is reserved, with the session that copies it. Who has it goes on with it
/// (`go_on`) until the session comes back: it cannot be dropped.
pub struct Appending<'a, H: Rule> {
    pub(crate) log: Arc<SharedLog<H>, Global>,
    pub(crate) flight: Inflight<'a>,
    pub(crate) helper: Pass,
    pub(crate) pending: Option<Hard>,
    pub(crate) appended: Option<Lsn>,
}

/// What an append comes to.
pub enum Append<'a, H: Rule> {
    /// The record stands in the log from its start to its end.
    Reserved {
        receipt: Receipt,
        session: LogSession<H>,
    },
    /// Its place is reserved, and words are left to copy.
    Going(Appending<'a, H>),
    /// Nothing was reserved: somebody was in the way, the log is full, or the disk has failed.
    Refused {
        why: TryErr,
        session: LogSession<H>,
    },
    /// The disk has failed before all was copied. The record may be found all the same.
    Down {
        session: LogSession<H>,
    },
}

impl<H: Rule> LogSession<H> {
    /// Appends a record behind all that is reserved, by one try, and copies it as far as it goes.
    pub fn append<'a>(self, body: &'a Body<'a>) -> Append<'a, H>
        requires kept { IsOpenSession self }
        // A segment switch is no record to append.
        requires inserted { is_assembled_switch body.now ≡ false }
        ensures { AnswersAppend body.now self result }
    {
        let LogSession {
            log,
            pass,
            helper,
            pending,
            appended,
        } = self;
        match log.wal.try_begin(pass, body) {
            Ok(flight) => {
                let begun = Appending {
                    log,
                    flight,
                    helper,
                    pending,
                    appended,
                };
                begun.go_on()
            }
            Err((why, pass)) => Append::Refused {
                why,
                session: LogSession {
                    log,
                    pass,
                    helper,
                    pending,
                    appended,
                },
            },
        }
    }
}

impl<'a, H: Rule> Appending<'a, H> {
    /// Copies what can be copied, and if that is all of it, ends the append.
    pub fn go_on(self) -> Append<'a, H>
        requires { IsOpenAppending self }
        // Whatever record it is that was begun, and from whatever session: that is answered.
        ensures { (body : Assembled) (old : LogSession H) → IsGoing body old self.entry
            → AnswersAppend body old result }
    {
        let Appending {
            log,
            mut flight,
            helper,
            pending,
            appended,
        } = self;
        let copied = flight.copy(&log.wal, u32::MAX);
        match flight.finish(&log.wal) {
            Ok((receipt, pass)) => Append::Reserved {
                receipt,
                session: LogSession {
                    log,
                    pass,
                    helper,
                    pending,
                    appended: Some(receipt.end),
                },
            },
            Err(flight) => {
                let going = Appending {
                    log,
                    flight,
                    helper,
                    pending,
                    appended,
                };
                going.stopped(copied.stop)
            }
        }
    }

    // Behind a failed disk gives the copy up, else makes way for it.
    fn stopped(self, stop: CopyStop) -> Append<'a, H>
        requires { IsOpenAppending self }
        ensures { (body : Assembled) (old : LogSession H) → IsGoing body old self.entry
            → AnswersAppend body old result }
    {
        let Appending {
            log,
            flight,
            mut helper,
            pending,
            appended,
        } = self;
        match flight.give_up(&log.wal) {
            Ok(pass) => Append::Down {
                session: LogSession {
                    log,
                    pass,
                    helper,
                    pending,
                    appended,
                },
            },
            Err(flight) => {
                log.make_way(&mut helper, stop);
                Append::Going(Appending {
                    log,
                    flight,
                    helper,
                    pending,
                    appended,
                })
            }
        }
    }
}

impl<H: Rule> SharedLog<H> {
    // Tries to flush the page that has to be replaced, where a copy stopped at one.
    fn make_way(&self, helper: &mut Pass, stop: CopyStop)
        requires { IsPassOfLog self.now.wal helper.old }
        ensures pass { IsPassOfLog self.now.wal helper.new }
        ensures keeps { KeepsPass (view_of_pass helper.old) (view_of_pass helper.new) }
    {
        let written = match stop {
            CopyStop::Absent {
                turn: 0,
                written,
                ..
            } => written,
            _ => 0,
        };
        let upto = Lsn(
            (written / PAGE_SIZE)
                .saturating_add(1)
                .saturating_mul(PAGE_SIZE),
        );
        let _flushed = self.try_flush(helper, upto);
    }
}
