// What all sessions share: the log, how far the host has come, and who calls the disk. A flush that
// may call the disk is made by one session at a time, and only where the host's queue has room for
// all that it may add: so no call of the disk fails for want of room.
ghost use Rattle.std.specs.Prelude.{◌≡◌, MatchResult, IfErr};
ghost use Rattle.wal_rule.specs.Passes.{view_of_pass};
ghost use Rattle.wal_log.specs.Logs.{IsPassOfLog};
ghost use Rattle.wal_log.specs.Standing.{KeepsPass};
ghost use Rattle.embedded_log.specs.Promised.{TriesToFlush, stop_of_try};

use hosted_disk::{HostProgress, HostedDisk};
use std::sync::atomic::{AtomicBool, Ordering, Rule};
use wal_log::{Hard, LockNo, Pass, TryFlushErr, Wal};
use wal_types::Lsn;

/// The log that sessions share.
#[derive(Drop)]
pub struct SharedLog<H: Rule> {
    pub(crate) wal: Wal<HostedDisk>,
    pub(crate) host: HostProgress<H>,
    // Whether a session is at a flush that may call the disk.
    pub(crate) flushing: AtomicBool,
    // How many calls one flush adds to the queue at most: the pages of the ring, the page at which
    // it began, and at a segment's end the sync of that segment and the next one's making, and the
    // sync at last.
    pub(crate) calls_of_flush: u64,
}

/// Why a flush was not made or told nothing: it may be tried again.
#[derive(Clone, Copy, Debug, PartialEq, Eq)]
pub enum FlushBusy {
    /// The host has not made enough of the calls that are queued.
    Queue,
    /// Another session is at a flush.
    Flushing,
    /// An insertion lock's holder has not copied so far: the lock's word.
    Lock { lock: LockNo, word: u64 },
    /// Somebody has the turn to write: the turn's word.
    Turn { word: u64 },
}

/// Why nothing was flushed.
#[derive(Clone, Copy, Debug, PartialEq, Eq)]
pub(crate) enum FlushStop {
    Busy(FlushBusy),
    Unreserved { end: Lsn },
    Down { faults: u64 },
}

impl From<TryFlushErr> for FlushStop {
    ghost from_gives = { λ e stop. stop ≡ stop_of_try e };

    fn from(e: TryFlushErr) -> FlushStop {
        match e {
            TryFlushErr::Disk { faults } => FlushStop::Down { faults },
            TryFlushErr::Down { faults } => FlushStop::Down { faults },
            TryFlushErr::Unreserved { end } => FlushStop::Unreserved { end },
            TryFlushErr::Behind { lock, word } => FlushStop::Busy(FlushBusy::Lock { lock, word }),
            TryFlushErr::Turn { word } => FlushStop::Busy(FlushBusy::Turn { word }),
        }
    }
}

impl<H: Rule> SharedLog<H> {
    // One try of a flush, if nobody else is at one and the queue has room for it.
    pub(crate) fn try_flush(&self, pass: &mut Pass, upto: Lsn) -> Result<Hard, FlushStop>
        requires { IsPassOfLog self.now.wal pass.old }
        ensures tries { TriesToFlush upto.0 (view_of_pass pass.old) result
            (view_of_pass pass.new) }
        ensures keeps { KeepsPass (view_of_pass pass.old) (view_of_pass pass.new) }
        ensures pass { IsPassOfLog self.now.wal pass.new }
    {
        let first = self.wal.hard(pass);
        if upto.0 <= first.upto.0 {
            return Ok(first);
        }
        let began = self
            .flushing
            .compare_exchange(false, true, Ordering::SeqCst, Ordering::SeqCst);
        if began.is_err() {
            return Err(FlushStop::Busy(FlushBusy::Flushing));
        }
        let answer = self.flush_alone(pass, upto);
        self.flushing.store(false, Ordering::SeqCst);
        answer
    }

    // Whether the queue has no room for what a flush may add. Behind a call that failed nothing is
    // taken any more: the next call of the disk tells it.
    pub(crate) fn lacks_room(&self) -> bool {
        !self.host.has_failed() && !self.host.has_room(self.calls_of_flush)
    }

    // One try of a flush, while nobody else is at one.
    fn flush_alone(&self, pass: &mut Pass, upto: Lsn) -> Result<Hard, FlushStop>
        requires { IsPassOfLog self.now.wal pass.old }
        ensures tries { TriesToFlush upto.0 (view_of_pass pass.old) result
            (view_of_pass pass.new) }
        ensures keeps { KeepsPass (view_of_pass pass.old) (view_of_pass pass.new) }
        ensures pass { IsPassOfLog self.now.wal pass.new }
    {
        if self.lacks_room() {
            return Err(FlushStop::Busy(FlushBusy::Queue));
        }
        match self.wal.try_flush(pass, upto) {
            Ok(hard) => Ok(hard),
            Err(e) => Err(FlushStop::from(e)),
        }
    }
}
