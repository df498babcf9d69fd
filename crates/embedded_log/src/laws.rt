//! What a program that links the log may count on, proved by functions that do nothing.

ghost use denote.Param.Send.{IsSend, IsSync};
ghost use Rattle.hosted_disk.specs.Hosted.{hosted_faults, hosted_moment, hosted_tape};
ghost use Rattle.machine_state.specs.declared.setup.Setup.{Setup};
ghost use Rattle.wal_log.specs.declared.reopening.Found.{Found};
ghost use Rattle.wal_log_laws.specs.Lives.{PromisedRecordsStay};
ghost use Rattle.embedded_log.specs.contracts.session.LogSession as session;
ghost use Rattle.embedded_log.specs.Opened.{OpensSession};
ghost use Rattle.embedded_log.specs.Reopened.{ReopensSession};
ghost use Rattle.embedded_log.specs.Sessions.{GoesOnOpen, IsSole};
ghost use Rattle.embedded_log.specs.Surviving.{ToldRecordsSurvive};
ghost use Rattle.embedded_log.specs.Living.{OpenedSessionsLiveOn, ReopenedSessionsLiveOn, TwoLivesKeepTold};
ghost use Rattle.embedded_log.specs.declared.session.LogSession.{LogSession};

use hosted_disk::{HostProgress, HostedDisk};
use std::sync::atomic::Rule;
use wal_log::numbers::calls_keep_numbers;
use wal_log::shared_numbers::passes_share_numbers;
use wal_log::{Pass, Wal};
use wal_log_laws::laws::{closed_logs_are_closed_on_their_disk, sealed_records_survive};
use wal_log_laws::promised_records_stay;
use wal_rule::numbers::seats_keep_numbers;

/// A record that a session appended, and below whose end all was promised to be durable from a
/// moment on, is found in whatever a crash leaves of the disk's tape at that moment or a later one.
/// The log was opened anew and closed, and no torn record passes its CRC in what is left. A flush
/// tells such a promise once the host has said that it made as many calls.
pub fn told_records_survive<H: Rule>()
    ensures { ToldRecordsSurvive H }
{
    closed_logs_are_closed_on_their_disk::<HostedDisk>();
    sealed_records_survive::<HostedDisk>();
}

/// And over all lives of the log, opened anew or gone on with: each life of its sessions is one of
/// its `Wal`, in which all that they were told to be durable was promised. What was promised in any
/// life is found in each later one, and in whatever a crash leaves of it.
pub fn sessions_live_on<H: Rule>()
    ensures opened { OpenedSessionsLiveOn H }
    ensures reopened { ReopenedSessionsLiveOn H }
    ensures stay { PromisedRecordsStay hosted_tape hosted_moment hosted_faults }
{
    promised_records_stay::<HostedDisk>();
}

/// A caller of the law: a log that was opened anew and gone on with has all that was told in both
/// lives.
pub fn two_lives_keep_told<H: Rule>()
    ensures { TwoLivesKeepTold H }
{
    sessions_live_on::<H>();
}

/// The first session is the only one until it splits another one off, since no call takes a number
/// from its passes: so it may close the log.
pub fn first_sessions_are_sole<H: Rule>()
    ensures opened { (setup : Setup) (session : LogSession H) → OpensSession setup session
        → IsSole session }
    ensures reopened { (setup : Setup) (session : LogSession H) (found : Found)
        → ReopensSession setup session found → IsSole session }
    ensures kept { (old new : LogSession H) → GoesOnOpen old new → IsSole old → IsSole new }
{
    seats_keep_numbers();
    calls_keep_numbers();
    passes_share_numbers();
}

fn may_cross<T: Send>()
    ensures { IsSend T.row }
{}

fn may_be_shared<T: Sync>()
    ensures { IsSync T.row }
{}

/// A session may be handed to another thread.
pub fn sessions_may_cross<H: Rule>()
    ensures { IsSend (session.the_row H.row record { invariant = H.invariant }) }
{
    may_cross::<Pass>();
    may_cross::<Wal<HostedDisk>>();
    may_be_shared::<Wal<HostedDisk>>();
    may_cross::<HostProgress<H>>();
    may_be_shared::<HostProgress<H>>();
}
