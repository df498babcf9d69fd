ghost use Rattle.reopened_log_laws.specs.Again.{
  CrashedCompletedSettlingsWereLeft,
  CrashedDisksWereLeft,
  CrashedLogsWereLeft,
  CrashedReopenedRunsWereLeft,
  CrashedReopenedSettlingsWereLeft,
  CrashedRunsWereLeft,
  CrashedStoppedSettlingsWereLeft,
};
ghost use Rattle.reopened_log_laws.specs.AnyLogs.{FoundLogsAreSuited};
ghost use Rattle.reopened_log_laws.specs.Empty.{EmptyDisksWereLeft};
ghost use Rattle.reopened_log_laws.specs.FoundFirst.{
  FoundEntriesAreOne,
  FoundEntriesComeFirst,
  FoundPlacesLieBehind,
  LeftLogsAreRead,
};
ghost use Rattle.reopened_log_laws.specs.Own.{LeftLogsAreNotForeign, LeftLogsAreOwn};
ghost use Rattle.reopened_log_laws.specs.Reopened.{ReopenedLogsAreSuited};
ghost use Rattle.reopened_log_laws.specs.Stopped.{
  ReopenedSettlingsWereLeft,
  StoppedLogsWereLeft,
  StoppedReopenedRunsWereLeft,
  StoppedRunsWereLeft,
  StoppedSettlingsWereLeft,
  CompletedSettlingsWereLeft,
};
ghost use Rattle.reopened_log_laws.specs.StopsAt.{TapesStopAtTheirEnds};
ghost use Rattle.reopened_log_laws.specs.Sure.{
  ReopenedSettlingsStaySure,
  RunsMakeSure,
  StoppedSettlingsStaySure,
  SureEntriesAreRead,
  UncalledDisksStaySure,
};
ghost use Rattle.reopened_log_laws.specs.Surviving.{
  ReopenedLogsSurviveCrashes,
  SettledLogsKeepWhatWasFound,
  StoppedSettlingsSurviveCrashes,
};

/// A law: nobody's entries whose records were found of a log are the log's first entries but for
/// their passes, and give it the same words. Of a disk that was left so there is one list of
/// records that is read, and one of such entries; and the log goes on behind them.
pub fn found_entries_come_first()
    ensures first { FoundEntriesComeFirst }
    ensures read { LeftLogsAreRead }
    ensures one { FoundEntriesAreOne }
    ensures place { FoundPlacesLieBehind }
{}

/// A law: where a disk that this program left was settled, and its log opened behind what was
/// found, the log may go on.
pub fn reopened_logs_are_suited()
    ensures { ReopenedLogsAreSuited }
{}

/// A law: what crashes leave of a log that goes on, from the moment on at which its disk was handed
/// in.
pub fn reopened_logs_survive_crashes()
    ensures { ReopenedLogsSurviveCrashes }
{}

/// A law: what crashes leave while the log is settled. It decodes to a front of what was found, and
/// to all of it from the end of the first syncs on, also where the disk failed in between.
pub fn settled_logs_survive_crashes()
    ensures stopped { StoppedSettlingsSurviveCrashes }
    ensures settled { SettledLogsKeepWhatWasFound }
{}

/// A law: what a crash leaves of a disk that this program left is again such a disk, with the same
/// order: of one on which no call was made, and while its log is settled.
pub fn crashed_settlings_were_left()
    ensures uncalled { CrashedDisksWereLeft }
    ensures stopped { CrashedStoppedSettlingsWereLeft }
    ensures completed { CrashedCompletedSettlingsWereLeft }
    ensures reopened { CrashedReopenedSettlingsWereLeft }
{}

/// A law: what a crash leaves while a log is written is a disk that this program left, with that
/// log's order.
pub fn crashed_logs_were_left()
    ensures written { CrashedLogsWereLeft }
    ensures run { CrashedRunsWereLeft }
    ensures reopened { CrashedReopenedRunsWereLeft }
{}

/// A law: where a process stops while a log is settled, with no crash of the disk behind it, be it
/// within a write, the disk is one that this program left, with the same records and order. So it
/// is where all calls were made (`now`).
pub fn stopped_settlings_were_left()
    ensures stopped { StoppedSettlingsWereLeft }
    ensures completed { CompletedSettlingsWereLeft }
    ensures reopened { ReopenedSettlingsWereLeft }
    ensures now { TapesStopAtTheirEnds }
{}

/// A law: so it is while a log is written, with that log's order and records of it.
pub fn stopped_logs_were_left()
    ensures written { StoppedLogsWereLeft }
    ensures run { StoppedRunsWereLeft }
    ensures reopened { StoppedReopenedRunsWereLeft }
{}

/// A law: a disk that holds nothing counts as left by this program, with the log of no entries.
pub fn empty_disks_were_left()
    ensures { EmptyDisksWereLeft }
{}

/// A law: what stands behind the records of a disk that this program left it may have left; so its
/// log is never refused as another program's.
pub fn left_logs_are_own()
    ensures own { LeftLogsAreOwn }
    ensures never_refused { LeftLogsAreNotForeign }
{}

/// A law: what is sure of a log, word by word, is read of its disk, and of what a crash leaves of
/// it.
pub fn sure_entries_are_read()
    ensures { SureEntriesAreRead }
{}

/// A law: it stays so where a process stops or its machine crashes, where no call was made and
/// while the log is settled, up to where the records end that were found.
pub fn disks_stay_sure()
    ensures uncalled { UncalledDisksStaySure }
    ensures stopped { StoppedSettlingsStaySure }
    ensures reopened { ReopenedSettlingsStaySure }
{}

/// A law: a run makes sure all that was found, and all that a line was told to be durable.
pub fn runs_make_sure()
    ensures { RunsMakeSure }
{}

/// A law: a log that was found and settled may go on, whoever wrote it, if its disk held pages in
/// the segments that were counted and no other segment. So each word below its end stays as it was
/// read, whatever crashes come.
pub fn found_logs_are_suited()
    ensures { FoundLogsAreSuited }
{}
