ghost use Rattle.log_lives_laws.specs.Lives.{ThreeLivesKeepAll, ToldRecordsStay};
ghost use Rattle.log_lives_laws.specs.Receipts.{ReceiptsTellDurable};

/// The law: behind any number of runs, crashes, kills, failed disks and restarts the log has each
/// record that was told durable in any of its lives, and going on does not take it for another
/// program's.
pub fn told_records_stay()
    ensures { ToldRecordsStay }
{}

/// A law: of each commit that was told durable by a moment, the record that its receipt names is
/// one of these.
pub fn receipts_tell_durable()
    ensures { ReceiptsTellDurable }
{}

/// A caller of the law who has nothing but what `pgwal` promises of three calls.
pub fn three_lives_keep_all()
    ensures { ThreeLivesKeepAll }
{}
