ghost use Rattle.wal_log_laws.specs.Lives.{CommitsArePromised, LonePassesMakeTheOrder, PassesMakeTheOrder, PromisedRecordsStay, ThreeLivesKeepPromised};

use segment_disk::Disk;

/// The law: behind any number of openings, crashes, kills, failed disks and reopenings the log has
/// each record that was promised to be durable in any of its lives, and a reopening does not take
/// it for another program's.
pub fn promised_records_stay<D: Disk>()
    ensures { PromisedRecordsStay D.tape D.moment D.faults }
{}

/// A law: of each commit that was told to be durable by a moment, the record that its receipt names
/// is one of these, and is the one that was committed.
pub fn commits_are_promised<D: Disk>()
    ensures { CommitsArePromised D.tape D.moment D.faults }
{}

/// A law: if the closing pass took no other one in, its entries alone were reserved since the
/// opening.
pub fn lone_passes_make_the_order<D: Disk>()
    ensures { LonePassesMakeTheOrder D.tape D.moment D.faults }
{}

/// A law: what was reserved since the opening are the entries of the closing pass and of those that
/// it took in, of each in its order.
pub fn passes_make_the_order<D: Disk>()
    ensures { PassesMakeTheOrder D.tape D.moment D.faults }
{}

/// A caller of the law who has nothing but clauses of `Wal`, for three lives.
pub fn three_lives_keep_promised<D: Disk>()
    ensures { ThreeLivesKeepPromised D.tape D.moment D.faults }
{}
