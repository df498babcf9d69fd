ghost use Rattle.written_log_laws.specs.Agreeing.{AgreeingLogsDecodeAlike};
ghost use Rattle.written_log_laws.specs.FoundLog.{FoundLogsReadAsLog, FoundLogsStandInImages};
ghost use Rattle.written_log_laws.specs.LawfulLog.{LawfulImagesDecodeToFronts, WholeLawfulImagesDecode};
ghost use Rattle.written_log_laws.specs.SettledFound.{
  CrashedDisksMayHoldLog,
  CrashedLogsAreFoundAgain,
  LossesNeverMakeNextWhole,
  QuietLogsDecodeToFound,
  SettledLogsDecodeToFound,
  SyncedLogsDecodeToFound,
  UnsyncedLogsDecodeToFronts,
};
ghost use Rattle.written_log_laws.specs.SettledLog.{SettlingLogsDecodeToFronts, SyncedLogsDecodeToFronts};
ghost use Rattle.written_log_laws.specs.TornLaws.{EntriesUptoAreWhole, SeenTornFailsChecks};
ghost use Rattle.written_log_laws.specs.WrittenLog.{OwnPagesHoldLog, WrittenLogDecodes};

/// What the writer puts into the log's pages, however many they are, reads back as exactly its
/// records, and then a clean end. Each order has such pages.
pub fn written_log_decodes()
    ensures decodes { WrittenLogDecodes }
    ensures own_pages { OwnPagesHoldLog }
{}

/// A law: an image of a disk that is lawful for an order decodes to a front of it. The front holds
/// each entry up to where the image has all that the order has, and is all of the order where that
/// is its end.
pub fn lawful_images_decode()
    ensures fronts { LawfulImagesDecodeToFronts }
    ensures whole { WholeLawfulImagesDecode }
{}

/// A law: while a log is settled that was found (`settle` of flush_core), each image that a crash
/// leaves decodes to a front of the order for which the disk was lawful. From the end of the first
/// syncs on the front has each entry up to where the log was read as the order's.
pub fn settled_logs_decode()
    ensures fronts { SettlingLogsDecodeToFronts }
    ensures synced { SyncedLogsDecodeToFronts }
{}

/// A law: what the premise on torn records says. An entry up to where an image has all that the
/// order has is not torn; and a record is seen to be torn just where the reader stops at it.
pub fn torn_records_are_seen()
    ensures hard { EntriesUptoAreWhole }
    ensures seen { SeenTornFailsChecks }
{}

/// A law: two logs that agree below an address, and are 0 from there on, decode to the same
/// records.
pub fn agreeing_logs_decode_alike()
    ensures { AgreeingLogsDecodeAlike }
{}

/// A law: what a reader finds of a log stands there. An image that is lawful for an order, in which
/// no torn record passes its CRC, is the order's log up to the end of what it decodes to; and a
/// disk that may hold words of an order, and nothing else, reads as this log up to there.
pub fn found_logs_stand()
    ensures images { FoundLogsStandInImages }
    ensures disks { FoundLogsReadAsLog }
{}

/// A law: while a log that was found is settled, what images decode to that a crash leaves, in
/// which no torn record passes its CRC. From the end of the first syncs on, and from the first
/// moment on if nothing waited for a sync, it is just what was found. Before that it is a front of
/// it, if a crash never leaves the entry behind it whole; and so it is if a crash may leave nothing
/// but words as they are read and zeros.
///
/// Once the log is settled it is what was found, and then the end, with no premise on torn records.
/// What a crash leaves meanwhile is a disk on which a log was found, with the same order; and what
/// is asked of such a disk's words holds of one that a crash left of a log that was written.
pub fn settling_keeps_found()
    ensures unsynced { UnsyncedLogsDecodeToFronts }
    ensures losses { LossesNeverMakeNextWhole }
    ensures quiet { QuietLogsDecodeToFound }
    ensures synced { SyncedLogsDecodeToFound }
    ensures settled { SettledLogsDecodeToFound }
    ensures again { CrashedLogsAreFoundAgain }
    ensures met { CrashedDisksMayHoldLog }
{}
