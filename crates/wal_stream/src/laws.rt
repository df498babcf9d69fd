//! Laws of the definitions, each proved by a function that does nothing.

ghost use Rattle.std.specs.Prelude.{ℕ, All, List};
ghost use Rattle.wal_page.specs.Order.{Entry};
ghost use Rattle.wal_stream.specs.Following.{AreSentSteps, ComesOfLog, FollowsLog, KeepsLogUpto, SentStep, promises_of, standby_behind};
ghost use Rattle.wal_stream.specs.Frame.{FramesOfLogPagesAreOfLog};
ghost use Rattle.wal_stream.specs.Standby.{AnswersDiverged};
ghost use Rattle.wal_stream.specs.declared.standby.Standby.{Standby};

use segment_disk::Disk;

/// A law: the frame of a page whose words below an address are the log's is a frame of the log,
/// whatever stands behind these words.
pub fn frames_of_log_pages_are_of_log()
    ensures { FramesOfLogPagesAreOfLog }
{}

/// A law: a standby that has a front of a log has one at every later moment, whatever frames of the
/// log come, in any order, repeated or cut short; what it promised stays durable; and it never says
/// that it is of another log.
pub fn standbys_follow_the_log<D: Disk>()
    ensures follows { (sysid since hardened : ℕ) (es : List Entry) (first : Standby D)
        (steps : List (SentStep × Standby D)) → FollowsLog D.tape sysid es since first
        → AreSentSteps D.tape D.moment D.faults sysid es hardened first steps
        → FollowsLog D.tape sysid es since (standby_behind first steps) }
    ensures keeps { (sysid since hardened : ℕ) (es : List Entry) (first : Standby D)
        (steps : List (SentStep × Standby D)) → FollowsLog D.tape sysid es since first
        → AreSentSteps D.tape D.moment D.faults sysid es hardened first steps
        → All (KeepsLogUpto D.tape sysid es (standby_behind first steps))
        (promises_of D.moment steps) }
    ensures never_diverges { (sysid since hardened : ℕ) (es : List Entry) (old new : Standby D)
        (bytes : List ℕ) (at : ℕ) → FollowsLog D.tape sysid es since old
        → ComesOfLog old.geometry sysid es hardened bytes
        → AnswersDiverged old new bytes at → ⊥ }
{}
