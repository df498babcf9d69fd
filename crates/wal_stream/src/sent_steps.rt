//! Laws of the definitions, each proved by a function that does nothing.

ghost use Rattle.std.specs.Prelude.{ℕ, List};
ghost use Rattle.wal_page.specs.Order.{Entry};
ghost use Rattle.wal_stream.specs.Following.{FollowsLog, KeepsLogUpto};
ghost use Rattle.wal_stream.specs.Standby.{standby_disk};
ghost use Rattle.wal_stream.specs.declared.standby.Standby.{Standby};
ghost use Rattle.wal_stream.specs.Fetched.{SourceState};
ghost use Rattle.wal_stream.specs.Receiving.{IsHardened, Receives};
ghost use Rattle.wal_stream.specs.Sent.{Diverges, HandsOutLog, IsSentRun};
ghost use Rattle.wal_stream.specs.declared.outcome.Received.{Received};

use segment_disk::Disk;

/// A law: let a standby that has a front of a log receive what a source hands out, and let what of
/// that is a frame be one of the log. Then it has a front of the log again; where it was hardened,
/// each crash from now on leaves the log up to where it is told to be; and it never ends with
/// another log's frame.
///
/// It is a run of the steps that wal_stream's laws speak of, with its one promise (`run`).
pub fn received_frames_are_sent_steps<D: Disk>()
    ensures run { (sysid hardened : ℕ) (es : List Entry) (before after : SourceState)
        (old new : Standby D) (received : Received)
        → Receives D.tape D.moment D.faults before after old new received
        → HandsOutLog old.geometry sysid es hardened before after
        → IsSentRun D.tape D.moment D.faults sysid es hardened old new received }
    ensures follows { (sysid since hardened : ℕ) (es : List Entry) (before after : SourceState)
        (old new : Standby D) (received : Received)
        → Receives D.tape D.moment D.faults before after old new received
        → HandsOutLog old.geometry sysid es hardened before after
        → FollowsLog D.tape sysid es since old → FollowsLog D.tape sysid es since new }
    ensures keeps { (sysid since hardened : ℕ) (es : List Entry) (before after : SourceState)
        (old new : Standby D) (received : Received)
        → Receives D.tape D.moment D.faults before after old new received
        → HandsOutLog old.geometry sysid es hardened before after
        → FollowsLog D.tape sysid es since old → IsHardened received.ended
        → KeepsLogUpto D.tape sysid es new (D.moment (standby_disk new), received.upto.0) }
    ensures never_diverges { (sysid since hardened : ℕ) (es : List Entry)
        (before after : SourceState) (old new : Standby D) (received : Received)
        → Receives D.tape D.moment D.faults before after old new received
        → HandsOutLog old.geometry sysid es hardened before after
        → FollowsLog D.tape sysid es since old → Diverges received.ended → ⊥ }
{}
