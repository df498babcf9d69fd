ghost use Rattle.std.specs.Prelude.{ℕ, ◌≤◌, List, [], ◌∷◌, ◌++◌, Some};
ghost use Rattle.segment_disk.specs.Tape.{Tape};
ghost use Rattle.flush_core.specs.Pages.{HoldsNothing};
ghost use Rattle.wal_page.specs.Order.{Entry};
ghost use Rattle.wal_reader.specs.declared.found.FoundRecord.{FoundRecord};
ghost use Rattle.wal_stream.specs.FollowedLog.{IsLogOrder};
ghost use Rattle.wal_stream.specs.Opened.{StandsAtFound};
ghost use Rattle.wal_stream.specs.Standby.{standby_disk, standby_end};
ghost use Rattle.wal_stream.specs.declared.standby.Standby.{Standby};
ghost use Rattle.wal_stream.specs.Fetched.{SourceState};
ghost use Rattle.wal_stream.specs.Receiving.{Receives};
ghost use Rattle.wal_stream.specs.Sent.{HandsOutLog, promised_at};
ghost use Rattle.wal_stream.specs.declared.outcome.Received.{Received};
ghost use Rattle.reopened_log_laws.specs.WasLeft.{WasLeft};
ghost use Rattle.standby_laws.specs.History.{Closed, IsFoundSince, KeepsStandbyPromises, Lived, MayFollow, NoneTornRead, StandbyState};
ghost use Rattle.standby_laws.specs.Later.{FramesStayOfLog, LaterOrdersBegin};
ghost use Rattle.standby_laws.specs.Sent.{SentFramesAreOfLog, SentFramesComeOfLog};

use segment_disk::Disk;

/// A law: whatever is done with a standby's disk, from one on that holds nothing but words of one
/// log: standbys are opened there and closed, hardened or not, are sent frames of the log in any
/// order, repeated or cut short, and harden; openings fail; crashes come and processes are killed,
/// at any moment. What any opening found and any `harden` told is kept through all of it: by
/// whatever a crash leaves, and by each standby that is opened later. No answer says that a frame
/// is of another log.
pub fn standbys_keep_their_promises<D: Disk>()
    ensures { (size sysid since : ℕ) (es : List Entry) (told : List (ℕ × ℕ))
        (standing : StandbyState D)
        → Lived D.tape D.moment D.faults size sysid es since told standing
        → KeepsStandbyPromises D.tape size sysid es since told standing }
{}

/// A law: such a history may begin on a disk that this program left, crashed or not, with the log
/// that it was left with, and on an empty one with any.
pub fn histories_begin_on_left_disks()
    ensures left { (size sysid : ℕ) (t : Tape) (found : List FoundRecord)
        → (left : WasLeft size sysid t found) → MayFollow size sysid left.order t }
    ensures empty { (size sysid : ℕ) (es : List Entry) (t : Tape) → IsLogOrder size sysid es
        → HoldsNothing (Some t) → MayFollow size sysid es t }
{}

/// A law: a `receive` is a part of that history: a standby is opened on a disk, is fed with what a
/// source hands out, and is closed. What it found is a promise from its opening on, behind a crash
/// since its disk was handed in; and where it ended hardened, what it tells is one from its end on.
pub fn received_frames_are_lived<D: Disk>()
    ensures { (size sysid since hardened cap from : ℕ) (es : List Entry) (told : List (ℕ × ℕ))
        (disk : D) (first last : Standby D) (before after : SourceState) (received : Received)
        → Lived D.tape D.moment D.faults size sysid es since told (Closed disk) → cap ≤ 4096
        → NoneTornRead size es (D.tape disk)
        → StandsAtFound D.tape D.moment D.faults size cap disk first
        → IsFoundSince D.tape D.moment disk (standby_disk first) from
        → Receives D.tape D.moment D.faults before after first last received
        → HandsOutLog size sysid es hardened before after
        → Lived D.tape D.moment D.faults size sysid es since
        ((told ++ (from, standby_end first) ∷ [])
        ++ promised_at received.ended (D.moment (standby_disk last)) received.upto.0)
        (Closed (standby_disk last)) }
{}

/// A law: where a primary's log was hardened up to an address, then a crash came and the log was
/// gone on with, the later order begins with all entries up to there. So frames that were sent up
/// to an entry's end are frames of the later order too.
pub fn later_orders_begin()
    ensures begin { LaterOrdersBegin }
    ensures frames { FramesStayOfLog }
{}

/// A law: what `send` puts of a disk that this program left are frames of the log that it was left
/// with, and each crash from its return on leaves that log up to the end of what was sent. So a
/// source that hands out these frames, as whole pieces, hands out that log.
pub fn sent_frames_are_of_the_log()
    ensures sent { SentFramesAreOfLog }
    ensures handed { SentFramesComeOfLog }
{}
