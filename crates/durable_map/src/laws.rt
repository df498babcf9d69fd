//! Laws of changes, proved by functions that do nothing.

ghost use Rattle.std.specs.Prelude.{◌≡◌, List, Result};
ghost use Rattle.wal_types.specs.declared.answers.Sealed.{Sealed};
ghost use Rattle.wal_types.specs.declared.record.Record.{Record};
ghost use Rattle.machine_state.specs.declared.setup.Setup.{Setup};
ghost use Rattle.wal_log.specs.declared.wal.Wal.{Wal};
ghost use Rattle.durable_map.specs.Asked.{AreTold, changes_told};
ghost use Rattle.durable_map.specs.Calls.{LeadTo};
ghost use Rattle.durable_map.specs.Changes.{MapChange};
ghost use Rattle.durable_map.specs.Lives.{AnsweredChangesStay};
ghost use Rattle.durable_map.specs.Records.{IsLoggable, SaysChange, change_record};
ghost use Rattle.durable_map.specs.Stores.{AnswersChange, Holds, changes_behind};
ghost use Rattle.durable_map.specs.Weaving.{LogsWeaveLanes};
ghost use Rattle.durable_map.specs.declared.asked.MapCall.{MapCall};
ghost use Rattle.durable_map.specs.declared.asked.MapTold.{MapTold};
ghost use Rattle.durable_map.specs.declared.fault.ChangeErr.{ChangeErr};
ghost use Rattle.durable_map.specs.declared.part.MapPart.{MapPart};

use segment_disk::Disk;
use wal_log_laws::laws::{logs_only_grow, passes_hand_on_their_logs};
use wal_log_laws::{
    commits_are_promised, lone_passes_make_the_order, passes_make_the_order, promised_records_stay,
};
use wal_reader::{decoding_is_settled, finding_is_decoding};

/// Each change that can be logged is said by its record, and a record says one change at most: so
/// what is read of a record is what was spelled.
pub fn records_say_one_change()
    ensures own { (change : MapChange) → IsLoggable change
        → SaysChange (change_record change) change }
    ensures one { (value : Record) (one other : MapChange) → SaysChange value one
        → SaysChange value other → one ≡ other }
{}

/// The map of some changes is behind an Ok that of these and this one, and behind any other answer
/// that of these.
pub fn changes_grow_by_one()
    ensures { (setup : Setup) (change : MapChange) (changes : List MapChange) (old new : MapPart)
        (answer : Result Sealed ChangeErr) → AnswersChange setup change old new answer
        → Holds old changes → Holds new (changes_behind change changes answer) }
{}

/// The sets and dels among the calls that a lane makes, with what they were told, are calls of its
/// part, one behind another.
pub fn what_is_told_leads<D: Disk>()
    ensures { (wal : Wal D) (calls : List MapCall) (told : List MapTold) (old new : MapPart)
        → AreTold wal calls old told new → LeadTo wal (changes_told calls told) old new }
{}

/// Of a log that lanes shared until it was closed: what it says is woven of the changes that each
/// lane began, in their order, and of nothing else.
pub fn logs_weave_lanes<D: Disk>()
    ensures { LogsWeaveLanes D.tape D.moment D.faults }
{
    passes_make_the_order::<D>();
}

/// The law: behind any number of openings, crashes, kills and failed disks the map that an opening
/// gives is that of a front of all changes that were begun, in their order, and this front holds
/// each one that was answered Ok.
pub fn answered_changes_stay<D: Disk>()
    ensures { AnsweredChangesStay D.tape D.moment D.faults }
{
    promised_records_stay::<D>();
    commits_are_promised::<D>();
    lone_passes_make_the_order::<D>();
    passes_make_the_order::<D>();
    logs_only_grow::<D>();
    passes_hand_on_their_logs();
    finding_is_decoding();
    decoding_is_settled();
}
