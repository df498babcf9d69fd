// The turn to write, with the writer: taken, given back, and given back with the disk failed
// (PostgreSQL's xlog.c, WALWriteLock). The turn is taken by one exchange, down is loaded, and only
// then the writer is taken out of its slot. Until it is put back nobody else calls the device, or
// stores the written or flushed address, the moment or down: so a down of 0 that is loaded with the
// turn had stays 0 unless this pass sets it. The writer goes back first, then the turn's word
// becomes 0. Before that all that it has written is stored as written, or its fault as down: so who
// takes the turn next finds no fault that was not told.
ghost use Rattle.std.specs.Prelude.{◌≡◌, ℕ, [], MatchBool, MatchResult};
ghost use mathlib.Core.Option.{some};
ghost use Rattle.word_ring.specs.InHand.{HasHand, IsReady, known_copied, writer_in};
ghost use Rattle.machine_state.specs.Moves.{copied_below, with_hold};
ghost use Rattle.machine_state.specs.Steps.{slot_in, MayStep};
ghost use Rattle.machine_state.specs.Views.{Idle};
ghost use Rattle.wal_rule.specs.SeatedPasses.{HasView, hand_of, view_of};
ghost use Rattle.wal_log.specs.Downs.{KnowsNoFault};
ghost use Rattle.wal_log.specs.Hands.{MeetsFreeWriteTurn, MeetsWriteTurn, SetsDownAndRests, TellsTurnErr};
ghost use Rattle.wal_log.specs.Standing.{AddsNothing, HasNoTurn};

use flush_core::DiskFault;
use segment_disk::Disk;
use wal_rule::SeatedPass;
use word_ring::writer_now;

/// Why the turn to write was not had.
#[derive(Clone, Copy, Debug, PartialEq, Eq)]
pub enum TurnErr {
    /// The disk has failed before: its count of faults then, met with the turn had.
    Down { faults: u64 },
    /// Somebody has it: the turn's word.
    Taken { turn: u64 },
}

// Takes the turn to write, and the writer, where the turn is free and the disk has not failed. The
// down value is loaded with the turn had: nobody else sets it then.
pub(crate) fn take_ready<'p, D: Disk>(seated: &mut SeatedPass<'p, D>) -> Result<(), TurnErr>
    // The pass has no turn to write; it may hold a lock and copy, and goes on to do so.
    requires rests { HasNoTurn seated.old }
    requires up { KnowsNoFault (view_of seated.old) }
    // The writer is in hand and has not failed. It may write up to what the pass's watch told. Else
    // the pass has neither turn nor writer, as before.
    ensures ready { MatchResult result
        (λ _. IsReady D.tape D.moment D.faults seated.new
        × (known_copied (view_of seated.new) ≡ copied_below (view_of seated.old).watching)
        × KnowsNoFault (view_of seated.new))
        (λ e. TellsTurnErr (view_of seated.old) (view_of seated.new) e × HasNoTurn seated.new) }
    ensures adds_nothing { AddsNothing seated.old seated.new }
{
    let turn = seated.take_write_turn();
    if turn != 0 {
        return Err(TurnErr::Taken { turn });
    }
    let faults = seated.load_down();
    if faults != 0 {
        seated.release_write_turn();
        return Err(TurnErr::Down { faults });
    }
    seated.slot_out();
    match writer_now(seated).fault {
        None => Ok(()),
        // That the writer had failed, and down was 0, does not come.
        Some(faults) => {
            give_back(seated);
            Err(TurnErr::Down { faults })
        }
    }
}

// Whether somebody else has the turn to write. If it is free it is taken, and given back at once.
pub(crate) fn is_turn_taken<'p, D: Disk>(seated: &mut SeatedPass<'p, D>) -> bool
    requires rests { HasNoTurn seated.old }
    // Nothing has changed for the pass. It met the turn's word, which was not 0 exactly at true.
    ensures same { HasView (view_of seated.old) seated.old seated.new }
    ensures taken { MatchBool result ((turn : ℕ) × MeetsWriteTurn turn (view_of seated.new))
        (MeetsFreeWriteTurn (view_of seated.new)) }
{
    let turn = seated.take_write_turn();
    if turn != 0 {
        return true;
    }
    seated.release_write_turn();
    false
}

// Puts the writer back, and gives the turn back. All that it has written is stored as written, or
// the down value is known: `slot_in` asks for that. Nothing else of the view changes.
pub(crate) fn give_back<'p, D: Disk>(seated: &mut SeatedPass<'p, D>)
    requires hand { HasHand D.tape D.moment D.faults seated.old }
    requires may { MayStep (view_of seated.old) slot_in }
    ensures view { seated.new.seat.me ≡ (with_hold Idle (view_of seated.old), []) }
    ensures same_table { seated.new.table ≡ seated.old.table }
{
    seated.slot_in();
    seated.release_write_turn();
}

// Sets the down value to the fault that the writer in hand has met, and gives writer and turn back.
// The pass knew of no failed disk when it took the writer: so it is the only one that sets it.
pub(crate) fn go_down<'p, D: Disk>(seated: &mut SeatedPass<'p, D>, fault: DiskFault)
    requires hand { HasHand D.tape D.moment D.faults seated.old }
    requires failed { (writer_in (view_of seated.old)).fault ≡ some fault.faults }
    requires up { KnowsNoFault (view_of seated.old) }
    ensures down { SetsDownAndRests fault.faults (view_of seated.old) (view_of seated.new) }
    ensures empty { hand_of seated.new ≡ [] }
    ensures same_table { seated.new.table ≡ seated.old.table }
{
    seated.set_down(fault.faults);
    give_back(seated);
}
