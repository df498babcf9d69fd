// Seats are split off and taken in; no word changes by it. A split gives the least of the seat's
// spare numbers to a new seat, which is about nothing and has seen reserved what the seat has. A
// join takes a seat in that is about nothing: its log, what it has seen reserved, the down values
// that it knows, and its spare numbers where the other has none. The seat that was taken in is
// gone, and nobody reserves under its number again. Both tell views alone, so a load that changes
// nothing (`look`) follows: by it the view stands in the state that the load finds.
ghost use Rattle.std.specs.Prelude.{◌≡◌, ◌<◌, [], true};
ghost use Rattle.machine_state.specs.Steps.{IsResting};
ghost use Rattle.machine_state.specs.Moves.{after_join, after_split, spent, split_off};
ghost use Rattle.wal_rule.specs.Stepping.{Stands};
ghost use Rattle.wal_rule.specs.Tables.{IsSeatOn, table_number};

use crate::plays::{Leaves, LooksOn, SplitsOff, TakesIn};
use crate::table::{LogSeat, LogTable};
use segment_disk::Disk;
use std::marker::Brand;

impl<D: Disk> LogTable<D> {
    /// A seat for another backend, with the least of the spare numbers.
    pub fn split(&self, seat: &mut LogSeat<D>) -> LogSeat<D>
        requires seat { IsSeatOn self.now seat.old }
        requires spare { seat.old.me.0.reserving.spare < seat.old.me.0.reserving.spare_end }
        ensures view { seat.new.me ≡ (after_split seat.old.me.0, seat.old.me.1) }
        ensures seat { IsSeatOn self.now seat.new }
        ensures new { (result.me ≡ (split_off seat.old.me.0, []))
            × IsSeatOn self.now result }
    {
        let mut other = self.table.shared.split_seat::<SplitsOff>(seat);
        self.look(seat);
        self.look(&mut other);
        other
    }

    /// Takes another backend's seat in, which is about nothing: its log and what it knows.
    pub fn join(&self, seat: &mut LogSeat<D>, other: LogSeat<D>)
        requires seat { IsSeatOn self.now seat.old }
        requires other { IsSeatOn self.now other }
        requires rests { IsResting other.me.0 × (other.me.1 ≡ []) }
        ensures view { seat.new.me ≡ (after_join seat.old.me.0 other.me.0, seat.old.me.1) }
        ensures seat { IsSeatOn self.now seat.new }
    {
        self.join_leaving::<Brand>(seat, other);
    }

    // Takes another backend's seat in, with what is left of that seat picked for the proof.
    fn join_leaving<B: Leaves>(&self, seat: &mut LogSeat<D>, other: LogSeat<D>)
        requires seat { IsSeatOn self.now seat.old }
        requires other { IsSeatOn self.now other }
        requires rests { IsResting other.me.0 × (other.me.1 ≡ []) }
        requires left { B.left ≡ spent other.me.0 }
        ensures view { seat.new.me ≡ (after_join seat.old.me.0 other.me.0, seat.old.me.1) }
        ensures seat { IsSeatOn self.now seat.new }
    {
        self.table.shared.join_seat::<TakesIn<B>>(seat, other);
        self.look(seat);
    }

    /// A load that changes nothing: the pass's view stands in the state that it finds.
    pub(crate) fn look(&self, seat: &mut LogSeat<D>)
        requires table { seat.old.table_id ≡ table_number self.now }
        requires live { seat.old.me.0.reserving.live ≡ true }
        ensures same { (seat.new.table_id ≡ seat.old.table_id) × (seat.new.me ≡ seat.old.me) }
        ensures stands { Stands seat.new.me.0 }
    {
        self.table.shared.load::<LooksOn>(seat, 0);
    }
}
