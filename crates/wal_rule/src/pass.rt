// A pass: a seat between two calls, with its numbers. A call seats it (`seat`), makes its steps,
// and puts it back (`put_back`); between, the pass is none, and its numbers stay. The numbers are
// those of the seat's view (`HasNumbers`). No two passes of a table share one, so a split gives a
// number away that nobody else has or can give. A pass holds no slot, since its seat has the writer
// in hand at most within a call.
ghost use Rattle.std.specs.Prelude.{◌≡◌, ◌-◌, ◌<◌, ◌≤◌, []};
ghost use Rattle.atomic_table.specs.Seated.{TableId};
ghost use Rattle.machine_state.specs.Words.{Opening};
ghost use Rattle.wal_rule.specs.Company.{IsAlone};
ghost use Rattle.wal_rule.specs.Passes.{HasNumbers, IsPassOf, SamePass, view_of_pass};
ghost use Rattle.machine_state.specs.Steps.{IsResting};
ghost use Rattle.machine_state.specs.Moves.{after_join, after_split, split_off};
ghost use Rattle.wal_rule.specs.Stepping.{IsSeatOf};
ghost use Rattle.wal_rule.specs.SeatedPasses.{hand_of, view_of};
ghost use Rattle.wal_rule.specs.Tables.{IsPassOn};

use crate::company::Company;
use crate::seated::SeatedPass;
use crate::seats::PassView;
use crate::table::{LogSeat, LogTable};
use atomic_table::Badge;
use segment_disk::Disk;
use std::mem;

/// What one backend steps with: a seat that holds no slot, its number, and the numbers from `spare`
/// up to `spare_end` that it may give to others. Its type does not name the disk's.
#[derive(Drop)]
pub struct Pass {
    pub badge: Badge<PassView>,
    pub number: u32,
    pub spare: u32,
    pub spare_end: u32,
    pub company: Company,
}

impl Pass {
    /// A seat becomes a pass, with the numbers that its view has.
    pub fn of_seat<D>(seat: LogSeat<D>, number: u32, spare: u32, spare_end: u32) -> Pass
        requires none_held { seat.me.1 ≡ [] }
        requires numbers { HasNumbers number spare spare_end seat.me.0 }
        ensures pass { (table : TableId) (opening : Opening) → IsSeatOf table opening seat
            → IsPassOf table opening result }
        ensures view { view_of_pass result ≡ seat.me.0 }
        ensures alone { IsAlone result.company }
    {
        Pass {
            badge: seat.into_badge(),
            number,
            spare,
            spare_end,
            company: Company::new(),
        }
    }

    /// Its number, which no other pass of its table has.
    pub fn number(&self) -> u32
        ensures { result ≡ self.now.number }
    {
        self.number
    }

    /// How many spare numbers it has: so many passes it may split off.
    pub fn spare(&self) -> u32
        ensures { result ≡ self.now.spare_end - self.now.spare }
    {
        self.spare_end.saturating_sub(self.spare)
    }

    /// Seats the pass at the table of its log, for the steps of a call; it is none until it is put
    /// back.
    pub fn seat<'a, D: Disk>(&mut self, table: &'a LogTable<D>) -> SeatedPass<'a, D>
        requires pass { IsPassOn table.now self.old }
        // It has the pass's view and nothing in hand; the pass keeps its numbers, and what it knows
        // of its company.
        ensures table { result.table.now ≡ table.now }
        ensures view { result.seat.me ≡ (view_of_pass self.old, []) }
        ensures numbers { SamePass self.old self.new }
    {
        let number = self.number;
        SeatedPass {
            table,
            seat: self.take_seat(),
            number,
        }
    }

    /// The seat goes back into its pass, with the same numbers.
    pub fn put_back<'a, D: Disk>(&mut self, seated: SeatedPass<'a, D>)
        // It has put the writer back, and its view has the numbers that the pass kept.
        requires none_held { hand_of seated ≡ [] }
        requires numbers { HasNumbers self.old.number self.old.spare self.old.spare_end
            (view_of seated) }
        ensures pass { IsPassOn seated.entry.table.now self.new }
        ensures view { view_of_pass self.new ≡ view_of seated.entry }
        ensures numbers { SamePass self.old self.new }
    {
        self.keep_seat(seated.seat);
    }

    // The seat, out of the pass, which is none until it has one again.
    pub(crate) fn take_seat<D>(&mut self) -> LogSeat<D>
        requires { (table : TableId) × (opening : Opening) × IsPassOf table opening self.old }
        // The seat has the pass's view and nothing in its slots; the pass keeps its numbers.
        ensures view { result.me ≡ (view_of_pass self.old, []) }
        ensures seat { (table : TableId) (opening : Opening) → IsPassOf table opening self.old
            → IsSeatOf table opening result }
        ensures numbers { SamePass self.old self.new }
    {
        mem::replace(&mut self.badge, Badge::blank()).into_seat()
    }

    // A seat goes into the pass that it was taken from.
    fn keep_seat<D>(&mut self, seat: LogSeat<D>)
        // The seat has put the writer back, and its view has the numbers that the pass kept.
        requires none_held { seat.me.1 ≡ [] }
        requires numbers { HasNumbers self.old.number self.old.spare self.old.spare_end seat.me.0 }
        ensures pass { (table : TableId) (opening : Opening) → IsSeatOf table opening seat
            → IsPassOf table opening self.new }
        ensures view { view_of_pass self.new ≡ seat.me.0 }
        ensures numbers { SamePass self.old self.new }
    {
        self.badge = seat.into_badge();
    }

    /// A pass for another backend, with the least of the spare numbers.
    pub fn split<D: Disk>(&mut self, table: &LogTable<D>) -> Pass
        requires pass { IsPassOn table.now self.old }
        requires spare { self.old.spare < self.old.spare_end }
        // The pass keeps its number, and has one spare number less; the new one has that, and none
        // to give.
        ensures left { IsPassOn table.now self.new
            × (view_of_pass self.new ≡ after_split (view_of_pass self.old)) }
        ensures right { IsPassOn table.now result
            × (view_of_pass result ≡ split_off (view_of_pass self.old)) }
        // A new pass is alone; the other one knows what it knew of its company.
        ensures alone { IsAlone result.company }
        ensures company { self.new.company ≡ self.old.company }
    {
        let number = self.spare;
        let mut seat = self.take_seat();
        let other = table.split(&mut seat);
        self.spare = number + 1;
        self.keep_seat(seat);
        Pass::of_seat(other, number, 0, 0)
    }

    /// Takes another backend's pass in, which is about nothing: its log, what it knows, and its
    /// spare numbers where this one has none.
    pub fn join<D: Disk>(&mut self, table: &LogTable<D>, mut other: Pass)
        requires pass { IsPassOn table.now self.old }
        // The other pass is of the same table, and about nothing: it holds no lock, turn or record
        // in flight.
        requires other { IsPassOn table.now other }
        requires rests { IsResting (view_of_pass other) }
        ensures pass { IsPassOn table.now self.new }
        ensures view { view_of_pass self.new
            ≡ after_join (view_of_pass self.old) (view_of_pass other) }
        ensures company { self.new.company ≡ self.old.company }
    {
        let mut seat = self.take_seat();
        table.join(&mut seat, other.take_seat());
        (self.spare, self.spare_end) = self.spares_of(&other);
        self.keep_seat(seat);
    }

    // The spare numbers behind a join: its own where it has some, else the other's.
    fn spares_of(&self, other: &Pass) -> (u32, u32)
        ensures own { self.now.spare < self.now.spare_end
            → result ≡ (self.now.spare, self.now.spare_end) }
        ensures taken { self.now.spare_end ≤ self.now.spare
            → result ≡ (other.now.spare, other.now.spare_end) }
    {
        if self.spare < self.spare_end {
            (self.spare, self.spare_end)
        } else {
            (other.spare, other.spare_end)
        }
    }
}
