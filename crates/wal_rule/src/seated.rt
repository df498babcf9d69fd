// A pass at work: its seat at the table of its log, with the number by which it goes. Between two
// calls a pass is a badge (pass.rt); a call seats it, makes its steps, and puts it back. What is so
// of every seated pass stands with the type: its seat is live, of this table and of the log that
// was opened there, its number is its view's, and its view stands in some state that the table's
// rule allows. So no step asks for any of it, and none can lose it.
ghost use Rattle.std.specs.Prelude.{◌≡◌};
ghost use Rattle.wal_rule.specs.Stepping.{IsSeatOf};
ghost use Rattle.wal_rule.specs.Tables.{opening_of_table, table_number};

use crate::table::{LogSeat, LogTable};
use machine_state::LogShape;
use segment_disk::Disk;

/// A pass at work at the table of its log. It has the writer in its seat's slot while it has that
/// in hand.
#[derive(Drop)]
pub struct SeatedPass<'a, D: Disk> {
    pub table: &'a LogTable<D>,
    pub seat: LogSeat<D>,
    pub number: u32,
    pub ghost seated: { IsSeatOf (table_number table.now) (opening_of_table table.now) seat },
    pub ghost numbered: { number ≡ seat.me.0.reserving.number },
}

impl<'a, D: Disk> SeatedPass<'a, D> {
    ghost use Rattle.wal_rule.specs.SeatedPasses.{setup_of};

    /// The shape of its log.
    pub fn shape(&self) -> &'a LogShape
        ensures { result.now ≡ setup_of self.now }
    {
        &self.table.shape
    }
}
