// A table is closed, and its writer comes back with the position. Who closes has all numbers that a
// pass may have: its own, its spare ones, and those of the passes that it took in; and it is about
// nothing. So no other seat is live, nobody has a turn or the position locked, and the writer is at
// home. Table and seat are gone behind it, and no device call is made. From writer, position and
// view follow the log's order, how far it is written and durable, and what a crash leaves of it
// (`ClosesWith`).
ghost use Rattle.machine_laws.specs.ClosedLogs.{HasAllNumbers};
ghost use Rattle.wal_rule.specs.Closing.{ClosesWith};
ghost use Rattle.wal_rule.specs.Passes.{view_of_pass};
ghost use Rattle.machine_state.specs.Steps.{IsResting};
ghost use Rattle.wal_rule.specs.Tables.{IsPassOn, IsSeatOn, began_of_table, opening_of_table};

use crate::memory::POSITION_PLACE;
use crate::pass::Pass;
use crate::table::{LogSeat, LogTable};
use crate::writer::LogWriter;
use segment_disk::Disk;

impl<D: Disk> LogTable<D> {
    /// Ends the table by the seat that has all numbers and is about nothing, so that every other
    /// one was joined. Gives the writer back, and the position's word. It makes no device call.
    pub fn close(self, seat: LogSeat<D>) -> (LogWriter<D>, u64)
        requires seat { IsSeatOn self seat }
        requires rests { IsResting seat.me.0 }
        requires numbers { HasAllNumbers (opening_of_table self).setup.passes
            seat.me.0.reserving }
        ensures { ClosesWith D.tape D.moment D.faults (began_of_table D.tape self)
            (opening_of_table self) seat.me.0 result.0 result.1 }
    {
        let LogTable { table, shape: _ } = self;
        let mut closed = table.close_with(seat);
        let position = closed.word(POSITION_PLACE);
        let writer = closed.take(0);
        closed.free();
        (writer, position)
    }
}

impl Pass {
    /// Ends the table by the pass that has all numbers and is about nothing.
    pub fn close<D: Disk>(mut self, table: LogTable<D>) -> (LogWriter<D>, u64)
        requires pass { IsPassOn table self }
        requires rests { IsResting (view_of_pass self) }
        requires numbers { HasAllNumbers (opening_of_table table).setup.passes
            (view_of_pass self).reserving }
        ensures { ClosesWith D.tape D.moment D.faults (began_of_table D.tape table)
            (opening_of_table table) (view_of_pass self) result.0 result.1 }
    {
        let seat = self.take_seat();
        table.close(seat)
    }
}
