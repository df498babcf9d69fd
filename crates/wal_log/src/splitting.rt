// Passes are split off and taken in. A pass is what one backend calls the log with: each call takes
// it `&mut` or by value, so one thread at a time has it, and its number is no other's. Neither call
// here changes a shared word, or waits. A pass that was taken in makes no more calls: what it
// reserved and was promised is the taker's to tell from then on, and a log whose passes are not all
// taken in is not closed.
ghost use Rattle.std.specs.Prelude.{◌≡◌, ◌<◌};
ghost use Rattle.wal_rule.specs.Passes.{view_of_pass};
ghost use Rattle.machine_state.specs.Moves.{after_join, after_split, split_off};
ghost use Rattle.wal_log.specs.Logs.{IsPassOfLog};

use crate::wal::Wal;
use segment_disk::Disk;
use wal_rule::Pass;

impl<D: Disk> Wal<D> {
    /// A pass for another backend, with the least of the pass's spare numbers, of which there is
    /// one. It has no spare ones itself, and has seen what the pass has.
    pub fn split(&self, pass: &mut Pass) -> Pass
        requires pass { IsPassOfLog self.now pass.old }
        requires spare { pass.old.spare < pass.old.spare_end }
        ensures left { IsPassOfLog self.now pass.new
            × (view_of_pass pass.new ≡ after_split (view_of_pass pass.old)) }
        ensures right { IsPassOfLog self.now result
            × (view_of_pass result ≡ split_off (view_of_pass pass.old)) }
    {
        pass.split(&self.table)
    }

    /// Takes another pass in: its log, what it has seen and knows of a failed disk, its number, and
    /// its spare numbers where the pass itself has none left.
    pub fn join(&self, pass: &mut Pass, other: Pass)
        requires pass { IsPassOfLog self.now pass.old }
        requires other { IsPassOfLog self.now other }
        ensures pass { IsPassOfLog self.now pass.new }
        ensures view { view_of_pass pass.new
            ≡ after_join (view_of_pass pass.old) (view_of_pass other) }
    {
        pass.join(&self.table, other);
    }
}
