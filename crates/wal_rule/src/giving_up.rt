// A pass gives up a copy that it cannot end, behind a fault of the disk (PostgreSQL stops the whole
// server there). The record stays in the order, and in flight: what is not copied of it nobody
// copies any more, and its locks stay held for good and tell no more than was copied. The pass is
// about nothing then, and may be taken in; its log keeps the record, which has its place.
ghost use Rattle.std.specs.Prelude.{◌≡◌};
ghost use Rattle.machine_state.specs.Steps.{IsStranded};
ghost use Rattle.machine_state.specs.Moves.{without_work};
ghost use Rattle.wal_rule.specs.SeatedPasses.{HasView, view_of};

use crate::plays::GivesCopyUp;
use crate::seated::SeatedPass;
use segment_disk::Disk;

impl<'a, D: Disk> SeatedPass<'a, D> {
    /// Behind a fault of the disk that the pass met or set, gives up its copy with its locks: they
    /// stay with a seat of their own, with which nobody steps any more.
    pub fn give_up(&mut self)
        // The pass met or set a down value, has a record in flight, and is about nothing else: it
        // has neither the position locked nor a turn.
        requires stranded { IsStranded (view_of self.old) }
        ensures view { HasView (without_work (view_of self.old)) self.old self.new }
    {
        drop(
            self.table
                .table
                .shared
                .split_seat::<GivesCopyUp>(&mut self.seat),
        );
        self.table.look(&mut self.seat);
    }
}
