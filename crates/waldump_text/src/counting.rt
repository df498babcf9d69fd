ghost use Rattle.std.specs.Prelude.{◌≡◌, IfOk, IfSome};
ghost use Rattle.byte_position.specs.Geometry.{IsSegmentSize};
ghost use Rattle.segment_disk.specs.Tape.{IsUncalled};
ghost use Rattle.waldump_text.specs.Counting.{HasTallyCause, IsTally};
ghost use Rattle.waldump_text.specs.Tally.{TallyFits};

use crate::sifting::ByFilter;
use crate::sums::Tally;
use crate::weighing::Weighed;
use byte_position::Geometry;
use segment_disk::Disk;
use std::alloc::Global;
use wal_reader::{Comes, ReadErr, Reader};
use waldump_filter::Filter;

/// Tallies the records that a filter lists. No record is kept, so the memory that it needs does not
/// grow with the log.
pub(crate) fn tally_log<D: Disk, B: ByFilter>(
    alloc: Global,
    disk: &mut D,
    geometry: Geometry,
    filter: &Filter,
) -> Result<Tally, ReadErr>
    requires { filter.now ≡ B.filter }
    ensures tallied { IfSome (D.tape disk.old) (IsTally geometry filter.now result) }
    // That a log decodes to something rests on a valid size.
    ensures valid { IsSegmentSize geometry }
    ensures sound { IfOk result TallyFits }
    ensures uncalled { IsUncalled D.tape D.moment disk.old disk.new }
    ensures cause { HasTallyCause (D.faults disk.old) (D.faults disk.new) result }
{
    let mut reader = Reader::new(geometry, filter.start, filter.end);
    let mut tally = Tally::new();
    let mut weighed = Weighed::<B>::new(filter);
    'records: while !filter.is_full(tally.all.records) {
        let step = reader.next_into(alloc, disk, &mut weighed)?;
        let Comes::Record(head) = step else {
            return Ok(tally);
        };
        if let Some(weight) = weighed.weight(head) {
            tally.add(weight);
        }
    }
    Ok(tally)
}
