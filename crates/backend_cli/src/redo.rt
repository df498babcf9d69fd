ghost use Rattle.std.specs.Prelude.{◌≡◌};
ghost use Rattle.backend_cli.specs.Outside.{SourceView, outside_of};
ghost use Rattle.backend_cli.specs.Redoing.{RedoHolds};

use crate::dump::outcome_of;
use crate::run::Finished;
use crate::told::ToldLists;
use cli_line::RedoOptions;
use segment_disk::{Disk, Sink};
use std::alloc::Global;
use wal_redo::list_redo;
use wal_types::Lsn;

/// Redoes the log's page images in memory, and lists the blocks that they fill.
pub(crate) fn list_redone<O: Sink, D: Disk>(
    alloc: Global,
    options: &RedoOptions,
    mut disk: D,
    out: &mut O,
) -> Finished<D>
    ensures { (source : SourceView) → RedoHolds (outside_of source source
        D.tape D.moment D.faults disk result.disk O.taken O.faults out.old out.new)
        options.now result.outcome result.told }
{
    // Segment 1 begins where segment 0 ends.
    let start = Lsn(options.geometry.segment_size());
    let redone = list_redo(alloc, &mut disk, options.geometry, start, out);
    Finished {
        outcome: outcome_of(redone),
        disk,
        told: ToldLists::none(alloc),
    }
}
