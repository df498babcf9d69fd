ghost use Rattle.std.specs.Prelude.{◌≡◌};
ghost use Rattle.backend_cli.specs.Dumping.{DumpHolds, outcome_of};
ghost use Rattle.backend_cli.specs.Outside.{SourceView, outside_of};

use crate::outcome::Outcome;
use crate::run::Finished;
use crate::told::ToldLists;
use cli_line::DumpOptions;
use segment_disk::{Disk, Sink};
use std::alloc::Global;
use wal_reader::ReadErr;
use waldump_text::{DumpErr, dump};

/// Lists the log.
pub(crate) fn list<O: Sink, D: Disk>(
    alloc: Global,
    options: &DumpOptions,
    mut disk: D,
    out: &mut O,
) -> Finished<D>
    ensures { (source : SourceView) → DumpHolds (outside_of source source
        D.tape D.moment D.faults disk result.disk O.taken O.faults out.old out.new)
        options.now result.outcome result.told }
{
    let listed = dump(alloc, &mut disk, options.geometry, &options.filter, out);
    Finished {
        outcome: outcome_of(listed),
        disk,
        told: ToldLists::none(alloc),
    }
}

pub(crate) fn outcome_of(listed: Result<u64, DumpErr>) -> Outcome
    ensures { result ≡ outcome_of listed }
{
    match listed {
        Ok(_) => Outcome::Done,
        Err(DumpErr::Read(ReadErr::Memory)) => Outcome::OutOfMemory,
        Err(DumpErr::Read(ReadErr::Disk { .. })) => Outcome::DiskFault,
        Err(DumpErr::Read(ReadErr::Stopped(stopped))) => Outcome::Stopped(stopped),
        Err(DumpErr::Sink(_)) => Outcome::SinkFault,
    }
}
