ghost use Rattle.std.specs.Prelude.{◌≡◌};
ghost use Rattle.backend_cli.specs.Outside.{SourceView, outside_of};
ghost use Rattle.backend_cli.specs.Sending.{SendHolds, outcome_sent};

use crate::outcome::Outcome;
use crate::run::Finished;
use crate::told::ToldLists;
use cli_line::SendOptions;
use segment_disk::{Disk, Sink};
use std::alloc::Global;
use wal_reader::ReadErr;
use wal_stream::{SendErr, send};

/// Sends the log's pages as frames.
pub(crate) fn send_log<O: Sink, D: Disk>(
    alloc: Global,
    options: &SendOptions,
    mut disk: D,
    out: &mut O,
) -> Finished<D>
    ensures { (source : SourceView) → SendHolds (outside_of source source
        D.tape D.moment D.faults disk result.disk O.taken O.faults out.old out.new)
        options.now result.outcome result.told }
{
    let sent = send(alloc, &mut disk, options.geometry, options.from, out);
    Finished {
        outcome: outcome_sent(sent),
        disk,
        told: ToldLists::none(alloc),
    }
}

fn outcome_sent(sent: Result<u64, SendErr>) -> Outcome
    ensures { result ≡ outcome_sent sent }
{
    match sent {
        Ok(_) => Outcome::Done,
        Err(SendErr::Read(ReadErr::Memory)) => Outcome::OutOfMemory,
        Err(SendErr::Read(ReadErr::Disk { .. })) => Outcome::DiskFault,
        Err(SendErr::Read(ReadErr::Stopped(stopped))) => Outcome::Stopped(stopped),
        Err(SendErr::Sink(_)) => Outcome::SinkFault,
    }
}
