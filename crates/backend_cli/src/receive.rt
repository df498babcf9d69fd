ghost use Rattle.std.specs.Prelude.{◌≡◌, ◌∷◌, [], codes};
ghost use Rattle.waldump_text.specs.Put.{Puts};
ghost use Rattle.cli_line.specs.Given.{IsCapInRange};
ghost use Rattle.backend_cli.specs.Outside.{disk_seen, outside_of, source_view};
ghost use Rattle.backend_cli.specs.Receiving.{EndsReceived, FeedsStandby, ReceiveHolds, outcome_put, outcome_unfound, received_text, standby_source};

use crate::outcome::Outcome;
use crate::run::Finished;
use crate::told::ToldLists;
use cli_line::ReceiveOptions;
use found_log::FindFault;
use segment_disk::{Disk, Sink, Source};
use std::alloc::Global;
use wal_stream::{FRAME_SIZE, Received, ReceivingEnd, Standby, receive};
use waldump_text::{SinkFault, put_all};

/// Keeps a copy of a log whose frames come from a source: a standby is opened on what the disk has,
/// before the source is read; at the end all that was taken is made durable, and what became of
/// the frames is told.
pub(crate) fn receive_log<S: Source, O: Sink, D: Disk>(
    alloc: Global,
    options: &ReceiveOptions,
    source: &mut S,
    disk: D,
    out: &mut O,
) -> Finished<D>
    requires in_range { IsCapInRange options.now.cap_segments }
    ensures { ReceiveHolds (disk_seen D.tape D.moment D.faults disk result.disk) (outside_of
        (source_view S.left S.handed S.ends_told S.faults source.old)
        (source_view S.left S.handed S.ends_told S.faults source.new)
        D.tape D.moment D.faults disk result.disk O.taken O.faults out.old out.new)
        options.now result.outcome result.told }
{
    match Standby::open(alloc, disk, options.geometry, options.cap_segments) {
        Ok(standby) => {
            let (outcome, disk) = feed(standby, source, out);
            Finished {
                outcome,
                disk,
                told: ToldLists::none(alloc),
            }
        }
        Err(refused) => Finished {
            outcome: outcome_unfound(refused.fault),
            disk: refused.disk,
            told: ToldLists::none(alloc),
        },
    }
}

// Feeds a standby with the frames of a source, and tells what became of them.
fn feed<S: Source, O: Sink, D: Disk>(
    mut standby: Standby<D>,
    source: &mut S,
    out: &mut O,
) -> (Outcome, D)
    ensures { FeedsStandby D.tape D.moment D.faults
        (standby_source (source_view S.left S.handed S.ends_told S.faults source.old))
        (standby_source (source_view S.left S.handed S.ends_told S.faults source.new))
        standby result.1 (O.taken out.old) (O.taken out.new) (O.faults out.old) (O.faults out.new)
        result.0 }
{
    let mut frame = [0; FRAME_SIZE];
    let received = receive(&mut frame, source, &mut standby);
    (tell_received(&received, out), standby.close())
}

// Tells what became of the frames, and says how the command ends.
fn tell_received<O: Sink>(received: &Received, out: &mut O) -> Outcome
    ensures { EndsReceived (O.taken out.old) (O.taken out.new) (O.faults out.old) (O.faults out.new)
        received.now received.now.ended result }
{
    match received.ended {
        ReceivingEnd::Source => outcome_put(put_received(received, out)),
        ReceivingEnd::TooMany => {
            // A fault of the sink changes no status that comes before its own.
            let _ = put_received(received, out);
            Outcome::TooManyFrames
        }
        ReceivingEnd::Diverged { at } => Outcome::Diverged { at },
        ReceivingEnd::SourceFault => Outcome::SourceFault,
        ReceivingEnd::Disk { .. } => Outcome::DiskFault,
    }
}

fn put_received<O: Sink>(received: &Received, out: &mut O) -> Result<(), SinkFault>
    ensures { Puts (O.taken out.old) (O.taken out.new) (O.faults out.old) (O.faults out.new)
        (received_text received.now) result }
{
    let mut taken = itoa::Buffer::new();
    let mut old = itoa::Buffer::new();
    let mut gap = itoa::Buffer::new();
    let mut bad = itoa::Buffer::new();
    put_all(
        out,
        &[
            b"received ",
            received.upto.text().as_bytes(),
            b" taken ",
            taken.format(received.counts.taken).as_bytes(),
            b" old ",
            old.format(received.counts.old).as_bytes(),
            b" gap ",
            gap.format(received.counts.gap).as_bytes(),
            b" bad ",
            bad.format(received.counts.bad).as_bytes(),
            b"\n",
        ],
    )
}

// How a command ends that told what became of the frames.
fn outcome_put(put: Result<(), SinkFault>) -> Outcome
    ensures { result ≡ outcome_put put }
{
    match put {
        Ok(()) => Outcome::Done,
        Err(_) => Outcome::SinkFault,
    }
}

// How a command ends whose standby could not be opened.
fn outcome_unfound(fault: FindFault) -> Outcome
    ensures { result ≡ outcome_unfound fault }
{
    match fault {
        FindFault::Memory => Outcome::OutOfMemory,
        FindFault::Disk { .. } => Outcome::DiskFault,
        FindFault::Beyond { .. } => Outcome::BeyondCap,
        FindFault::Foreign(stop) => Outcome::Stopped(stop),
    }
}
