ghost use Rattle.std.specs.Prelude.{◌≡◌, ◌≤◌, IfOk};
ghost use Rattle.cli_line.specs.Given.{IsShapeInRange};
ghost use Rattle.run_script.specs.Generated.{generated_script};
ghost use Rattle.backend_cli.specs.Outside.{SourceView, outside_of};
ghost use Rattle.backend_cli.specs.Prepared.{IsPreparedFor};
ghost use Rattle.backend_cli.specs.Run.{GenHolds};

use crate::outcome::Outcome;
use crate::run::{Finished, run_prepared};
use crate::told::ToldLists;
use cli_line::GenOptions;
use run_backends::{Gate, Room};
use run_script::generate;
use run_script::generated_laws::four_backends_have_as_many_lines;
use segment_disk::{Disk, Sink};
use std::alloc::{AllocError, Global};
use std::sync::Wait;
use std::thread::Threads;

// Makes the lines, and takes all room that their backends need.
fn room_for(alloc: Global, lines: u32) -> Result<Room<'static>, AllocError>
    requires { lines ≤ 100000 }
    ensures { IfOk result (IsPreparedFor (generated_script lines)) }
{
    four_backends_have_as_many_lines();
    Room::of(alloc, generate(alloc, lines)?)
}

/// Runs lines that are made, as `run` those of a script: no script is read.
pub(crate) fn run_generated<R: Threads + Wait + Sync, O: Sink, D: Disk + Send, G: Gate + Sync>(
    rt: &R,
    alloc: Global,
    options: &GenOptions,
    disk: D,
    out: &mut O,
    gate: &G,
) -> Finished<D>
    requires lines { options.now.lines ≤ 100000 }
    requires in_range { IsShapeInRange options.now.run.ring_pages options.now.run.cap_segments }
    ensures holds { (source : SourceView) → GenHolds (outside_of source source
        D.tape D.moment D.faults disk result.disk O.taken O.faults out.old out.new)
        options.now result.outcome result.told }
    ensures as_handed_in { result.outcome ≡ Outcome.OutOfMemory → result.disk ≡ disk }
{
    match room_for(alloc, options.lines) {
        Ok(room) => run_prepared(rt, alloc, &options.run, room, disk, out, gate),
        Err(AllocError) => Finished {
            outcome: Outcome::OutOfMemory,
            disk,
            told: ToldLists::none(alloc),
        },
    }
}
