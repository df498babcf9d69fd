ghost use Rattle.std.specs.Prelude.{List, Ok};
ghost use Rattle.cli_line.specs.Given.{IsShapeInRange};
ghost use Rattle.run_script.specs.Asked.{AskedLine};
ghost use Rattle.backend_cli.specs.Appending.{AppendHolds};
ghost use Rattle.backend_cli.specs.Outside.{SourceView, outside_of, source_view};
ghost use Rattle.backend_cli.specs.Prepared.{IsPreparedFor};
ghost use Rattle.backend_cli.specs.Reading.{ScriptMeans};

use crate::printing::put_found;
use crate::run::{Finished, OpenedLog, calls_are_counted, play_opened, prepare, unopened};
use crate::setup::run_setup;
use crate::told::ToldLists;
use bumpalo::Bump;
use cli_line::ScriptRunOptions;
use run_backends::{Gate, Room};
use segment_disk::{Disk, Sink, Source};
use std::alloc::Global;
use std::sync::Wait;
use std::thread::Threads;
use wal_log::Wal;

// Goes on with the log that is there, once the backends are made ready.
fn append_prepared<R: Threads + Wait + Sync, O: Sink, D: Disk + Send, G: Gate + Sync>(
    rt: &R,
    alloc: Global,
    options: &ScriptRunOptions,
    room: Room<'_>,
    disk: D,
    out: &mut O,
    gate: &G,
) -> Finished<D>
    requires in_range { IsShapeInRange options.now.run.ring_pages options.now.run.cap_segments }
    requires prepared { (script : List (List AskedLine)) × IsPreparedFor script room }
    ensures { (before after : SourceView) (script : List (List AskedLine))
        → ScriptMeans options.now.writer before after (Ok script) → IsPreparedFor script room.entry
        → AppendHolds (outside_of before after D.tape D.moment D.faults disk result.disk O.taken
        O.faults out.old out.new) options.now result.outcome result.told }
{
    calls_are_counted(&disk);
    let setup = run_setup(&options.run, &room);
    match Wal::reopen(alloc, disk, setup) {
        Err(fault) => unopened(alloc, fault),
        Ok((log, first, found)) => {
            let opened = OpenedLog {
                log,
                first,
                end: found.end,
                begun: put_found(out, found),
            };
            play_opened(rt, &options.run, opened, room, out, gate)
        }
    }
}

/// Runs a script on the log that is there, which a crash may have left. In this order: the script
/// is read to its end and understood, all memory is taken for its backends, the log is found and
/// judged by reads alone, made durable, and cleared behind its end; what was found is printed, and
/// then all goes on as in a run. A sink's fault loses only what is printed.
pub(crate) fn append<R: Threads + Wait + Sync, S: Source, O: Sink, D: Disk + Send, G: Gate + Sync>(
    rt: &R,
    alloc: Global,
    options: &ScriptRunOptions,
    source: &mut S,
    disk: D,
    out: &mut O,
    gate: &G,
) -> Finished<D>
    requires in_range { IsShapeInRange options.now.run.ring_pages options.now.run.cap_segments }
    ensures { AppendHolds (outside_of
        (source_view S.left S.handed S.ends_told S.faults source.old)
        (source_view S.left S.handed S.ends_told S.faults source.new)
        D.tape D.moment D.faults disk result.disk O.taken O.faults out.old out.new)
        options.now result.outcome result.told }
{
    let arena = Bump::new(alloc);
    match prepare(alloc, &arena, options.writer, source) {
        Ok(room) => append_prepared(rt, alloc, options, room, disk, out, gate),
        Err(outcome) => Finished {
            outcome,
            disk,
            told: ToldLists::none(alloc),
        },
    }
}
