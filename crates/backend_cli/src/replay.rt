ghost use Rattle.std.specs.Prelude.{◌≡◌, ◌<◌, ◌≤◌, ℕ, All, List, [], Option, Some, Ok, IfOk, length, map, replicate};
ghost use Rattle.segment_disk.specs.First.{first_state};
ghost use Rattle.segment_disk.specs.MemDisk.{tape_of};
ghost use Rattle.segment_disk.specs.Tape.{Tape};
ghost use Rattle.cli_line.specs.Given.{IsShapeInRange};
ghost use Rattle.run_script.specs.Turns.{backends_in_turn};
ghost use Rattle.waldump_text.specs.Put.{Puts};
ghost use Rattle.run_script.specs.Asked.{AskedLine};
ghost use Rattle.run_script.specs.Replay.{ReplayMeaning, most_backends, replay_meaning};
ghost use Rattle.run_script.specs.ReplayReading.{AreBackendsOf};
ghost use Rattle.machine_turns.specs.Doing.{Machine};
ghost use Rattle.machine_turns.specs.Turned.{machine_behind};
ghost use Rattle.wal_core.specs.Cores.{IsPlayed, core_of};
ghost use Rattle.wal_core.specs.Playing.{PlaysMachine};
ghost use Rattle.backend_cli.specs.ReplayBegun.{IsReplayBegun, PlaysBackends, ReadsReplay, machine_line_of, machine_lines_of};
ghost use Rattle.backend_cli.specs.Outside.{SourceView, outside_of, outside_with, source_view};
ghost use Rattle.backend_cli.specs.Reading.{ScriptMeansBy};
ghost use Rattle.backend_cli.specs.Replaying.{HasSinkCause, PutsBefore, ReplayEnds, ReplayHolds, backend_line, backend_lines, outcome_with, pick_of};

use crate::outcome::Outcome;
use crate::reading::read_script;
use crate::run::Finished;
use crate::setup::setup_asked;
use crate::told::ToldLists;
use byte_position::Geometry;
use cli_line::{CrashPick, ReplayOptions};
use run_script::{Action, Item, Line, Replay, Schedule, parse_replay};
use segment_disk::{Disk, MemDisk, Pick, Sink, Source};
use std::alloc::{AllocError, Global};
use wal_core::{Core, CoreErr, Line as MachineLine, Script};
use wal_reader::ReadErr;
use wal_types::Lsn;
use waldump_text::{DumpErr, Filter, SinkFault, dump, put_all};

// What a replay needs before its first turn.
#[derive(Drop)]
struct ReplayBegun {
    core: Core,
    // How many lines each backend has.
    line_counts: Vec<u64>,
}

fn read_replay<S: Source>(alloc: Global, source: &mut S) -> Result<Replay, Outcome>
    ensures { ReadsReplay
        (source_view S.left S.handed S.ends_told S.faults source.old)
        (source_view S.left S.handed S.ends_told S.faults source.new) result }
{
    let script = read_script(alloc, source)?;
    Ok(parse_replay(alloc, &script)?)
}

// What a line asks of the machine. The last three kinds do not come: `parse_replay` refuses a
// script with such a line, since a replay has no commits answered ahead, flushes behind or segment
// switches.
fn machine_line(line: Line<'static>) -> MachineLine
    ensures { result ≡ machine_line_of line.entry.action }
{
    match line.action {
        Action::Insert(body) => MachineLine::Insert(body.into_body()),
        Action::Commit(body) => MachineLine::Commit(body.into_body()),
        Action::Flush => MachineLine::Flush,
        Action::CommitAsync(body) => MachineLine::Commit(body.into_body()),
        Action::WriteBehind => MachineLine::Flush,
        Action::Switch(_) => MachineLine::Flush,
    }
}

fn script_of(alloc: Global, lines: Vec<Line<'static>>) -> Result<Script, AllocError>
    ensures { IfOk result (λ script. script ≡ machine_lines_of lines.entry.items) }
{
    let lines: Vec<MachineLine> = lines.into_iter().map(machine_line).collect(alloc)?;
    Ok(Script::of(lines))
}

fn scripts_of(alloc: Global, backends: Vec<Vec<Line<'static>>>) -> Result<Vec<Script>, AllocError>
    ensures { IfOk result (λ scripts. scripts.items
        ≡ map (λ lines. machine_lines_of lines.items) backends.entry.items) }
{
    let mut scripts = Vec::with_capacity(alloc, backends.len())?;
    for lines in backends {
        scripts.push(script_of(alloc, lines)?)?;
    }
    Ok(scripts)
}

fn line_counts_of(alloc: Global, scripts: &[Script]) -> Result<Vec<u64>, AllocError>
    ensures { IfOk result (λ counts. counts.items ≡ map (λ lines. length lines) scripts.now) }
{
    scripts
        .iter()
        .map(|script| script.lines().len() as u64)
        .collect(alloc)
}

// Takes the memory of all turns.
fn begin(
    alloc: Global,
    options: &ReplayOptions,
    backends: Vec<Vec<Line<'static>>>,
) -> Result<ReplayBegun, AllocError>
    requires in_range { IsShapeInRange options.now.ring_pages options.now.cap_segments }
    requires few { length backends.items ≤ most_backends }
    // The lines do what some script asks for, so the records can be inserted, and none is a switch.
    requires asked { (asked : List (List AskedLine)) × AreBackendsOf asked backends.items }
    ensures { (asked : List (List AskedLine)) → AreBackendsOf asked backends.entry.items
        → IfOk result (λ begun. IsReplayBegun options.now asked begun) }
{
    let setup = setup_asked(
        options.geometry,
        options.ring_pages,
        options.cap_segments,
        backends.len() as u32,
    );
    let scripts = scripts_of(alloc, backends)?;
    let line_counts = line_counts_of(alloc, &scripts)?;
    match Core::new(alloc, setup, scripts, Vec::new(alloc)) {
        Ok(core) => Ok(ReplayBegun { core, line_counts }),
        Err(CoreErr::Memory) => Err(AllocError),
        Err(CoreErr::BadSetup) => unreachable!(),
    }
}

fn take_turns(core: &mut Core, item: Item)
    requires there { All (λ backend. backend < length (core_of core.old).lanes)
        (replicate item.turns item.backend) }
    requires played { IsPlayed core.old }
    ensures plays { (m : Machine) → PlaysMachine (core_of core.old) m
        → PlaysMachine (core_of core.new) (machine_behind m (replicate item.turns item.backend)) }
    ensures played { IsPlayed core.new }
    ensures lanes { length (core_of core.new).lanes ≡ length (core_of core.old).lanes }
{
    for _ in 0..item.turns {
        core.turn(item.backend);
    }
}

fn take_all_turns(core: &mut Core, schedule: &Schedule)
    requires there { All (λ backend. backend < length (core_of core.old).lanes)
        (backends_in_turn schedule.now) }
    requires played { IsPlayed core.old }
    ensures plays { (m : Machine) → PlaysMachine (core_of core.old) m
        → PlaysMachine (core_of core.new) (machine_behind m (backends_in_turn schedule.now)) }
    ensures played { IsPlayed core.new }
{
    for item in schedule.items() {
        take_turns(core, *item);
    }
}

fn pick_of(crash: CrashPick) -> Pick
    ensures { result ≡ pick_of crash }
{
    match crash {
        CrashPick::Old => Pick::Old,
        CrashPick::New => Pick::New,
        CrashPick::Odd => Pick::Odd,
    }
}

fn put_backend<O: Sink>(
    out: &mut O,
    number: u32,
    answered: u32,
    lines: u64,
) -> Result<(), SinkFault>
    ensures { Puts (O.taken out.old) (O.taken out.new) (O.faults out.old) (O.faults out.new)
        (backend_line number answered lines) result }
{
    let mut number_digits = itoa::Buffer::new();
    let mut answered_digits = itoa::Buffer::new();
    let mut lines_digits = itoa::Buffer::new();
    put_all(
        out,
        &[
            b"backend ",
            number_digits.format(number).as_bytes(),
            b" lines ",
            answered_digits.format(answered).as_bytes(),
            b" of ",
            lines_digits.format(lines).as_bytes(),
            b"\n",
        ],
    )
}

fn put_backends<O: Sink>(out: &mut O, core: &Core, line_counts: &[u64]) -> Result<(), SinkFault>
    requires played { IsPlayed core.now }
    requires counted { (m : Machine) × PlaysBackends core.now line_counts.now m }
    ensures { (m : Machine) → PlaysBackends core.now line_counts.now m
        → Puts (O.taken out.old) (O.taken out.new) (O.faults out.old) (O.faults out.new)
        (backend_lines 0 m.backends) result }
{
    for number in 0..core.backends() {
        put_backend(
            out,
            number,
            core.answered(number),
            line_counts[number as usize],
        )?;
    }
    Ok(())
}

// Prints the backends' lines, and behind them the listing of the log that a crash left.
fn print<O: Sink>(
    alloc: Global,
    geometry: Geometry,
    core: &Core,
    line_counts: &[u64],
    left: &mut MemDisk,
    out: &mut O,
) -> Result<u64, DumpErr>
    requires played { IsPlayed core.now }
    requires counted { (m : Machine) × PlaysBackends core.now line_counts.now m }
    requires uncalled { tape_of left.old
        ≡ Some (record { at_first = first_state left.old.first.items; calls = [] }) }
    ensures puts { (m : Machine) → PlaysBackends core.now line_counts.now m
        → PutsBefore (backend_lines 0 m.backends) geometry (first_state left.old.first.items)
        (O.taken out.old) (O.taken out.new) result }
    ensures cause { HasSinkCause (O.faults out.old) (O.faults out.new) result }
{
    put_backends(out, core, line_counts)?;
    let filter = Filter::everything_from(Lsn(geometry.segment_size()));
    dump(alloc, left, geometry, &filter, out)
}

fn outcome_with(listed: Result<u64, DumpErr>, full: bool) -> Outcome
    ensures { result ≡ outcome_with listed full }
{
    match listed {
        // A disk in memory whose reads are not to fail does not fail at one, but `dump` is over
        // any disk and cannot say so.
        Err(DumpErr::Read(ReadErr::Memory | ReadErr::Disk { .. })) => Outcome::OutOfMemory,
        Err(DumpErr::Read(ReadErr::Stopped(stopped))) => Outcome::Stopped(stopped),
        Ok(_) | Err(DumpErr::Sink(_)) if full => Outcome::LogFull,
        Ok(_) => Outcome::Done,
        Err(DumpErr::Sink(_)) => Outcome::SinkFault,
    }
}

// Has each turn of the schedule, crashes, and prints.
fn finish<O: Sink>(
    alloc: Global,
    options: &ReplayOptions,
    begun: ReplayBegun,
    schedule: &Schedule,
    out: &mut O,
) -> Outcome
    requires begun { (asked : List (List AskedLine)) × IsReplayBegun options.now asked begun }
    // Each turn is one of a backend that is there, as of each schedule that is read.
    requires there { All (λ backend. backend < length (core_of begun.core).lanes)
        (backends_in_turn schedule.now) }
    ensures { (before after : SourceView) (meaning : ReplayMeaning)
        → ScriptMeansBy replay_meaning before after (Ok meaning) → meaning.schedule ≡ schedule.now
        → IsReplayBegun options.now meaning.backends begun
        → (tape : Option Tape) (moment faults : ℕ) → ReplayEnds (outside_with before after
        tape moment faults O.taken O.faults out.old out.new) options.now result }
{
    let ReplayBegun {
        mut core,
        line_counts,
    } = begun;
    take_all_turns(&mut core, schedule);
    let Ok(mut left) = core.crash(alloc, pick_of(options.crash)) else {
        return Outcome::OutOfMemory;
    };
    let listed = print(alloc, options.geometry, &core, &line_counts, &mut left, out);
    outcome_with(listed, core.full())
}

// Replays the source's script.
fn play_script<S: Source, O: Sink>(
    alloc: Global,
    options: &ReplayOptions,
    source: &mut S,
    out: &mut O,
) -> Outcome
    requires { IsShapeInRange options.now.ring_pages options.now.cap_segments }
    ensures { (tape : Option Tape) (moment faults : ℕ) → ReplayEnds (outside_with
        (source_view S.left S.handed S.ends_told S.faults source.old)
        (source_view S.left S.handed S.ends_told S.faults source.new)
        tape moment faults O.taken O.faults out.old out.new) options.now result }
{
    let Replay { backends, schedule } = match read_replay(alloc, source) {
        Ok(replay) => replay,
        Err(outcome) => return outcome,
    };
    match begin(alloc, options, backends) {
        Ok(begun) => finish(alloc, options, begun, &schedule, out),
        Err(AllocError) => Outcome::OutOfMemory,
    }
}

/// Replays a script of several backends: reads it to its end, has each turn of its schedule, and
/// lists the log that a crash leaves. All memory of the turns is taken before the first one, and
/// that of the crash's disk before anything is printed. The disk that is handed in is not used: the
/// machine has one of its own.
pub(crate) fn replay<S: Source, O: Sink, D: Disk>(
    alloc: Global,
    options: &ReplayOptions,
    source: &mut S,
    disk: D,
    out: &mut O,
) -> Finished<D>
    requires in_range { IsShapeInRange options.now.ring_pages options.now.cap_segments }
    ensures holds { ReplayHolds (outside_of
        (source_view S.left S.handed S.ends_told S.faults source.old)
        (source_view S.left S.handed S.ends_told S.faults source.new)
        D.tape D.moment D.faults disk result.disk O.taken O.faults out.old out.new)
        options.now result.outcome result.told }
    ensures same_disk { result.disk ≡ disk }
{
    Finished {
        outcome: play_script(alloc, options, source, out),
        disk,
        told: ToldLists::none(alloc),
    }
}
