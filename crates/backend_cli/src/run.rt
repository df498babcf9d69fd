ghost use Rattle.std.specs.Prelude.{◌≡◌, ◌≤◌, ◌↔◌, ◌^◌, ◌++◌, ℕ, All, IfSome, List, [], Ok, Option, IsTrue, false, length, not, vec_capacity, vec_len};
ghost use Rattle.cli_line.specs.Given.{IsShapeInRange};
ghost use Rattle.run_script.specs.Asked.{AskedLine};
ghost use Rattle.run_script.specs.Replay.{most_backends};
ghost use Rattle.waldump_text.specs.Put.{Puts};
ghost use Rattle.machine_state.specs.Opened.{first_view};
ghost use Rattle.machine_state.specs.Words.{found_end};
ghost use Rattle.wal_rule.specs.Passes.{view_of_pass};
ghost use Rattle.wal_rule.specs.Tables.{began_of_table};
ghost use Rattle.wal_log.specs.Logs.{IsPassOfLog, opening_of_log, setup_of_log, table_of};
ghost use Rattle.wal_log.specs.declared.opening.OpenFaultKind.TheVariants.{BadSetup};
ghost use Rattle.run_laws.specs.Told.{SomeTold, SomeAnswer, IsFullAnswer};
ghost use Rattle.run_laws.specs.Counts.{all_commits_of, commits_of, reserved_count};
ghost use Rattle.run_laws.specs.Counted.{all_reserved_count};
ghost use Rattle.run_backends.specs.Backends.{lists_of};
ghost use Rattle.backend_cli.specs.Printing.{EndsBehind, HasAnswers, Summarizes, printed_text};
ghost use Rattle.backend_cli.specs.Concluding.{Concludes, HasPlayedOut, IsConcluded};
ghost use Rattle.backend_cli.specs.Run.{PlayHolds, RunHolds};
ghost use Rattle.backend_cli.specs.Setups.{run_setup};
ghost use Rattle.backend_cli.specs.Outside.{SourceView, outside_of, source_view};
ghost use Rattle.backend_cli.specs.Prepared.{IsPreparedFor, Prepares, ReadsBackends};
ghost use Rattle.backend_cli.specs.Outcome.{outcome_unopened};
ghost use Rattle.backend_cli.specs.Reading.{ScriptMeans};

use crate::outcome::Outcome;
use crate::printing::{Summary, put_told_lists};
use crate::reading::read_script;
use crate::setup::run_setup;
use crate::told::ToldLists;
use bumpalo::Bump;
use byte_position::Geometry;
use cli_line::{RunOptions, ScriptRunOptions};
use run_backends::{AnsweredLines, Gate, PlayedRun, Room, play_backends};
use run_laws::KeptTold;
use run_script::{Line, parse_run};
use segment_disk::{Disk, Sink, Source};
use std::alloc::{AllocError, Global};
use std::sync::Wait;
use std::thread::Threads;
use wal_log::{Closed, OpenFault, OpenFaultKind, Pass, Wal};
use wal_types::Lsn;
use waldump_text::SinkFault;

/// How a command ended: its outcome, the disk, and what its lines were told.
#[derive(Drop)]
pub(crate) struct Finished<D> {
    pub outcome: Outcome,
    pub disk: D,
    pub told: ToldLists,
}

fn backends_of<'a, S: Source>(
    alloc: Global,
    arena: &'a Bump,
    writer: Option<u32>,
    source: &mut S,
) -> Result<Vec<Vec<Line<'a>>>, Outcome>
    ensures { ReadsBackends writer
        (source_view S.left S.handed S.ends_told S.faults source.old)
        (source_view S.left S.handed S.ends_told S.faults source.new) result }
{
    let script = read_script(alloc, source)?;
    Ok(parse_run(alloc, arena, &script, writer)?)
}

// Reads the script, with its records' bodies in the arena, and takes all room that its backends
// need.
pub(crate) fn prepare<'a, S: Source>(
    alloc: Global,
    arena: &'a Bump,
    writer: Option<u32>,
    source: &mut S,
) -> Result<Room<'a>, Outcome>
    ensures { Prepares writer
        (source_view S.left S.handed S.ends_told S.faults source.old)
        (source_view S.left S.handed S.ends_told S.faults source.new) result }
{
    let backends = backends_of(alloc, arena, writer, source)?;
    match Room::of(alloc, backends) {
        Ok(room) => Ok(room),
        Err(AllocError) => Err(Outcome::OutOfMemory),
    }
}

// How many lines reserved a record.
fn records_in(told: &[KeptTold]) -> u64
    ensures { result ≡ reserved_count told.now }
{
    let mut count = 0;
    for answer in told {
        if answer.reserved().is_some() {
            count += 1;
        }
    }
    count
}

// How many lines were told that their commit is durable.
fn commits_in(told: &[KeptTold]) -> u64
    ensures { result ≡ commits_of told.now }
{
    let mut count = 0;
    for answer in told {
        if answer.is_hard() {
            count += 1;
        }
    }
    count
}

// How many lines of all backends reserved a record.
fn all_records_in(backends: &[AnsweredLines]) -> u64
    requires { all_reserved_count (lists_of backends.now) ≤ 2 ^ 42 }
    ensures { result ≡ all_reserved_count (lists_of backends.now) }
{
    let mut count = 0;
    for backend in backends {
        count += records_in(&backend.told);
    }
    count
}

// How many of them were told that their commit is durable.
fn all_commits_in(backends: &[AnsweredLines]) -> u64
    requires { all_reserved_count (lists_of backends.now) ≤ 2 ^ 42 }
    ensures { result ≡ all_commits_of (lists_of backends.now) }
{
    let mut count = 0;
    for backend in backends {
        count += commits_in(&backend.told);
    }
    count
}

// Whether a line of a backend found the log full.
fn has_found_full(backend: &AnsweredLines) -> bool
    ensures { IsTrue result ↔ SomeAnswer IsFullAnswer backend.now.told.items }
{
    backend.told.iter().any(|answer| answer.is_full())
}

// Whether a line of some backend found the log full.
fn found_full(backends: &[AnsweredLines]) -> bool
    ensures full { IsTrue result → SomeTold IsFullAnswer (lists_of backends.now) }
    ensures room { result ≡ false → SomeTold IsFullAnswer (lists_of backends.now) → ⊥ }
{
    backends.iter().any(has_found_full)
}

// What the summary says of a log that ended at `from` and now ends at `end`, and of what its lines
// were told.
fn summary_of(geometry: Geometry, from: Lsn, end: Lsn, backends: &[AnsweredLines]) -> Summary
    requires few { all_reserved_count (lists_of backends.now) ≤ 2 ^ 42 }
    requires ends { (place used : ℕ) × EndsBehind geometry place used from.0 end.0 }
    ensures { (place used : ℕ) → EndsBehind geometry place used from.0 end.0
        → Summarizes geometry place used (lists_of backends.now) result }
{
    Summary {
        records: all_records_in(backends),
        commits: all_commits_in(backends),
        bytes: geometry.position_of(end) - geometry.position_of(from),
        end,
        segments: (end.0 - 1) / geometry.segment_size(),
    }
}

// Prints what a run told, and its summary.
fn print<O: Sink>(
    out: &mut O,
    list: bool,
    backends: &[AnsweredLines],
    summary: &Summary,
) -> Result<(), SinkFault>
    requires answered { All HasAnswers backends.now }
    requires few { length backends.now ≤ most_backends }
    ensures { Puts (O.taken out.old) (O.taken out.new) (O.faults out.old) (O.faults out.new)
        (printed_text list backends.now summary.now) result }
{
    if list {
        put_told_lists(out, backends)?;
    }
    summary.put(out)
}

// Prints what a run told, and its summary, behind a text, unless that could not be printed.
fn print_behind<O: Sink>(
    out: &mut O,
    begun: Result<(), SinkFault>,
    list: bool,
    backends: &[AnsweredLines],
    summary: &Summary,
) -> Result<(), SinkFault>
    requires answered { All HasAnswers backends.now }
    requires few { length backends.now ≤ most_backends }
    ensures { (taken : Option (List ℕ)) (faults : ℕ) (text : List ℕ)
        → Puts taken (O.taken out.old) faults (O.faults out.old) text begun
        → Puts taken (O.taken out.new) faults (O.faults out.new)
        (text ++ printed_text list backends.now summary.now) result }
{
    match begun {
        Ok(()) => print(out, list, backends, summary),
        Err(fault) => Err(fault),
    }
}

// How a run that opened the log concludes: the first of its causes.
fn conclusion(down: Option<u64>, backends: &[AnsweredLines], is_printed: bool) -> Outcome
    ensures { Concludes down (lists_of backends.now) (not is_printed) result }
{
    if down.is_some() {
        Outcome::DiskFault
    } else if found_full(backends) {
        Outcome::LogFull
    } else if is_printed {
        Outcome::Done
    } else {
        Outcome::SinkFault
    }
}

// How a run ends whose log was not opened.
fn outcome_unopened(kind: OpenFaultKind) -> Outcome
    requires { kind ≡ BadSetup → ⊥ }
    ensures { result ≡ outcome_unopened kind }
{
    match kind {
        OpenFaultKind::BadSetup => unreachable!(),
        OpenFaultKind::Memory => Outcome::OutOfMemory,
        OpenFaultKind::Disk { .. } => Outcome::DiskFault,
        OpenFaultKind::NotEmpty => Outcome::NotEmpty,
        OpenFaultKind::Beyond { .. } => Outcome::BeyondCap,
        OpenFaultKind::Foreign(stopped) => Outcome::Stopped(stopped),
    }
}

/// The end of a run whose log was not opened: the disk comes back.
pub(crate) fn unopened<D>(alloc: Global, fault: OpenFault<D>) -> Finished<D>
    requires { fault.kind ≡ BadSetup → ⊥ }
    ensures outcome { result.outcome ≡ outcome_unopened fault.kind }
    ensures disk { result.disk ≡ fault.disk }
    ensures told { result.told ≡ [] }
{
    let OpenFault { disk, kind } = fault;
    Finished {
        outcome: outcome_unopened(kind),
        disk,
        told: ToldLists::none(alloc),
    }
}

// A disk's moment is the number of its counted calls: a law of its trait.
pub(crate) fn calls_are_counted<D: Disk>(disk: &D)
    ensures { IfSome (D.tape disk.now) (λ t. D.moment disk.now ≡ length t.calls) }
{}

pub(crate) fn run_prepared<R: Threads + Wait + Sync, O: Sink, D: Disk + Send, G: Gate + Sync>(
    rt: &R,
    alloc: Global,
    options: &RunOptions,
    room: Room<'_>,
    disk: D,
    out: &mut O,
    gate: &G,
) -> Finished<D>
    requires in_range { IsShapeInRange options.now.ring_pages options.now.cap_segments }
    requires prepared { (script : List (List AskedLine)) × IsPreparedFor script room }
    ensures holds { (before after : SourceView) (script : List (List AskedLine))
        → IsPreparedFor script room.entry → PlayHolds (outside_of before after
        D.tape D.moment D.faults disk result.disk O.taken O.faults out.old out.new)
        options.now result.outcome script result.told }
    ensures as_handed_in { result.outcome ≡ Outcome.OutOfMemory → result.disk ≡ disk }
{
    calls_are_counted(&disk);
    let setup = run_setup(options, &room);
    match Wal::open(alloc, disk, setup) {
        Err(fault) => unopened(alloc, fault),
        Ok((log, first)) => {
            let opened = OpenedLog {
                log,
                first,
                end: Lsn(options.geometry.segment_size()),
                begun: Ok(()),
            };
            play_opened(rt, options, opened, room, out, gate)
        }
    }
}

/// A log that was opened, with its first pass.
pub(crate) struct OpenedLog<D: Disk> {
    pub log: Wal<D>,
    pub first: Pass,
    /// Where it ended when it was opened.
    pub end: Lsn,
    /// What came of printing a text then.
    pub begun: Result<(), SinkFault>,
}

/// Plays the lines of all backends over a log that was opened, prints what they were told, and
/// tells how that ended.
pub(crate) fn play_opened<R: Threads + Wait + Sync, O: Sink, D: Disk + Send, G: Gate + Sync>(
    rt: &R,
    options: &RunOptions,
    opened: OpenedLog<D>,
    room: Room<'_>,
    out: &mut O,
    gate: &G,
) -> Finished<D>
    requires pass { IsPassOfLog opened.log opened.first }
    requires fresh { view_of_pass opened.first ≡ first_view (opening_of_log opened.log) }
    requires setup { setup_of_log opened.log
        ≡ run_setup options.now (vec_len room.backends) }
    requires end { opened.end.0 ≡ found_end (opening_of_log opened.log) }
    requires counted { IfSome (began_of_table D.tape (table_of opened.log))
        (λ t. (opening_of_log opened.log).moment ≡ length t.calls) }
    requires prepared { (script : List (List AskedLine)) × IsPreparedFor script room }
    ensures { (script : List (List AskedLine)) → IsPreparedFor script room.entry
        → HasPlayedOut D.tape D.moment D.faults opened.log options.now script opened.begun
        (O.taken out.old) (O.taken out.new) (O.faults out.old) (O.faults out.new)
        result.outcome result.disk result.told }
{
    let OpenedLog {
        log,
        first,
        end,
        begun,
    } = opened;
    let start = Lsn(options.geometry.segment_size());
    let played = play_backends(rt, log, first, room, gate, start);
    conclude(options, end, begun, played, out)
}

// Prints what a run told behind a text, and tells how it ended. `from` is where the log ended
// before.
fn conclude<O: Sink, D>(
    options: &RunOptions,
    from: Lsn,
    begun: Result<(), SinkFault>,
    played: PlayedRun<'_, D>,
    out: &mut O,
) -> Finished<D>
    requires answered { All HasAnswers played.backends.items }
    requires few_backends { vec_len played.backends ≤ most_backends }
    requires few { all_reserved_count (lists_of played.backends.items) ≤ 2 ^ 42 }
    requires none { played.told.items ≡ [] }
    requires room { vec_len played.backends ≤ vec_capacity played.told }
    requires ends { (place used : ℕ)
        × EndsBehind options.now.geometry place used from.0 played.closed.end.0 }
    ensures concluded { (place used : ℕ) (taken : Option (List ℕ)) (faults : ℕ) (text : List ℕ)
        → EndsBehind options.now.geometry place used from.0 played.entry.closed.end.0
        → Puts taken (O.taken out.old) faults (O.faults out.old) text begun
        → IsConcluded options.now.geometry place used options.now.list text
        played.entry.backends.items played.entry.closed.down taken (O.taken out.new) faults
        (O.faults out.new) result.outcome }
    ensures disk { result.disk ≡ played.entry.closed.disk }
    ensures told { result.told ≡ lists_of played.entry.backends.items }
{
    let PlayedRun {
        closed,
        backends,
        told,
    } = played;
    let Closed { disk, end, down } = closed;
    let summary = summary_of(options.geometry, from, end, &backends);
    let is_printed = print_behind(out, begun, options.list, &backends, &summary).is_ok();
    Finished {
        outcome: conclusion(down, &backends, is_printed),
        disk,
        told: ToldLists::of_backends(told, backends),
    }
}

/// Runs a script. In this order, so that a refusal leaves the disk as it came: the script is read
/// to its end and understood, all memory is taken, the log is opened (one read, no counted call),
/// the lines of all backends are done side by side, all is flushed to the log's end, and what was
/// told is printed. So want of memory and a refused script come before the first device call, and
/// a sink's fault loses only what is printed.
pub(crate) fn run<R: Threads + Wait + Sync, S: Source, O: Sink, D: Disk + Send, G: Gate + Sync>(
    rt: &R,
    alloc: Global,
    options: &ScriptRunOptions,
    source: &mut S,
    disk: D,
    out: &mut O,
    gate: &G,
) -> Finished<D>
    requires in_range { IsShapeInRange options.now.run.ring_pages options.now.run.cap_segments }
    ensures holds { RunHolds (outside_of
        (source_view S.left S.handed S.ends_told S.faults source.old)
        (source_view S.left S.handed S.ends_told S.faults source.new)
        D.tape D.moment D.faults disk result.disk O.taken O.faults out.old out.new)
        options.now result.outcome result.told }
    ensures as_handed_in { result.outcome ≡ Outcome.OutOfMemory → result.disk ≡ disk }
{
    let arena = Bump::new(alloc);
    match prepare(alloc, &arena, options.writer, source) {
        Ok(room) => run_prepared(rt, alloc, &options.run, room, disk, out, gate),
        Err(outcome) => Finished {
            outcome,
            disk,
            told: ToldLists::none(alloc),
        },
    }
}
