ghost use Rattle.std.specs.Prelude.{◌≡◌, ℕ, List, [], map, string_bytes};
ghost use Rattle.waldump_text.specs.Put.{joined};
ghost use Rattle.cli_line.specs.Given.{IsInRange};
ghost use Rattle.run_script.specs.Asked.{AskedLine};
ghost use Rattle.cli_line.specs.Asking.{AsksInRange, asks};
ghost use Rattle.cli_line.specs.Texts.{help, version};
ghost use Rattle.backend_cli.specs.Appending.{AppendHeadline};
ghost use Rattle.backend_cli.specs.Asked.{AsksAppend, AsksBackends};
ghost use Rattle.backend_cli.specs.Headline.{Headline};
ghost use Rattle.backend_cli.specs.Outcome.{status_of, outcome_text};
ghost use Rattle.backend_cli.specs.Outside.{SourceView, Took, disk_seen, outside_of, source_view};
ghost use Rattle.backend_cli.specs.Obeying.{AsksNoCommand, AsksReplay, AsksRun, IsExplained, Obeys, ObeysInMemory};
ghost use Rattle.backend_cli.specs.declared.outcome.Outcome.{Outcome};

use crate::append::append;
use crate::dump::list;
use crate::generate::run_generated;
use crate::outcome::Outcome;
use crate::receive::receive_log;
use crate::redo::list_redone;
use crate::replay::replay;
use crate::run::{Finished, run};
use crate::send::send_log;
use crate::told::ToldLists;
use cli_line::{Command, Request, asked, help_text, version_text};
use run_backends::Gate;
use segment_disk::{Disk, Sink, Source};
use std::alloc::{AllocError, Global};
use std::sync::Wait;
use std::thread::Threads;
use waldump_text::put;

/// How the program ended: its exit status, the disk, and what each line of each backend was told
/// (no list where no log was opened).
#[derive(Drop)]
pub struct Ended<D> {
    pub status: u8,
    pub disk: D,
    pub told: ToldLists,
}

// Prints a text for who asks for it: the words are no command, and tell so by their status.
fn explain<O: Sink, D: Disk>(alloc: Global, text: &str, disk: D, out: &mut O) -> Finished<D>
    ensures explained { (source : SourceView) → IsExplained text.now (outside_of source source
        D.tape D.moment D.faults disk result.disk O.taken O.faults out.old out.new)
        result.outcome result.told }
    ensures same_disk { result.disk ≡ disk }
{
    // A fault while it is printed changes no status.
    let _ = put(out, text.as_bytes());
    Finished {
        outcome: Outcome::Usage,
        disk,
        told: ToldLists::none(alloc),
    }
}

// Does what a command asks for, and says how it ended.
fn obey_command<R: Threads + Wait + Sync, S: Source, O: Sink, D: Disk + Send, G: Gate + Sync>(
    rt: &R,
    alloc: Global,
    command: &Command,
    script: &mut S,
    disk: D,
    out: &mut O,
    gate: &G,
) -> Finished<D>
    requires in_range { IsInRange command.now }
    ensures obeys { Obeys (disk_seen D.tape D.moment D.faults disk result.disk)
        (Request.Command command.now) (outside_of
        (source_view S.left S.handed S.ends_told S.faults script.old)
        (source_view S.left S.handed S.ends_told S.faults script.new)
        D.tape D.moment D.faults disk result.disk O.taken O.faults out.old out.new)
        result.outcome result.told }
    ensures as_handed_in { AsksRun (Request.Command command.now)
        → result.outcome ≡ Outcome.OutOfMemory → result.disk ≡ disk }
    ensures replayed { AsksReplay (Request.Command command.now) → result.disk ≡ disk }
{
    match command {
        Command::Run(options) => run(rt, alloc, options, script, disk, out, gate),
        Command::Append(options) => append(rt, alloc, options, script, disk, out, gate),
        Command::Gen(options) => run_generated(rt, alloc, options, disk, out, gate),
        Command::Replay(options) => replay(alloc, options, script, disk, out),
        Command::Dump(options) => list(alloc, options, disk, out),
        Command::Redo(options) => list_redone(alloc, options, disk, out),
        Command::Send(options) => send_log(alloc, options, disk, out),
        Command::Receive(options) => receive_log(alloc, options, script, disk, out),
    }
}

// Does what is asked for, and says how it ended.
fn obey<R: Threads + Wait + Sync, S: Source, O: Sink, D: Disk + Send, G: Gate + Sync>(
    rt: &R,
    alloc: Global,
    request: Request,
    script: &mut S,
    disk: D,
    out: &mut O,
    gate: &G,
) -> Finished<D>
    requires in_range { AsksInRange request }
    ensures obeys { Obeys (disk_seen D.tape D.moment D.faults disk result.disk)
        request (outside_of
        (source_view S.left S.handed S.ends_told S.faults script.old)
        (source_view S.left S.handed S.ends_told S.faults script.new)
        D.tape D.moment D.faults disk result.disk O.taken O.faults out.old out.new)
        result.outcome result.told }
    ensures as_handed_in { AsksRun request → result.outcome ≡ Outcome.OutOfMemory
        → result.disk ≡ disk }
    ensures no_command { AsksNoCommand request → result.disk ≡ disk }
    ensures replayed { AsksReplay request → result.disk ≡ disk }
{
    match &request {
        Request::Nothing => Finished {
            outcome: Outcome::Usage,
            disk,
            told: ToldLists::none(alloc),
        },
        Request::Help => explain(alloc, help_text(), disk, out),
        Request::Version => explain(alloc, version_text(), disk, out),
        Request::Command(command) => obey_command(rt, alloc, command, script, disk, out, gate),
    }
}

// Does what the words ask for, where memory suffices to read them.
fn obey_words<R: Threads + Wait + Sync, S: Source, O: Sink, D: Disk + Send, G: Gate + Sync>(
    rt: &R,
    alloc: Global,
    words: &[String],
    script: &mut S,
    disk: D,
    out: &mut O,
    gate: &G,
) -> Finished<D>
    ensures obeys { ObeysInMemory (disk_seen D.tape D.moment D.faults disk result.disk)
        (asks (map (λ w. string_bytes w) words.now)) (outside_of
        (source_view S.left S.handed S.ends_told S.faults script.old)
        (source_view S.left S.handed S.ends_told S.faults script.new)
        D.tape D.moment D.faults disk result.disk O.taken O.faults out.old out.new)
        result.outcome result.told }
    ensures as_handed_in { AsksRun (asks (map (λ w. string_bytes w) words.now))
        → result.outcome ≡ Outcome.OutOfMemory → result.disk ≡ disk }
    ensures no_command { AsksNoCommand (asks (map (λ w. string_bytes w) words.now))
        → result.disk ≡ disk }
    ensures replayed { AsksReplay (asks (map (λ w. string_bytes w) words.now))
        → result.disk ≡ disk }
{
    match asked(alloc, words) {
        Ok(request) => obey(rt, alloc, request, script, disk, out, gate),
        Err(AllocError) => Finished {
            outcome: Outcome::OutOfMemory,
            disk,
            told: ToldLists::none(alloc),
        },
    }
}

/// Does what the words of a command line ask for.
///
/// `words` begin with the program's name. Standard output goes to `out`; `err` takes the line of a
/// status that is not 0. The backends of a run are threads of `rt`, one for each where it can be
/// made; a replay has its backends' turns one after another.
pub fn pgwal<R: Threads + Wait + Sync, S: Source, O: Sink, E: Sink, D: Disk + Send, G: Gate + Sync>(
    rt: &R,
    alloc: Global,
    words: &[String],
    script: &mut S,
    disk: D,
    out: &mut O,
    err: &mut E,
    gate: &G,
) -> Ended<D>
    // The headline: if the words ask for a run, of a script or of lines that are made, and its log
    // was opened (if it was not, no line is told anything), each line has its answer; the records
    // that the run reserved follow each other without a gap, each backend's in script order; and
    // what a crash at any moment leaves reads as a prefix of them with every commit that was told
    // by then.
    ensures headline { (size : ℕ) (lines : List (List AskedLine))
        → AsksBackends (asks (map (λ w. string_bytes w) words.now))
        (source_view S.left S.handed S.ends_told S.faults script.old)
        (source_view S.left S.handed S.ends_told S.faults script.new) size lines
        → (result.told ≡ [] → ⊥)
        → Headline size (D.moment disk) lines result.told (D.tape disk) (D.tape result.disk) }
    // The headline of a run that goes on with the log that is there, of the whole log: what was
    // found, and behind it what the run reserved, from the moment on at which the disk was handed
    // in.
    ensures append_headline { (size : ℕ) (lines : List (List AskedLine))
        → AsksAppend (asks (map (λ w. string_bytes w) words.now))
        (source_view S.left S.handed S.ends_told S.faults script.old)
        (source_view S.left S.handed S.ends_told S.faults script.new) size lines
        → (result.told ≡ [] → ⊥)
        → AppendHeadline size (D.moment disk) lines result.told (D.tape disk)
        (D.tape result.disk) }
    // The status and its line on `err` are those of one outcome; for it the command's promises
    // hold: of `run` told, the headline, no late receipt, whole, printed, and how it ends; so of
    // one that goes on with a log, with how that was settled; of `replay` the machine behind its
    // schedule, what the crash leaves, and the lines and the listing of it; of `dump` listed; of
    // `redo` redone; of `send` sent; of `receive` the copy and what it took; of words that ask for
    // help its text, and of others that are no command nothing. Or memory ran out before the
    // command was known, with the disk as it came, and nothing read or printed.
    ensures obeys { (outcome : Outcome) × (result.status ≡ status_of outcome)
        × Took (E.taken err.old) (E.taken err.new) (E.faults err.old) (E.faults err.new)
        (joined (outcome_text outcome))
        × ObeysInMemory (disk_seen D.tape D.moment D.faults disk result.disk)
        (asks (map (λ w. string_bytes w) words.now)) (outside_of
        (source_view S.left S.handed S.ends_told S.faults script.old)
        (source_view S.left S.handed S.ends_told S.faults script.new)
        D.tape D.moment D.faults disk result.disk O.taken O.faults out.old out.new)
        outcome result.told }
    // A run that begins a log and ends for want of memory hands the disk back as it came.
    ensures as_handed_in { AsksRun (asks (map (λ w. string_bytes w) words.now)) → result.status ≡ 1
        → result.disk ≡ disk }
    // Words that are no command leave the disk as it came.
    ensures no_command { AsksNoCommand (asks (map (λ w. string_bytes w) words.now))
        → result.disk ≡ disk }
    // A replay leaves the disk as it came, however it ends.
    ensures replayed { AsksReplay (asks (map (λ w. string_bytes w) words.now))
        → result.disk ≡ disk }
{
    let Finished {
        outcome,
        disk,
        told,
    } = obey_words(rt, alloc, words, script, disk, out, gate);
    // A fault while the status is told changes no status.
    let _ = outcome.tell(err);
    Ended {
        status: outcome.status(),
        disk,
        told,
    }
}
