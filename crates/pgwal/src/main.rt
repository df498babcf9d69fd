//! pgwal: writes a write-ahead log from a script, and lists it.
#![tactic(auto)]

use backend_cli::{OpenGate, pgwal};
use cli_line::{Command, Request, asked};
use segment_disk::Memory;
use segment_files::{Access, FileDisk, StandardSink, StandardSource};
use std::alloc::AllocError;
use std::fs::File;
use std::io::ErrorKind;
use std::os::fd::AsRawFd;
use std::process::ExitCode;
use std::sync::Wait;
use std::thread::Threads;
use std::{env, fs, io, process};

// The folder of segment files, in the working directory.
const FOLDER: &str = "pg_wal";

// The folder that takes the place of a standard stream that is closed: its reads and writes fail.
const CLOSED: &str = "/";

// Takes the numbers 0 to 2 that are free, so that no segment's file is given one and takes what is
// printed. A stream that was closed then fails: a source's fault, or a sink's.
fn take_free_numbers(rt: HostRuntime) -> io::Result<Vec<File>> {
    let mut taken = Vec::new(rt.alloc());
    for _ in 0..3 {
        let file = fs::open(&rt, CLOSED)?;
        if file.as_raw_fd() > 2 {
            break;
        }
        taken.push(file)?;
    }
    Ok(taken)
}

// The words of the command line; where one of them is no text, none, so that the usage is told.
fn words(rt: HostRuntime) -> Result<Vec<String>, AllocError> {
    let mut words = Vec::new(rt.alloc());
    match env::args(&rt) {
        Ok(given) => {
            for word in given {
                words.push(word)?;
            }
        }
        Err(error) if error.kind() == ErrorKind::OutOfMemory => return Err(AllocError),
        Err(_) => {}
    }
    Ok(words)
}

// What the folder of segment files is opened for: commands that list or send a log, and those that
// touch no file, lock nobody out.
fn access_for(request: &Request) -> Access {
    match request {
        Request::Command(Command::Dump(_) | Command::Redo(_) | Command::Replay(_)) => Access::Read,
        Request::Command(Command::Send(_)) => Access::Sync,
        Request::Command(_) => Access::Write,
        _ => Access::Read,
    }
}

// Runs the program over the system's source, sinks and disk, and answers its exit status.
fn run<R: Threads + Wait + Sync>(threads: &R, rt: HostRuntime) -> Result<u8, Memory> {
    let alloc = rt.alloc();
    let words = words(rt)?;
    let mut source = StandardSource::new(rt.stdin());
    let mut out = StandardSink::new(alloc, rt.stdout())?;
    let mut err = StandardSink::new(alloc, rt.stderr())?;
    let access = access_for(&asked(alloc, &words)?);
    let disk = FileDisk::open(rt, alloc, FOLDER, process::id(rt.process()), access)?;
    let ended = pgwal(
        threads,
        alloc,
        &words,
        &mut source,
        disk,
        &mut out,
        &mut err,
        &OpenGate,
    );
    let mut status = ended.status;
    // What is kept back is written now: where that fails, the sink failed.
    if out.flush().is_err() && status == 0 {
        status = 8;
        let _ = rt.eprintln("pgwal: sink fault");
    }
    let _ = err.flush();
    Ok(status)
}

fn main(rt: HostRuntime) -> ExitCode {
    // They stay taken until the end.
    let _taken = match take_free_numbers(rt) {
        Ok(taken) => taken,
        Err(error) if error.kind() == ErrorKind::OutOfMemory => return out_of_memory(rt),
        Err(_) => {
            let _ = rt.eprintln("pgwal: source fault");
            return ExitCode::from(7);
        }
    };
    match run(&rt, rt) {
        Ok(status) => ExitCode::from(status),
        Err(Memory) => out_of_memory(rt),
    }
}

fn out_of_memory(rt: HostRuntime) -> ExitCode {
    let _ = rt.eprintln("pgwal: out of memory");
    ExitCode::from(1)
}
