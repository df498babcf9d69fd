//! Threads commit or insert side by side on one log, for what they do in a second to be measured
//! (bench/commits.py, bench/inserts.py); or turns of the machine are played (bench/turns.py).
#![tactic(auto)]

mod asked;
mod log;
mod trouble;
mod turns;

use asked::{Medium, Options, Task};
use log::{Measurement, measured};
use segment_disk::MemDisk;
use segment_files::{Access, FileDisk};
use std::process;
use std::process::ExitCode;
use std::sync::Wait;
use std::thread::Threads;
use trouble::Trouble;
use turns::print_turns;

// The folder of segment files, in the working directory.
const FOLDER: &str = "pg_wal";

fn main(rt: HostRuntime) -> ExitCode {
    match run(&rt, rt) {
        Ok(()) => ExitCode::SUCCESS,
        Err(trouble) => {
            let _ = eprintln!(rt; "bench_log: {trouble}");
            ExitCode::from(1)
        }
    }
}

fn run<R: Threads + Wait + Sync>(threads: &R, rt: HostRuntime) -> Result<(), Trouble> {
    match Task::of_words(rt)? {
        Task::Turns { kinds } => Ok(print_turns(rt, kinds)?),
        Task::Log(asked) => work(threads, rt, asked),
    }
}

fn work<R: Threads + Wait + Sync>(
    threads: &R,
    rt: HostRuntime,
    asked: Options,
) -> Result<(), Trouble> {
    let alloc = rt.alloc();
    let measured = match asked.place {
        Medium::Memory => measured_in_memory(threads, rt, asked)?,
        Medium::Files => {
            let disk = FileDisk::open(rt, alloc, FOLDER, process::id(rt.process()), Access::Write)?;
            measured(threads, rt, alloc, disk, asked)?
        }
    };
    println!(rt; "{} {}", asked.work.name(), measured.done)?;
    if asked.timed {
        println!(rt; "microseconds {}", measured.time.as_micros())?;
    }
    if measured.done == asked.all() {
        Ok(())
    } else {
        Err(Trouble::Refused)
    }
}

fn measured_in_memory<R: Threads + Wait + Sync>(
    threads: &R,
    rt: HostRuntime,
    asked: Options,
) -> Result<Measurement, Trouble> {
    let alloc = rt.alloc();
    let (segments, calls) = (asked.segments(), asked.calls());
    let disk = MemDisk::new(alloc, segments, calls, Vec::new(alloc), Vec::new(alloc))?;
    measured(threads, rt, alloc, disk, asked)
}
