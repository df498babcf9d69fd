//! pgmap: keeps a map of keys to values by a write-ahead log, and is the smallest program that is
//! built on one. Commands come line by line from the standard input. With one thread each is
//! answered before the next is read; with several they are done by some thousands at a time, and
//! answered in the order of the lines.
#![tactic(auto)]

ghost use Rattle.durable_map.specs.Stores.{IsOpenMap};

mod asked;
mod command;
mod place;
mod scanner;
mod sharing;
mod telling;
mod trouble;
mod word;

use asked::{MapOptions, Wish};
use command::call_of_line;
use durable_map::DurableMap;
use segment_disk::Disk;
use segment_files::{Access, FileDisk};
use sharing::share;
use std::alloc::Global;
use std::io::{BufRead, BufReader, BufWriter, Write};
use std::process::ExitCode;
use std::sync::Wait;
use std::thread::Threads;
use std::{io, process};
use telling::tell;
use trouble::PgmapErr;
use wal_log::Setup;
use word::ShownWord;

fn main(rt: HostRuntime) -> ExitCode {
    match run(&rt, rt) {
        Ok(()) => ExitCode::SUCCESS,
        Err(trouble) => {
            let _ = eprintln!(rt; "pgmap: {trouble}");
            ExitCode::from(trouble.status())
        }
    }
}

fn run<R: Threads + Wait + Sync>(threads: &R, rt: HostRuntime) -> Result<(), PgmapErr> {
    let alloc = rt.alloc();
    let MapOptions { folder, wish } = MapOptions::of_words(rt)?;
    let process = process::id(rt.process());
    let disk = FileDisk::open(rt, alloc, folder.as_str(), process, Access::Write)?;
    let mut map = match DurableMap::open(alloc, disk, setup(wish)) {
        Ok(map) => map,
        Err(fault) => return Err(PgmapErr::of_unopened(fault.kind)),
    };
    match wish {
        Wish::List => list(rt, &map),
        Wish::Obey => obey(threads, rt, &mut map),
        Wish::Share { threads: count } => share(threads, rt, map, count),
    }
}

// Segments of 1 MiB, at most 4 GiB of log, and a pass for each thread.
fn setup(wish: Wish) -> Setup {
    let passes = match wish {
        Wish::Share { threads } => threads,
        Wish::Obey | Wish::List => 1,
    };
    Setup {
        seg_size: 1 << 20,
        ring_pages: 64,
        cap_segments: 4096,
        sysid: 1,
        passes,
    }
}

// Prints each key with its value, in the order of the keys' bytes.
fn list<D: Disk>(rt: HostRuntime, map: &DurableMap<D>) -> Result<(), PgmapErr> {
    let alloc = rt.alloc();
    for (key, value) in map.entries() {
        if let Some(value) = value {
            let line = format!(in alloc;
                "{} {}",
                ShownWord(key.as_slice()),
                ShownWord(value.as_slice())
            )?;
            rt.println(line)?;
        }
    }
    Ok(())
}

// Does the commands that come, up to the first that cannot be done.
fn obey<D: Disk, R: Wait>(
    waiting: &R,
    rt: HostRuntime,
    map: &mut DurableMap<D>,
) -> Result<(), PgmapErr>
    requires { IsOpenMap map.old }
{
    let alloc = rt.alloc();
    let mut out = BufWriter::new(alloc, io::writer(&rt))?;
    let lines = BufReader::new(alloc, rt.reader())?.split(alloc, b'\n');
    for (index, line) in lines.enumerate() {
        let line = line?;
        obey_line(
            waiting,
            alloc,
            &mut out,
            map,
            index as u64 + 1,
            line.as_slice(),
        )?;
    }
    Ok(())
}

// Does a line's command, and prints its answer.
fn obey_line<D: Disk, R: Wait, W: Write>(
    waiting: &R,
    alloc: Global,
    out: &mut W,
    map: &mut DurableMap<D>,
    number: u64,
    line: &[u8],
) -> Result<(), PgmapErr>
    requires { IsOpenMap map.old }
    ensures { IsOpenMap map.new }
{
    match call_of_line(alloc, line) {
        Ok(Some(call)) => {
            tell(out, number, map.answer(waiting, call))?;
            out.flush()?;
            Ok(())
        }
        Ok(None) => Ok(()),
        Err(fault) => Err(PgmapErr::of_line(number, fault)),
    }
}
