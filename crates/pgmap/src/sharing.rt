//! Commands that several threads do. Some thousands of lines are read, each is left with the lane
//! of its key, all lanes work side by side, and then each line is answered, in the lines' order. So
//! what is printed is durable, and a line is answered once the lines read with it are done.

ghost use Rattle.durable_map.specs.Sharing.{IsSharedMap};
ghost use Rattle.durable_map.specs.Stores.{IsOpenMap};

use crate::command::call_of_line;
use crate::telling::tell;
use crate::trouble::PgmapErr;
use durable_map::{DurableMap, SharedMap};
use segment_disk::Disk;
use std::io;
use std::io::{BufRead, BufReader, BufWriter, Write};
use std::sync::Wait;
use std::thread::Threads;

// How many lines are done at a time.
const BATCH: usize = 4096;

/// Does the commands that come by so many threads, up to the first line that has no meaning, or
/// whose answer is no Ok; the lines that were read with that one are done.
pub fn share<D: Disk + Drop + Send, R: Threads + Wait + Sync>(
    threads: &R,
    rt: HostRuntime,
    map: DurableMap<D>,
    count: u32,
) -> Result<(), PgmapErr>
    requires { IsOpenMap map }
{
    let alloc = rt.alloc();
    let mut map = map.share(count as usize)?;
    let mut out = BufWriter::new(alloc, io::writer(&rt))?;
    let mut asked = Vec::new(alloc);
    let lines = BufReader::new(alloc, rt.reader())?.split(alloc, b'\n');
    for (index, line) in lines.enumerate() {
        let line = line?;
        let left = leave_line(rt, &mut map, &mut asked, index as u64 + 1, line.as_slice());
        if let Err(trouble) = left {
            answer_all(threads, &mut out, &mut map, &mut asked)?;
            return Err(trouble);
        }
        answer_full(threads, &mut out, &mut map, &mut asked)?;
    }
    answer_all(threads, &mut out, &mut map, &mut asked)
}

// Leaves a line's command with the lane of its key, and notes its number and which lane that is.
fn leave_line<D: Disk>(
    rt: HostRuntime,
    map: &mut SharedMap<D>,
    asked: &mut Vec<(u64, usize)>,
    number: u64,
    line: &[u8],
) -> Result<(), PgmapErr>
    requires { IsSharedMap map.old }
    ensures { IsSharedMap map.new }
{
    let call = match call_of_line(rt.alloc(), line) {
        Ok(Some(call)) => call,
        Ok(None) => return Ok(()),
        Err(fault) => return Err(PgmapErr::of_line(number, fault)),
    };
    let lane = map.ask(call)?;
    asked.push((number, lane))?;
    Ok(())
}

// Does the lines that were left with their lanes, and answers them.
fn answer_all<D: Disk + Send, R: Threads + Wait + Sync, W: Write>(
    threads: &R,
    out: &mut W,
    map: &mut SharedMap<D>,
    asked: &mut Vec<(u64, usize)>,
) -> Result<(), PgmapErr>
    requires { IsSharedMap map.old }
    ensures { IsSharedMap map.new }
{
    map.work(threads);
    let told = tell_all(out, map, asked.as_slice());
    asked.clear();
    out.flush()?;
    told
}

// Puts what the lines were told, up to the first that cannot be done.
fn tell_all<D: Disk, W: Write>(
    out: &mut W,
    map: &mut SharedMap<D>,
    asked: &[(u64, usize)],
) -> Result<(), PgmapErr>
    requires { IsSharedMap map.old }
    ensures { IsSharedMap map.new }
{
    for (number, lane) in asked {
        match map.told(*lane) {
            Some(told) => tell(out, *number, told)?,
            None => return Err(PgmapErr::Memory),
        }
    }
    Ok(())
}

// .. once these are enough.
fn answer_full<D: Disk + Send, R: Threads + Wait + Sync, W: Write>(
    threads: &R,
    out: &mut W,
    map: &mut SharedMap<D>,
    asked: &mut Vec<(u64, usize)>,
) -> Result<(), PgmapErr>
    requires { IsSharedMap map.old }
    ensures { IsSharedMap map.new }
{
    if asked.len() < BATCH {
        return Ok(());
    }
    answer_all(threads, out, map, asked)
}
