//! Rows played one after another.

use crate::directive::{Change, Directive, NewDisk, Stream, Telling};
use crate::halt::Halt;
use crate::pages::{CALLS, copy_of, peek, poke, seal, without};
use crate::words::digits_of;
use backend_cli::{Ended, OpenGate, pgwal};
use segment_disk::{Disk, MemDisk, MemSink, MemSource, Pick};
use std::alloc::{AllocError, Global};
use std::mem;
use std::sync::Wait;
use std::thread::Threads;
use wal_crc32c::Crc;

// How many bytes a command may print: a record of a segment has two megabytes of digits.
const MOST_PRINTED: usize = 8 << 20;

// What is said of the next command's source and sinks: the calls that fail, and how many bytes are
// taken.
#[derive(Drop)]
struct Streams {
    source_fails: Vec<u64>,
    out_fails: Vec<u64>,
    err_fails: Vec<u64>,
    out_room: usize,
}

impl Streams {
    fn sound(alloc: Global) -> Streams {
        Streams {
            source_fails: Vec::new(alloc),
            out_fails: Vec::new(alloc),
            err_fails: Vec::new(alloc),
            out_room: MOST_PRINTED,
        }
    }

    fn fail(&mut self, stream: Stream, calls: Vec<u64>) {
        match stream {
            Stream::Source => self.source_fails = calls,
            Stream::Out => self.out_fails = calls,
            Stream::Err => self.err_fails = calls,
        }
    }
}

/// The disk, what the next command is played over, and the transcript.
#[derive(Drop)]
pub struct RowPlayer {
    alloc: Global,
    // None at first, and where the kept disk goes on.
    disk: Option<MemDisk>,
    kept: Option<MemDisk>,
    script: Vec<u8>,
    // What the last command printed of which only the size was told.
    sent: Vec<u8>,
    streams: Streams,
    transcript: Vec<u8>,
}

impl RowPlayer {
    pub fn new(alloc: Global) -> RowPlayer {
        RowPlayer {
            alloc,
            disk: None,
            kept: None,
            script: Vec::new(alloc),
            sent: Vec::new(alloc),
            streams: Streams::sound(alloc),
            transcript: Vec::new(alloc),
        }
    }

    pub fn alloc(&self) -> Global {
        self.alloc
    }

    pub fn transcript(&self) -> &[u8] {
        self.transcript.as_slice()
    }

    /// Tells that a row is not played.
    pub fn tell_stop(&mut self, row: &str) -> Result<(), AllocError> {
        self.print_line(format!(in self.alloc; "not understood: {row}")?.as_str())
    }

    /// Plays a row that asks for this.
    pub fn play<R: Threads + Wait + Sync>(
        &mut self,
        rt: &R,
        row: &str,
        asked: Directive<'_>,
    ) -> Result<(), Halt> {
        self.print_line(row)?;
        match asked {
            Directive::Nothing => Ok(()),
            Directive::Line { text, times } => self.add_lines(text, times),
            Directive::Bytes(bytes) => Ok(self.script.extend_from_slice(&bytes)?),
            Directive::Sent { at, count } => {
                let bytes = part_of(&self.sent, at, count)?;
                Ok(self.script.extend_from_slice(bytes)?)
            }
            Directive::PeekSent { at, count } => {
                let digits = digits_of(self.alloc, part_of(&self.sent, at, count)?)?;
                Ok(self.print_line(digits.as_str())?)
            }
            Directive::Failing { stream, calls } => {
                self.streams.fail(stream, calls);
                Ok(())
            }
            Directive::OutRoom(room) => {
                self.streams.out_room = room as usize;
                Ok(())
            }
            Directive::Peek { at, count } => self.print_bytes(at, count),
            Directive::Command { words, telling } => self.play_command(rt, words, telling),
            Directive::Change(change) => self.change(change),
        }
    }

    fn change(&mut self, change: Change) -> Result<(), Halt> {
        match change {
            Change::New(room) => self.disk = Some(new_disk(self.alloc, room)?),
            Change::Poke { at, bytes } => {
                let mut disk = self.take_disk()?;
                poke(&mut disk, at, &bytes)?;
                self.disk = Some(disk);
            }
            Change::Seal { at } => {
                let mut disk = self.take_disk()?;
                seal(&mut disk, at)?;
                self.disk = Some(disk);
            }
            Change::Lose { segment } => {
                let mut disk = self.take_disk()?;
                self.disk = Some(without(self.alloc, &mut disk, segment)?);
            }
            Change::Crash { moment, pick } => self.crash(moment, pick)?,
            Change::Keep => self.kept = Some(self.take_disk()?),
            Change::Again => self.disk = None,
        }
        Ok(())
    }

    // The disk, taken: a copy of the kept one where that goes on.
    fn take_disk(&mut self) -> Result<MemDisk, Halt> {
        if let Some(disk) = self.disk.take() {
            return Ok(disk);
        }
        let kept = self.kept.as_ref().ok_or(Halt::NotUnderstood)?;
        copy_of(self.alloc, kept)
    }

    // What a crash leaves goes on.
    fn crash(&mut self, moment: u64, pick: Pick) -> Result<(), Halt> {
        let disk = self.disk.as_ref().or(self.kept.as_ref());
        let disk = disk.ok_or(Halt::NotUnderstood)?;
        self.disk = Some(disk.crash(self.alloc, moment, pick)?);
        Ok(())
    }

    fn add_lines(&mut self, text: &str, times: u32) -> Result<(), Halt> {
        for _ in 0..times {
            self.script.extend_from_slice(text.as_bytes())?;
            self.script.push(b'\n')?;
        }
        Ok(())
    }

    // Plays a command over the script that was gathered.
    fn play_command<R: Threads + Wait + Sync>(
        &mut self,
        rt: &R,
        words: &str,
        telling: Telling,
    ) -> Result<(), Halt> {
        let words = words_of(self.alloc, words)?;
        let streams = mem::replace(&mut self.streams, Streams::sound(self.alloc));
        let script = mem::replace(&mut self.script, Vec::new(self.alloc));
        let mut source = MemSource::new(script, streams.source_fails);
        let mut out = MemSink::new(self.alloc, streams.out_room, streams.out_fails)?;
        let mut err = MemSink::new(self.alloc, 1024, streams.err_fails)?;
        let ended = pgwal(
            rt,
            self.alloc,
            &words,
            &mut source,
            self.take_disk()?,
            &mut out,
            &mut err,
            &OpenGate,
        );
        self.print_out(out.taken(), telling)?;
        self.print_err(err.taken())?;
        self.end(ended, telling)
    }

    // Tells how a command ended, and goes on with its disk.
    fn end(&mut self, ended: Ended<MemDisk>, telling: Telling) -> Result<(), Halt> {
        let status = ended.status;
        let calls = ended.disk.moment();
        let line = match telling {
            Telling::NoCalls => format!(in self.alloc; "status {status}")?,
            _ => format!(in self.alloc; "status {status} calls {calls}")?,
        };
        self.print_line(line.as_str())?;
        self.disk = Some(ended.disk);
        Ok(())
    }

    // Prints what a command printed, or its size; then it is kept, to be handed to another command.
    fn print_out(&mut self, out: &[u8], telling: Telling) -> Result<(), Halt> {
        let Telling::Size = telling else {
            return Ok(self.print_text(out)?);
        };
        self.sent = Vec::from_slice(self.alloc, out)?;
        let lines = out.iter().filter(|byte| **byte == b'\n').count();
        let bytes = out.len();
        let mut crc = Crc::new();
        crc.update(out);
        let crc = crc.value();
        let size = format!(in self.alloc; "out {lines} lines {bytes} bytes crc {crc:08x}")?;
        Ok(self.print_line(size.as_str())?)
    }

    // Prints bytes of the disk.
    fn print_bytes(&mut self, at: u64, count: u32) -> Result<(), Halt> {
        let mut disk = self.take_disk()?;
        let bytes = peek(self.alloc, &mut disk, at, count)?;
        self.disk = Some(disk);
        Ok(self.print_line(digits_of(self.alloc, &bytes)?.as_str())?)
    }

    fn print_err(&mut self, err: &[u8]) -> Result<(), AllocError> {
        if !err.is_empty() {
            self.transcript.extend_from_slice(b"err: ")?;
        }
        self.print_text(err)
    }

    // Prints a text. Where its last line is cut off, a line feed ends it.
    fn print_text(&mut self, text: &[u8]) -> Result<(), AllocError> {
        self.transcript.extend_from_slice(text)?;
        if text.last().is_some_and(|last| *last != b'\n') {
            self.transcript.push(b'\n')?;
        }
        Ok(())
    }

    fn print_line(&mut self, line: &str) -> Result<(), AllocError> {
        self.transcript.extend_from_slice(line.as_bytes())?;
        self.transcript.push(b'\n')?;
        Ok(())
    }
}

// So many bytes from a place on.
fn part_of(bytes: &[u8], at: u32, count: u32) -> Result<&[u8], Halt> {
    let rest = bytes.get(at as usize..).ok_or(Halt::NotUnderstood)?;
    rest.get(..count as usize).ok_or(Halt::NotUnderstood)
}

fn new_disk(alloc: Global, room: NewDisk) -> Result<MemDisk, Halt> {
    Ok(MemDisk::new(alloc, room.segments, CALLS, room.fail, room.fail_reads)?)
}

// The words of a command line, behind the program's name.
fn words_of(alloc: Global, words: &str) -> Result<Vec<String>, AllocError> {
    let mut given = Vec::new(alloc);
    given.push(String::from_str(alloc, "pgwal")?)?;
    for word in words.split_whitespace() {
        given.push(String::from_str(alloc, word)?)?;
    }
    Ok(given)
}
