//! What rows ask for.

use crate::halt::Halt;
use crate::words::{address, bytes_of, number, numbers, parted, small_number, small_numbers};
use segment_disk::Pick;
use std::alloc::Global;

/// What a row asks for.
#[derive(Drop)]
pub enum Directive<'a> {
    /// A comment, or an empty row: nothing.
    Nothing,
    /// A line of the next command's script, so many times.
    Line { text: &'a str, times: u32 },
    /// Bytes of it.
    Bytes(Vec<u8>),
    /// Bytes of what the last command printed of which only the size was told.
    Sent { at: u32, count: u32 },
    /// To tell such bytes.
    PeekSent { at: u32, count: u32 },
    /// Calls that fail of a stream of the next command.
    Failing { stream: Stream, calls: Vec<u64> },
    /// How many bytes the next command's sink takes.
    OutRoom(u32),
    /// A command, and how much is told of it.
    Command { words: &'a str, telling: Telling },
    /// So many bytes at an address of the disk.
    Peek { at: u64, count: u32 },
    /// A change of the disk.
    Change(Change),
}

/// How much is told of a command.
#[derive(Clone, Copy)]
pub enum Telling {
    /// What it printed, its status and the disk's calls.
    All,
    /// Its status and the disk's calls, and of what it printed the size alone.
    Size,
    /// All but the disk's calls.
    NoCalls,
}

/// A stream of a command.
#[derive(Clone, Copy)]
pub enum Stream {
    Source,
    Out,
    Err,
}

/// What becomes of the disk.
#[derive(Drop)]
pub enum Change {
    /// A new one that holds nothing goes on.
    New(NewDisk),
    /// Bytes are put in place of those at an address.
    Poke { at: u64, bytes: Vec<u8> },
    /// The CRC of the record at an address is made right.
    Seal { at: u64 },
    /// A segment is lost.
    Lose { segment: u64 },
    /// What a crash behind so many calls leaves goes on.
    Crash { moment: u64, pick: Pick },
    /// It is kept.
    Keep,
    /// The kept one goes on.
    Again,
}

/// What a disk has room for, and which of its calls fail.
#[derive(Drop)]
pub struct NewDisk {
    pub segments: u32,
    pub fail: Vec<u64>,
    pub fail_reads: Vec<u64>,
}

// What numbers of a new disk's row tell.
#[derive(Clone, Copy)]
enum NewDiskOption {
    Segments,
    Fail,
    FailReads,
}

impl NewDisk {
    // Takes a number of an option.
    fn take(&mut self, option: NewDiskOption, word: &str) -> Result<(), Halt> {
        match option {
            NewDiskOption::Segments => self.segments = small_number(word)?,
            NewDiskOption::Fail => self.fail.push(number(word)?)?,
            NewDiskOption::FailReads => self.fail_reads.push(number(word)?)?,
        }
        Ok(())
    }
}

/// What a row asks for.
pub fn asked_by<'a>(alloc: Global, row: &'a str) -> Result<Directive<'a>, Halt> {
    if row.is_empty() || row.starts_with('#') {
        return Ok(Directive::Nothing);
    }
    let (word, rest) = row.split_once(' ').unwrap_or((row, ""));
    match word.strip_prefix('>') {
        Some(kind) => asked_of_script(alloc, kind, rest),
        None => asked_by_word(alloc, word, rest),
    }
}

// What a row asks for whose first word is `>` and this.
fn asked_of_script<'a>(alloc: Global, kind: &str, rest: &'a str) -> Result<Directive<'a>, Halt> {
    match kind {
        "" => Ok(Directive::Line {
            text: rest,
            times: 1,
        }),
        "|" => Ok(Directive::Bytes(Vec::from_slice(alloc, rest.as_bytes())?)),
        "x" => Ok(Directive::Bytes(bytes_of(alloc, rest)?)),
        "^" => {
            let (at, count) = parted(rest)?;
            Ok(Directive::Sent {
                at: small_number(at)?,
                count: small_number(count)?,
            })
        }
        _ => match kind.strip_prefix('*') {
            Some(times) => Ok(Directive::Line {
                text: rest,
                times: small_number(times)?,
            }),
            None => Err(Halt::NotUnderstood),
        },
    }
}

// What a row asks for by its first word.
fn asked_by_word<'a>(alloc: Global, word: &str, rest: &'a str) -> Result<Directive<'a>, Halt> {
    match word {
        "$" => Ok(command(rest, Telling::All)),
        "%" => Ok(command(rest, Telling::Size)),
        "&" => Ok(command(rest, Telling::NoCalls)),
        "source-fails" => failing(alloc, Stream::Source, rest),
        "out-fails" => failing(alloc, Stream::Out, rest),
        "err-fails" => failing(alloc, Stream::Err, rest),
        "out-room" => Ok(Directive::OutRoom(small_number(rest)?)),
        "peek-sent" => {
            let (at, count) = parted(rest)?;
            Ok(Directive::PeekSent {
                at: small_number(at)?,
                count: small_number(count)?,
            })
        }
        "peek" => {
            let (at, count) = parted(rest)?;
            Ok(Directive::Peek {
                at: address(at)?,
                count: small_number(count)?,
            })
        }
        _ => Ok(Directive::Change(change_by(alloc, word, rest)?)),
    }
}

fn command<'a>(words: &'a str, telling: Telling) -> Directive<'a> {
    Directive::Command { words, telling }
}

fn failing<'a>(alloc: Global, stream: Stream, rest: &str) -> Result<Directive<'a>, Halt> {
    Ok(Directive::Failing {
        stream,
        calls: numbers(alloc, rest)?,
    })
}

// What becomes of the disk by a row's first word.
fn change_by(alloc: Global, word: &str, rest: &str) -> Result<Change, Halt> {
    match word {
        "disk" => Ok(Change::New(room_of(alloc, rest)?)),
        "poke" => {
            let (at, bytes) = parted(rest)?;
            Ok(Change::Poke {
                at: address(at)?,
                bytes: bytes_of(alloc, bytes)?,
            })
        }
        "seal" => Ok(Change::Seal { at: address(rest)? }),
        "lose" => Ok(Change::Lose {
            segment: number(rest)?,
        }),
        "crash" => {
            let (moment, picked) = parted(rest)?;
            Ok(Change::Crash {
                moment: number(moment)?,
                pick: pick_of(alloc, picked)?,
            })
        }
        "keep" => Ok(Change::Keep),
        "again" => Ok(Change::Again),
        _ => Err(Halt::NotUnderstood),
    }
}

// Four segments where nothing else is said, and no call that fails.
fn room_of(alloc: Global, rest: &str) -> Result<NewDisk, Halt> {
    let mut room = NewDisk {
        segments: 4,
        fail: Vec::new(alloc),
        fail_reads: Vec::new(alloc),
    };
    let mut option = None;
    for word in rest.split_whitespace() {
        match option_named(word) {
            Some(named) => option = Some(named),
            None => room.take(option.ok_or(Halt::NotUnderstood)?, word)?,
        }
    }
    Ok(room)
}

fn option_named(word: &str) -> Option<NewDiskOption> {
    match word {
        "segments" => Some(NewDiskOption::Segments),
        "fail" => Some(NewDiskOption::Fail),
        "fail-reads" => Some(NewDiskOption::FailReads),
        _ => None,
    }
}

fn pick_of(alloc: Global, rest: &str) -> Result<Pick, Halt> {
    match rest {
        "old" => Ok(Pick::Old),
        "new" => Ok(Pick::New),
        "odd" => Ok(Pick::Odd),
        _ => Ok(Pick::List(small_numbers(alloc, rest)?)),
    }
}
