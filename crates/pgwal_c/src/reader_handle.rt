// What a log is read with: the program hands in the pages that are wanted, and is handed out the
// records. A record's bytes go out in pieces, since no export may hand out a pointer into them.
ghost use Rattle.std.specs.Prelude.{◌≡◌, ◌⊎◌, [], IsSomeAnd};
ghost use Rattle.handed_pages.specs.Reading.{HasReadLog};
ghost use Rattle.pgwal_c.specs.ReaderTold.{HandsTold, HoldsOfBlock, HoldsOfReader, ReadsTold, TellsFound, TellsOfBlock, TellsPiece, TellsReaderCall, program_log, stop_address};

use crate::answers::{DAMAGED, DONE, END_OF_LOG, MEMORY, MISUSE, SETUP, WANTED};
use crate::blocks::BlockCall;
use crate::damages::damage_number;
use byte_position::Geometry;
use handed_pages::{HandedReader, HostLog, NextRecord, PageNumber};
use std::alloc::Global;
use wal_reader::{FoundRecord, Stopped};
use wal_types::{Block, Lsn};

/// What is asked of a reader: to read the log of segments of `seg_size` bytes from `start` on.
pub const BEGIN: u32 = 0;
/// The next record.
pub const NEXT: u32 = 1;
/// A page is handed in, or with `there` 0 that the log has no such page.
pub const HAND_IN: u32 = 2;
/// The main data of the record that came last, from its byte `offset` on.
pub const DATA: u32 = 3;
/// No more is asked.
pub const CLOSE: u32 = 4;
/// What that record's block number `index`, counted from 0 on, is.
pub const TELL_BLOCK: u32 = 5;
/// That block's data, from its byte `offset` on.
pub const BLOCK_DATA: u32 = 6;
/// Its image's bytes, from byte `offset` on.
pub const IMAGE: u32 = 7;

/// What is asked of a reader, and what came.
#[repr(C)]
#[derive(Drop)]
pub struct ReaderCall {
    pub asked: u32,
    /// The record's transaction, resource manager and info bits.
    pub xid: u32,
    pub rmid: u8,
    pub info: u8,
    /// Whether the page that is handed in is there: 0 if it is not.
    pub there: u8,
    /// The record's size in bytes.
    pub total: u32,
    /// By which damage the log stopped.
    pub damage: u32,
    /// How many blocks the record references; one of them, by its index.
    pub blocks: u64,
    pub index: u64,
    pub block: BlockCall,
    pub seg_size: u64,
    /// Where the record starts and ends; where reading begins, and where the log ends or stops.
    pub start: u64,
    pub end: u64,
    /// The start of the record before.
    pub prev: u64,
    /// The page that is wanted or handed in.
    pub segment: u64,
    pub page: u32,
    /// How many bytes of main data the record has, or came; and from where on they are asked for.
    pub len: u64,
    pub offset: u64,
    pub bytes: [u8; 8192],
}

// Which log the program reads no clause can say; what is proved of a reader holds of each.
pub struct ProgramLog;

impl HostLog for ProgramLog {
    ghost use Rattle.pgwal_c.specs.ReaderTold.{program_log};

    ghost state = { program_log };
}

/// A reader, and the record that it gave last.
#[derive(Drop)]
pub struct ReaderHandle {
    pub(crate) alloc: Global,
    pub(crate) reader: Option<HandedReader<ProgramLog>>,
    pub(crate) found: Option<FoundRecord>,
}

fn stop_answer(stopped: Stopped, call: &mut ReaderCall) -> u32
    ensures damaged { result ≡ DAMAGED }
    ensures at { call.new.start ≡ stop_address stopped }
{
    let (at, damage) = damage_number(stopped);
    call.start = at.0;
    call.damage = damage;
    DAMAGED
}

fn tell_record(found: &FoundRecord, call: &mut ReaderCall)
    ensures { TellsFound found.now call.new }
{
    let (head, value) = (found.head, &found.value);
    call.start = head.start.0;
    call.end = head.end.0;
    call.prev = head.prev.0;
    call.total = head.total;
    call.xid = value.xid.0;
    call.rmid = value.rmid;
    call.info = value.info;
    call.blocks = value.blocks.as_slice().len() as u64;
    call.len = value.main.as_slice().len() as u64;
}

impl ReaderHandle {
    fn begin(&mut self, call: &ReaderCall) -> u32
        ensures { result ≡ DONE → IsSomeAnd self.new.reader (λ r.
            HasReadLog program_log call.now.seg_size call.now.start [] r) }
    {
        let Some(geometry) = Geometry::new(call.seg_size) else {
            return SETUP;
        };
        self.reader = Some(HandedReader::new(self.alloc, geometry, Lsn(call.start)));
        self.found = None;
        DONE
    }

    fn next(&mut self, call: &mut ReaderCall) -> u32
        ensures { HoldsOfReader (ReadsTold call.new result self.new.found) result self.old.reader
            self.new.reader }
    {
        let Some(reader) = &mut self.reader else {
            return MISUSE;
        };
        match reader.next() {
            NextRecord::Record(found) => {
                tell_record(&found, call);
                self.found = Some(found);
                DONE
            }
            NextRecord::End { at } => {
                call.end = at.0;
                END_OF_LOG
            }
            NextRecord::Wants(number) => {
                call.segment = number.segment;
                call.page = number.page;
                WANTED
            }
            NextRecord::Stopped(stopped) => stop_answer(stopped, call),
            NextRecord::Memory => MEMORY,
        }
    }

    fn hand_in(&mut self, call: &ReaderCall) -> u32
        ensures { HoldsOfReader (HandsTold call.now) result self.old.reader self.new.reader }
    {
        let Some(reader) = &mut self.reader else {
            return MISUSE;
        };
        let number = PageNumber {
            segment: call.segment,
            page: call.page,
        };
        let page = if call.there == 0 {
            None
        } else {
            Some(&call.bytes)
        };
        match reader.hand_in(number, page) {
            Ok(()) => DONE,
            Err(_) => MEMORY,
        }
    }

    // A piece of main data.
    fn data(&self, call: &mut ReaderCall) -> u32
        ensures { result ≡ DONE → IsSomeAnd self.now.found (λ found.
            TellsPiece (found.value).main call.old call.new) }
    {
        match &self.found {
            Some(found) => tell_piece(found.value.main.as_slice(), call),
            None => MISUSE,
        }
    }

    // A block of the record, or a piece of what it has.
    fn block(&self, call: &mut ReaderCall) -> u32
        ensures { result ≡ DONE → HoldsOfBlock (λ b. TellsOfBlock b call.old call.new)
            call.old.index self.now.found }
    {
        let Some(found) = &self.found else {
            return MISUSE;
        };
        match found.value.blocks.as_slice().get(call.index as usize) {
            Some(block) => tell_of_block(block, call),
            None => MISUSE,
        }
    }
}

fn tell_of_block(block: &Block, call: &mut ReaderCall) -> u32
    ensures { result ≡ DONE → TellsOfBlock block.now call.old call.new }
{
    match call.asked {
        BLOCK_DATA => tell_piece(block.content.as_slice(), call),
        IMAGE => match &block.image {
            Some(image) => tell_piece(image.bytes.as_slice(), call),
            None => MISUSE,
        },
        _ => {
            call.block = BlockCall::of(block);
            DONE
        }
    }
}

// A piece of bytes, from the offset on: what of it fits into a page.
fn tell_piece(bytes: &[u8], call: &mut ReaderCall) -> u32
    ensures { result ≡ DONE → TellsPiece bytes.now call.old call.new }
{
    if call.offset > bytes.len() as u64 {
        return MISUSE;
    }
    let rest = &bytes[call.offset as usize..];
    let len = rest.len().min(8192);
    call.bytes[..len].copy_from_slice(&rest[..len]);
    call.len = len as u64;
    DONE
}

pub(crate) fn call_reader(handle: &mut ReaderHandle, call: &mut ReaderCall) -> u32
    ensures { TellsReaderCall handle.old handle.new call.old call.new result }
{
    match call.asked {
        BEGIN => handle.begin(call),
        NEXT => handle.next(call),
        HAND_IN => handle.hand_in(call),
        DATA => handle.data(call),
        TELL_BLOCK | BLOCK_DATA | IMAGE => handle.block(call),
        CLOSE => {
            handle.reader = None;
            handle.found = None;
            DONE
        }
        _ => MISUSE,
    }
}

/// A reader that was handed out.
#[repr(C)]
#[derive(Drop)]
pub struct ReaderMade {
    pub reader: *mut u8,
}

pub(crate) fn hand_out_reader(alloc: Global, made: &mut ReaderMade) -> u32
    ensures { (result ≡ DONE) ⊎ (result ≡ MEMORY) }
{
    let handle = ReaderHandle {
        alloc,
        reader: None,
        found: None,
    };
    let Ok(handle) = Box::new(alloc, handle) else {
        return MEMORY;
    };
    made.reader = Box::into_raw(handle) as *mut u8;
    DONE
}
