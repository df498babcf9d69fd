// A log is opened that is on the program's disk, or begun where none is: the disk's owner hands in
// what the files have, and asks for it. What is wanted beside is told, and is asked for again then.
ghost use Rattle.std.specs.Prelude.{◌≡◌, ◌≢◌, IfErr};
ghost use Rattle.embedded_log.specs.Sessions.{IsOpenSession};
ghost use Rattle.pgwal_c.specs.OpenTold.{AnswersFault, TellsOpen, AnswersStop, setup_of_asked};

use crate::answers::{BEYOND, DAMAGED, DONE, DOWN, MEMORY, MISUSE, QUEUE, SETUP, WANTED};
use crate::damages::damage_number;
use crate::disk_handle::{DiskCall, DiskHandle};
use crate::said::ProgramSaid;
use crate::session_handle::SessionHandle;
use byte_position::PAGE_SIZE;
use embedded_log::{LogSession, ReopenRefusal, ReopenStop, reopen};
use hosted_disk::HostDisk;
use std::alloc::Global;
use std::mem;
use wal_log::{OpenFaultKind, Setup};
use wal_spelling::Body;
use wal_types::BlockList;

/// What a log is opened with: the bytes of a segment, the system id, pages of the ring, segments
/// that it may fill, sessions, and calls that the disk's queue has room for.
#[repr(C)]
#[derive(Clone, Copy)]
pub struct LogSetup {
    pub seg_size: u64,
    pub sysid: u64,
    pub ring_pages: u32,
    pub cap_segments: u32,
    pub sessions: u32,
    pub calls: u32,
}

// Which disk the program has no clause can say; what is proved of the log holds of each.
pub struct ProgramDisk;

impl HostDisk for ProgramDisk {
    ghost use Rattle.pgwal_c.specs.OpenTold.{program_segments};

    ghost segments = { program_segments };
}

fn fault_answer(kind: OpenFaultKind, asked: &mut DiskCall) -> u32
    ensures { AnswersFault kind asked.new result }
{
    match kind {
        OpenFaultKind::BadSetup => SETUP,
        OpenFaultKind::Memory => MEMORY,
        OpenFaultKind::Disk { .. } => DOWN,
        OpenFaultKind::NotEmpty => MISUSE,
        OpenFaultKind::Beyond { segment } => {
            asked.segment = segment;
            BEYOND
        }
        OpenFaultKind::Foreign(stopped) => {
            let (at, damage) = damage_number(stopped);
            asked.end = at.0;
            asked.damage = damage;
            DAMAGED
        }
    }
}

fn stop_answer(why: ReopenStop, asked: &mut DiskCall) -> u32
    ensures { AnswersStop why asked.new result }
{
    match why {
        ReopenStop::Passes => SETUP,
        ReopenStop::Memory => MEMORY,
        ReopenStop::Wants(number) => {
            asked.segment = number.segment;
            asked.page = u64::from(number.page);
            WANTED
        }
        ReopenStop::Room => QUEUE,
        ReopenStop::Refused(kind) => fault_answer(kind, asked),
    }
}

// A session has two passes.
pub(crate) fn setup_of(setup: &LogSetup) -> Setup
    ensures { result ≡ setup_of_asked setup.now }
{
    Setup {
        seg_size: setup.seg_size,
        ring_pages: setup.ring_pages,
        cap_segments: setup.cap_segments,
        sysid: setup.sysid,
        passes: setup.sessions.saturating_mul(2),
    }
}

// How many calls the disk's queue is to have room for.
fn room_of(setup: &LogSetup) -> usize {
    setup.calls as usize
}

// The first session of a log, which ends there.
pub(crate) fn session_of(
    alloc: Global,
    setup: &LogSetup,
    session: LogSession<ProgramSaid>,
    end: u64,
) -> Result<SessionHandle, u32>
    requires { IsOpenSession session }
    ensures { IfErr result (λ answer. answer ≡ MEMORY) }
{
    // It is never freed: a switch on its way in a handle is lent it.
    let Ok(switch) = Box::new(alloc, Body::switch(alloc)) else {
        return Err(MEMORY);
    };
    let half = u64::from(setup.ring_pages) * PAGE_SIZE / 2;
    Ok(SessionHandle {
        alloc,
        session: Some(session),
        switching: None,
        switch: Box::leak(switch),
        half,
        share: half.saturating_sub(PAGE_SIZE) / u64::from(setup.sessions.max(1)),
        end,
        written: end,
        blocks: BlockList::none(alloc),
        image: None,
    })
}

// Opens the log by the pages that were handed in, and hands out its first session.
pub(crate) fn open_log(handle: &mut DiskHandle, asked: &mut DiskCall) -> u32
    ensures { TellsOpen handle.old.pages.items asked.old asked.new result handle.new.calls }
{
    let alloc = handle.alloc;
    let setup = asked.setup;
    let room = room_of(&setup);
    let pages = mem::replace(&mut handle.pages, Vec::new(alloc));
    match reopen::<ProgramSaid, ProgramDisk>(alloc, setup_of(&setup), room, pages) {
        Ok((session, calls, found)) => {
            asked.count = found.count;
            asked.end = found.end.0;
            let session = match session_of(alloc, &setup, session, found.end.0) {
                Ok(session) => session,
                Err(answer) => return answer,
            };
            let Ok(session) = Box::new(alloc, session) else {
                return MEMORY;
            };
            asked.session = Box::into_raw(session) as *mut u8;
            handle.calls = Some(calls);
            DONE
        }
        Err(ReopenRefusal { why, pages }) => {
            handle.pages = pages;
            stop_answer(why, asked)
        }
    }
}
