// What the disk's owner calls with: it hands in what the disk has, opens the log that is there,
// takes the calls of the disk, makes them, and says how many it has made. What a caller must not do
// is told, and changes nothing.
ghost use Rattle.std.specs.Prelude.{◌≡◌, ◌≢◌, ◌⊎◌};
ghost use Rattle.pgwal_c.specs.DiskTold.{HoldsHanded, TellsAcknowledge, TellsDiskCall, TellsTake};
ghost use Rattle.pgwal_c.specs.OpenTold.{TellsOpen};

use crate::answers::{DONE, MEMORY, MISUSE, NONE};
use crate::opening::{LogSetup, open_log};
use crate::said::ProgramSaid;
use handed_pages::{HandedPage, PageNumber};
use hosted_disk::HostCalls;
use segment_disk::CallKind;
use std::alloc::Global;

/// What is asked of the disk's queue: the next call.
pub const TAKE: u32 = 0;
/// `count` calls in all were made, and each answered Ok.
pub const ACKNOWLEDGE: u32 = 1;
/// A call that was taken has failed.
pub const FAIL: u32 = 2;
/// No more is asked: what the queue holds is let go.
pub const LEAVE: u32 = 3;
/// A page of the disk is handed in before the log is opened, or with `there` 0 that there is none.
pub const HAND_IN_FIRST: u32 = 4;
/// The log is opened that is on the disk, by the pages handed in.
pub const OPEN: u32 = 5;

/// A segment of zeros is to be made.
pub const CREATE: u32 = 0;
/// A page is to be written.
pub const WRITE: u32 = 1;
/// A segment is to be synced.
pub const SYNC: u32 = 2;

/// What is asked of the disk, and the call that was taken, or the log that was opened.
#[repr(C)]
#[derive(Drop)]
pub struct DiskCall {
    pub asked: u32,
    /// Which call it is.
    pub kind: u32,
    /// How many calls were made, as is acknowledged; or how many were taken; or how many records
    /// the log has.
    pub count: u64,
    /// The segment, by its number from 0 on, and its bytes.
    pub segment: u64,
    pub seg_size: u64,
    /// The page, by its number in its segment, and its bytes.
    pub page: u64,
    pub bytes: [u8; 8192],
    /// Whether the page that is handed in is there: 0 if it is not.
    pub there: u32,
    /// By which damage the log stopped.
    pub damage: u32,
    /// Where the log ends, or stops.
    pub end: u64,
    /// What the log is opened with.
    pub setup: LogSetup,
    /// Its first session.
    pub session: *mut u8,
}

/// The host's end of the disk's queue, while it is used; before the log is opened, the pages that
/// were handed in.
#[derive(Drop)]
pub struct DiskHandle {
    pub(crate) alloc: Global,
    pub(crate) calls: Option<HostCalls<ProgramSaid>>,
    pub(crate) pages: Vec<HandedPage>,
}

// Takes the next call, if there is one. Its page is copied where it lies in the queue.
fn take(calls: &mut HostCalls<ProgramSaid>, asked: &mut DiskCall) -> u32
    ensures { TellsTake calls.old calls.new asked.new result }
{
    if calls.has_failed() || calls.look() == 0 {
        return NONE;
    }
    let Some(call) = calls.next() else {
        return NONE;
    };
    asked.segment = call.segment;
    asked.seg_size = call.geometry.segment_size();
    match &call.kind {
        CallKind::Create { .. } => asked.kind = CREATE,
        CallKind::Write { page, bytes } => {
            asked.kind = WRITE;
            asked.page = u64::from(*page);
            asked.bytes = bytes.bytes;
        }
        CallKind::Sync => asked.kind = SYNC,
    }
    let taken = calls.take();
    if taken.is_none() {
        return NONE;
    }
    asked.count = calls.taken();
    DONE
}

// Says that so many calls were made, if that can be.
fn acknowledge(calls: &mut HostCalls<ProgramSaid>, count: u64) -> u32
    ensures { TellsAcknowledge count calls.old calls.new result }
{
    if calls.has_failed() || count < calls.acknowledged() || count > calls.taken() {
        return MISUSE;
    }
    calls.acknowledge(count);
    DONE
}

// Holds a page for the opening, or that there is none.
fn hand_in(handle: &mut DiskHandle, asked: &DiskCall) -> u32
    ensures { result ≡ DONE → HoldsHanded asked.now handle.old.pages.items handle.new.pages.items }
{
    let Ok(page) = u32::try_from(asked.page) else {
        return MISUSE;
    };
    let number = PageNumber {
        segment: asked.segment,
        page,
    };
    let bytes = if asked.there == 0 {
        None
    } else {
        Some(&asked.bytes)
    };
    match handle.pages.push(HandedPage::of(number, bytes)) {
        Ok(()) => DONE,
        Err(_) => MEMORY,
    }
}

// Before a log is opened.
fn call_unopened(handle: &mut DiskHandle, asked: &mut DiskCall) -> u32
    ensures hand_in { asked.old.asked ≡ HAND_IN_FIRST → result ≡ DONE
        → HoldsHanded asked.old handle.old.pages.items handle.new.pages.items }
    ensures opens { asked.old.asked ≡ OPEN
        → TellsOpen handle.old.pages.items asked.old asked.new result handle.new.calls }
    ensures other { asked.old.asked ≢ HAND_IN_FIRST → asked.old.asked ≢ OPEN
        → (result ≡ MISUSE) × (handle.new ≡ handle.old) }
{
    match asked.asked {
        HAND_IN_FIRST => hand_in(handle, asked),
        OPEN => open_log(handle, asked),
        _ => MISUSE,
    }
}

pub(crate) fn call_disk(handle: &mut DiskHandle, asked: &mut DiskCall) -> u32
    ensures { TellsDiskCall handle.old handle.new asked.old asked.new result }
{
    if asked.asked == LEAVE {
        let _left = handle.calls.take();
        handle.pages = Vec::new(handle.alloc);
        return DONE;
    }
    let Some(calls) = &mut handle.calls else {
        return call_unopened(handle, asked);
    };
    match asked.asked {
        TAKE => take(calls, asked),
        ACKNOWLEDGE => acknowledge(calls, asked.count),
        FAIL => {
            calls.fail();
            DONE
        }
        _ => MISUSE,
    }
}

/// A disk that was handed out.
#[repr(C)]
#[derive(Drop)]
pub struct DiskMade {
    pub disk: *mut u8,
}

pub(crate) fn hand_out_disk(alloc: Global, made: &mut DiskMade) -> u32
    ensures { (result ≡ DONE) ⊎ (result ≡ MEMORY) }
{
    let handle = DiskHandle {
        alloc,
        calls: None,
        pages: Vec::new(alloc),
    };
    let Ok(handle) = Box::new(alloc, handle) else {
        return MEMORY;
    };
    made.disk = Box::into_raw(handle) as *mut u8;
    DONE
}
