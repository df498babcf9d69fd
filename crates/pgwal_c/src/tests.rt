//! A commit as C makes it: appended, flushed, its calls made, and told. The place and the moment
//! are those of docs/FORMATS.md: a log's first record starts behind the long header of its first
//! page, and its flush makes a segment, writes a page and syncs. A segment is ended in as many
//! calls as its pages take. A reader wants a page, and ends where there is none; so does a log that
//! is opened want those that it has to know of.

use crate::answers::{BEHIND, BLOCK, DONE, END_OF_LOG, IDLE, MISUSE, NONE, QUEUE, WANTED};
use crate::blocks::BlockCall;
use crate::disk_handle::{
    ACKNOWLEDGE, CREATE, DiskCall, DiskHandle, HAND_IN_FIRST, OPEN, SYNC, TAKE, WRITE, call_disk,
};
use crate::opening::{LogSetup, session_of, setup_of};
use crate::reader_handle::{BEGIN, HAND_IN, NEXT, ReaderCall, ReaderHandle, call_reader};
use crate::said::ProgramSaid;
use crate::session_handle::{
    ADD_BLOCK, APPEND, END, FLUSH, RAISE, SWITCH, SessionCall, SessionHandle, WRITE_BEHIND,
    call_session,
};
use embedded_log::open;
use std::alloc::Global;
use std::ptr::null_mut;
use std::test::Fail;

const LOG: LogSetup = LogSetup {
    seg_size: 1 << 20,
    sysid: 1,
    ring_pages: 4,
    cap_segments: 3,
    sessions: 1,
    calls: 0,
};

// A log that is begun, with what the two handles of it have.
fn begun(alloc: Global) -> Option<(SessionHandle, DiskHandle)> {
    match open::<ProgramSaid>(alloc, setup_of(&LOG), 0) {
        Ok((session, calls)) => {
            let disk = DiskHandle {
                alloc,
                calls: Some(calls),
                pages: Vec::new(alloc),
            };
            let session = session_of(alloc, &LOG, session, LOG.seg_size).ok()?;
            Some((session, disk))
        }
        Err(_) => None,
    }
}

fn disk_call() -> DiskCall {
    DiskCall {
        asked: TAKE,
        kind: 0,
        count: 0,
        segment: 0,
        seg_size: 0,
        page: 0,
        bytes: [0; 8192],
        there: 0,
        damage: 0,
        end: 0,
        setup: LOG,
        session: null_mut(),
    }
}

const NO_BLOCK: BlockCall = BlockCall {
    id: 0,
    fork: 0,
    will_init: 0,
    has_image: 0,
    apply: 0,
    hole_offset: 0,
    hole_len: 0,
    spc: 0,
    db: 0,
    rel: 0,
    blk: 0,
    len: 0,
    image_len: 0,
};

fn session_call() -> SessionCall {
    SessionCall {
        asked: 0,
        xid: 0,
        rmid: 128,
        info: 0,
        block: NO_BLOCK,
        upto: 0,
        moment: 0,
        start: 0,
        end: 0,
        detail: 0,
        session: null_mut(),
    }
}

// The calls without their clauses: so what a test's proof knows stays small.
fn asked(session: &mut SessionHandle, what: u32, data: &[u8], call: &mut SessionCall) -> u32 {
    call.asked = what;
    call_session(session, data, call)
}

fn asked_disk(disk: &mut DiskHandle, what: u32, call: &mut DiskCall) -> u32 {
    call.asked = what;
    call_disk(disk, call)
}

fn asked_reader(reader: &mut ReaderHandle, what: u32, call: &mut ReaderCall) -> u32 {
    call.asked = what;
    call_reader(reader, call)
}

// What was answered to the next call, and which call it was.
fn made(disk: &mut DiskHandle, call: &mut DiskCall) -> (u32, u32, u64) {
    let taken = asked_disk(disk, TAKE, call);
    (
        taken | asked_disk(disk, ACKNOWLEDGE, call),
        call.kind,
        call.count,
    )
}

#[test]
fn a_commit_is_told_once_its_calls_are_made(rt: HostRuntime) -> Result<(), Fail> {
    let Some((mut session, mut disk)) = begun(rt.alloc()) else {
        panic!(rt; "a log");
    };
    let mut call = session_call();
    assert_eq!(rt; asked(&mut session, APPEND, b"a1", &mut call), DONE);
    assert_eq!(rt; (call.start, call.end), (0x10_0028, 0x10_0048));
    call.upto = call.end;
    assert_eq!(rt; asked(&mut session, FLUSH, b"", &mut call), BEHIND);
    let mut page = disk_call();
    assert_eq!(rt; made(&mut disk, &mut page), (DONE, CREATE, 1));
    assert_eq!(rt; made(&mut disk, &mut page), (DONE, WRITE, 2));
    assert_eq!(rt; made(&mut disk, &mut page), (DONE, SYNC, 3));
    assert_eq!(rt; asked(&mut session, FLUSH, b"", &mut call), DONE);
    assert_eq!(rt; (call.upto, call.moment), (0x10_0048, 3));
    assert_eq!(rt; asked(&mut session, END, b"", &mut call), DONE);
    assert_eq!(rt; asked(&mut session, END, b"", &mut call), DONE);
    Ok(())
}

// Each page that is wanted of segment 1 is zeros, and no other segment is there.
#[test]
fn a_log_is_opened_by_what_is_handed_in(rt: HostRuntime) -> Result<(), Fail> {
    let alloc = rt.alloc();
    let mut disk = DiskHandle {
        alloc,
        calls: None,
        pages: Vec::new(alloc),
    };
    let mut call = disk_call();
    assert_eq!(rt; asked_disk(&mut disk, TAKE, &mut call), MISUSE);
    assert_eq!(rt; asked_disk(&mut disk, OPEN, &mut call), WANTED);
    assert_eq!(rt; (call.segment, call.page), (4, 0));
    for _ in 0..200 {
        call.there = u32::from(call.segment == 1);
        assert_eq!(rt; asked_disk(&mut disk, HAND_IN_FIRST, &mut call), DONE);
        if asked_disk(&mut disk, OPEN, &mut call) != WANTED {
            break;
        }
    }
    assert_eq!(rt; (call.count, call.end), (0, 0x10_0000));
    assert_eq!(rt; made(&mut disk, &mut call), (DONE, SYNC, 1));
    assert_eq!(rt; asked_disk(&mut disk, TAKE, &mut call), NONE);
    Ok(())
}

// A block is of the record that is appended next, and let go with it. A header of 20 bytes and one
// byte of data are in front of a record that has no block.
#[test]
fn a_block_is_of_the_next_record(rt: HostRuntime) -> Result<(), Fail> {
    let Some((mut session, _disk)) = begun(rt.alloc()) else {
        panic!(rt; "a log");
    };
    let mut call = session_call();
    call.block.id = 33;
    let added = asked(&mut session, ADD_BLOCK, b"b", &mut call);
    let refused = asked(&mut session, APPEND, b"a1", &mut call);
    let without = asked(&mut session, APPEND, b"a1", &mut call);
    assert_eq!(rt;
        (added, refused, without, call.end),
        (DONE, BLOCK, DONE, 0x10_0048)
    );
    call.block.id = 32;
    let added = asked(&mut session, ADD_BLOCK, b"b", &mut call);
    let appended = asked(&mut session, APPEND, b"a1", &mut call);
    assert_eq!(rt; (added, appended, call.end), (DONE, DONE, 0x10_0080));
    Ok(())
}

#[test]
fn a_commit_ahead_is_flushed_behind(rt: HostRuntime) -> Result<(), Fail> {
    let Some((mut session, _disk)) = begun(rt.alloc()) else {
        panic!(rt; "a log");
    };
    let mut call = session_call();
    assert_eq!(rt; asked(&mut session, WRITE_BEHIND, b"", &mut call), IDLE);
    assert_eq!(rt; asked(&mut session, APPEND, b"a1", &mut call), DONE);
    assert_eq!(rt; asked(&mut session, RAISE, b"", &mut call), DONE);
    assert_eq!(rt; asked(&mut session, WRITE_BEHIND, b"", &mut call), BEHIND);
    assert_eq!(rt; (call.upto, call.moment), (0x10_0048, 3));
    Ok(())
}

// Ends the segment, and makes all calls that are queued each time that it stops; what was answered
// at last.
fn switched(
    session: &mut SessionHandle,
    disk: &mut DiskHandle,
    call: &mut SessionCall,
    page: &mut DiskCall,
) -> u32 {
    let mut answer = asked(session, SWITCH, b"", call);
    for _ in 0..10_000 {
        if answer == QUEUE && made(disk, page).0 != DONE {
            answer = asked(session, SWITCH, b"", call);
        }
    }
    answer
}

// The switch takes up the rest of its segment, which is longer than the ring. Where the log stands
// at a segment's start there is nothing to do.
#[test]
fn a_segment_is_ended_page_by_page(rt: HostRuntime) -> Result<(), Fail> {
    let Some((mut session, mut disk)) = begun(rt.alloc()) else {
        panic!(rt; "a log");
    };
    let (mut call, mut page) = (session_call(), disk_call());
    assert_eq!(rt;
        switched(&mut session, &mut disk, &mut call, &mut page),
        DONE
    );
    assert_eq!(rt; (call.start, call.end), (0x10_0000, 0x10_0000));
    assert_eq!(rt; asked(&mut session, APPEND, b"a1", &mut call), DONE);
    assert_eq!(rt;
        switched(&mut session, &mut disk, &mut call, &mut page),
        DONE
    );
    assert_eq!(rt; (call.start, call.end), (0x10_0048, 0x20_0000));
    assert_eq!(rt;
        switched(&mut session, &mut disk, &mut call, &mut page),
        DONE
    );
    assert_eq!(rt; (call.start, call.end), (0x20_0000, 0x20_0000));
    Ok(())
}

#[test]
fn a_log_without_pages_ends_at_once(rt: HostRuntime) -> Result<(), Fail> {
    let mut reader = ReaderHandle {
        alloc: rt.alloc(),
        reader: None,
        found: None,
    };
    let mut call = ReaderCall {
        asked: BEGIN,
        xid: 0,
        rmid: 0,
        info: 0,
        there: 0,
        total: 0,
        damage: 0,
        blocks: 0,
        index: 0,
        block: NO_BLOCK,
        seg_size: 1 << 20,
        start: 0x10_0000,
        end: 0,
        prev: 0,
        segment: 0,
        page: 0,
        len: 0,
        offset: 0,
        bytes: [0; 8192],
    };
    assert_eq!(rt; asked_reader(&mut reader, BEGIN, &mut call), DONE);
    assert_eq!(rt; asked_reader(&mut reader, NEXT, &mut call), WANTED);
    assert_eq!(rt; (call.segment, call.page), (1, 0));
    assert_eq!(rt; asked_reader(&mut reader, HAND_IN, &mut call), DONE);
    assert_eq!(rt; asked_reader(&mut reader, NEXT, &mut call), END_OF_LOG);
    assert_eq!(rt; call.end, 0x10_0000);
    Ok(())
}
