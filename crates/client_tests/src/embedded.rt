//! A record is told to be durable once the host has made the calls that make it so. The place and
//! the moment are those of docs/FORMATS.md: a log's first record starts behind the long header of
//! its first page, and its flush makes a segment, writes a page and syncs.

use embedded_log::{Append, FlushRefusal, first_sessions_are_sole, open};
use std::sync::atomic::Rule;
use std::test::Fail;
use wal_log::{Caught, Hard, Receipt, Setup};
use wal_spelling::Body;
use wal_types::{Lsn, Xid};

struct NothingSaid;

impl Rule for NothingSaid {
    ghost invariant = { λ _. Unit {0} };
}

const SETUP: Setup = Setup {
    seg_size: 1 << 20,
    ring_pages: 4,
    cap_segments: 3,
    sysid: 1,
    passes: 2,
};

#[test]
fn told_once_the_host_has_made_it(rt: HostRuntime) -> Result<(), Fail> {
    first_sessions_are_sole::<NothingSaid>();
    let body = Body::assemble_plain(rt.alloc(), Xid(0), 128, 0, b"a1")?;
    let Ok((session, mut calls)) = open::<NothingSaid>(rt.alloc(), SETUP, 0) else {
        panic!(rt; "a log");
    };
    let (receipt, mut session) = match session.append(&body) {
        Append::Reserved { receipt, session } => (receipt, session),
        Append::Going(_going) => panic!(rt; "a record on its way"),
        Append::Refused { .. } | Append::Down { .. } => panic!(rt; "a record"),
    };
    let (start, end) = (Lsn(0x10_0028), Lsn(0x10_0048));
    assert_eq!(rt; receipt, Receipt { start, end });
    let (upto, moment) = (end, 3);
    assert_eq!(rt;
        session.flush(end),
        Err(FlushRefusal::Behind {
            upto,
            moment,
            made: 0
        })
    );
    assert!(rt; calls.take().is_some() && calls.take().is_some() && calls.take().is_some());
    assert!(rt; calls.take().is_none());
    assert_eq!(rt; calls.taken(), 3);
    calls.acknowledge(2);
    assert_eq!(rt;
        session.flush(end),
        Err(FlushRefusal::Behind {
            upto,
            moment,
            made: 2
        })
    );
    calls.acknowledge(3);
    assert_eq!(rt; session.flush(end), Ok(Hard { upto, moment }));
    let Ok(closed) = session.close() else {
        panic!(rt; "another session");
    };
    assert_eq!(rt; (closed.end, closed.down), (end, None));
    Ok(())
}

// What is answered ahead of the disk is flushed behind, and told once the host has made it.
#[test]
fn answered_ahead_and_flushed_behind(rt: HostRuntime) -> Result<(), Fail> {
    let body = Body::assemble_plain(rt.alloc(), Xid(0), 128, 0, b"a1")?;
    let Ok((session, mut calls)) = open::<NothingSaid>(rt.alloc(), SETUP, 0) else {
        panic!(rt; "a log");
    };
    let mut session = match session.append(&body) {
        Append::Reserved {
            receipt: _,
            session,
        } => session,
        Append::Going(_going) => panic!(rt; "a record on its way"),
        Append::Refused { .. } | Append::Down { .. } => panic!(rt; "a record"),
    };
    let (upto, moment) = (Lsn(0x10_0048), 3);
    assert!(rt; matches!(session.write_behind(), Ok(Caught::Idle { .. })));
    assert_eq!(rt; session.raise_async(), Ok(()));
    assert_eq!(rt;
        session.write_behind(),
        Err(FlushRefusal::Behind {
            upto,
            moment,
            made: 0
        })
    );
    assert!(rt; calls.take().is_some() && calls.take().is_some() && calls.take().is_some());
    assert_eq!(rt; calls.taken(), 3);
    calls.acknowledge(3);
    assert_eq!(rt; session.write_behind(), Ok(Caught::Idle { upto }));
    assert_eq!(rt; session.flush(upto), Ok(Hard { upto, moment }));
    Ok(())
}
