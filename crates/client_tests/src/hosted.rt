//! The calls of a hosted disk come out in order; it fails where the queue is full, and once a call
//! of the host's has failed.

use byte_position::Geometry;
use hosted_disk::hosted_disk;
use segment_disk::{CallKind, Disk, Failed};
use std::sync::atomic::Rule;
use std::test::Fail;

struct Said;

impl Rule for Said {
    ghost invariant = { λ _. Unit {0} };
}

#[test]
fn calls_come_out_in_order(rt: HostRuntime) -> Result<(), Fail> {
    let (mut disk, mut calls, progress) = hosted_disk::<Said>(rt.alloc(), 3)?;
    let geometry = Geometry::new(1 << 20).ok_or("a size")?;
    let mut page = [7; 8192];
    assert_eq!(rt; disk.read_page(geometry, 1, 0, &mut page), Ok(false));
    assert_eq!(rt; disk.create(geometry, 1), Ok(()));
    assert_eq!(rt; disk.write_page(geometry, 1, 2, &page), Ok(()));
    assert!(rt; progress.has_room(1) && !progress.has_room(2));
    assert_eq!(rt; disk.sync(geometry, 1), Ok(()));
    assert_eq!(rt; disk.sync(geometry, 1), Err(Failed));
    assert_eq!(rt; (disk.moment(), disk.faults(), calls.look()), (3, 1, 3));
    let created = calls.take().ok_or("a create")?;
    assert!(rt; matches!(&created.kind, CallKind::Create { .. }) && created.segment == 1);
    let written = calls.take().ok_or("a write")?;
    assert!(rt; matches!(&written.kind, CallKind::Write { page: 2, bytes } if bytes.bytes[0] == 7));
    let synced = calls.next().ok_or("a sync")?;
    assert!(rt; matches!(&synced.kind, CallKind::Sync));
    calls.acknowledge(2);
    assert_eq!(rt; (progress.made(), calls.taken()), (2, 2));
    calls.fail();
    assert!(rt; calls.take().is_none() && progress.has_failed());
    assert_eq!(rt; disk.create(geometry, 2), Err(Failed));
    assert_eq!(rt; disk.read_page(geometry, 1, 0, &mut page), Err(Failed));
    Ok(())
}
