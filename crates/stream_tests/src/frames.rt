//! Frames as their bytes, and what a link makes of them.

use crate::log::{FrameBytes, Log, smallest};
use std::alloc::Global;
use std::test::Fail;
use wal_crc32c::Crc;
use wal_stream::FramedPage;

/// What a link makes of a frame.
#[derive(Clone, Copy)]
pub(crate) enum Link {
    Whole,
    /// The first bytes alone.
    Cut(usize),
    /// Another byte at a place.
    Byte(usize, u8),
    /// Other numbers of eight bytes at places, and the checksum made right.
    Numbers(&'static [(usize, u64)]),
    /// As many bytes of one kind.
    Garbage(u8),
}

/// Bytes of a frame with other numbers at places behind its checksum, which is made right.
fn sealed(bytes: &FrameBytes, numbers: &[(usize, u64)]) -> FrameBytes {
    let mut sealed = *bytes;
    for (at, number) in numbers {
        put_number(&mut sealed, *at, *number);
    }
    let mut crc = Crc::new();
    crc.update(&sealed[8..]);
    sealed[4..8].copy_from_slice(&crc.value().to_le_bytes());
    sealed
}

fn put_number(bytes: &mut FrameBytes, at: usize, number: u64) {
    if at <= 8216 {
        bytes[at..at + 8].copy_from_slice(&number.to_le_bytes());
    }
}

/// What comes over a link.
pub(crate) fn sent_over(alloc: Global, link: Link, bytes: &FrameBytes) -> Result<Vec<u8>, Fail> {
    let sent = match link {
        Link::Whole => bytes.to_vec(alloc)?,
        Link::Cut(count) => bytes[..count.min(8224)].to_vec(alloc)?,
        Link::Byte(at, byte) => {
            let mut bytes = *bytes;
            bytes[at % 8224] = byte;
            bytes.to_vec(alloc)?
        }
        Link::Numbers(numbers) => sealed(bytes, numbers).to_vec(alloc)?,
        Link::Garbage(byte) => vec![in alloc; byte; 8224]?,
    };
    Ok(sent)
}

// The frame of a commit of transaction 700: its checksum is that of another program.
static HEAD: [u8; 32] = [
    0x57, 0x41, 0x4c, 0x46, 0x40, 0x5e, 0x73, 0x3a, 0, 0, 0x10, 0, 0, 0, 0, 0, 0x50, 0, 0x10, 0, 0,
    0, 0, 0, 0, 0, 0x10, 0, 0, 0, 0, 0,
];

static PAGE: [u8; 80] = [
    0x13, 0xd1, 0x06, 0, 0x01, 0, 0, 0, 0, 0, 0x10, 0, 0, 0, 0, 0, 0, 0, 0, 0, 0, 0, 0, 0, 0x01, 0,
    0, 0, 0, 0, 0, 0, 0, 0, 0x10, 0, 0, 0x20, 0, 0, 0x22, 0, 0, 0, 0xbc, 0x02, 0, 0, 0, 0, 0, 0, 0,
    0, 0, 0, 0, 0x01, 0, 0, 0x3c, 0x08, 0xa5, 0xd9, 0xff, 0x08, 0, 0, 0, 0, 0, 0, 0, 0, 0, 0, 0, 0,
    0, 0,
];

#[test]
fn a_frame_has_these_bytes(rt: HostRuntime) -> Result<(), Fail> {
    let log = Log::of_script(rt.alloc(), b"C 700 0\n")?;
    let bytes = log.frame(0, None)?;
    let Some((head, page)) = bytes.as_slice().split_first_chunk::<32>() else {
        return Err(Fail::from("a frame's head"));
    };
    let Some((words, rest)) = page.split_first_chunk::<80>() else {
        return Err(Fail::from("a page"));
    };
    assert_eq!(rt; head.as_slice(), HEAD.as_slice());
    assert_eq!(rt; words.as_slice(), PAGE.as_slice());
    assert!(rt; rest.iter().all(|byte| *byte == 0));
    let Some(sent) = FramedPage::read(smallest(), &bytes) else {
        return Err(Fail::from("a frame is read"));
    };
    assert_eq!(rt; (sent.page(), sent.upto().0), (128, 0x10_0050));
    assert!(rt; sent.bytes().as_slice() == page);
    Ok(())
}
