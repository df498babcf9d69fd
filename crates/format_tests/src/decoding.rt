//! Records as they are read from their bytes.
use std::alloc::{AllocError, Global};
use std::test::Fail;
use wal_record::{RecErr, RecKind, decode, decode_stored};
use wal_types::Record;

// A block's header without image and data: number 0, main fork, relation 1/2/3, block 4.
const BLOCK: [u8; 20] = [0, 0, 0, 0, 1, 0, 0, 0, 2, 0, 0, 0, 3, 0, 0, 0, 4, 0, 0, 0];

// A record of these bytes behind a header that is right.
fn spelled(alloc: Global, rmid: u8, front: &[u8], items: &[u8]) -> Result<Vec<u8>, AllocError> {
    let mut behind = Vec::from_slice(alloc, front)?;
    behind.extend_from_slice(items)?;
    let len = u32::try_from(24 + behind.len()).unwrap_or(u32::MAX);
    let mut bytes = Vec::from_slice(alloc, &len.to_le_bytes())?;
    bytes.extend_from_slice(&[0; 13])?;
    bytes.extend_from_slice(&[rmid, 0, 0, 0, 0, 0, 0])?;
    bytes.extend_from_slice(&behind)?;
    Ok(bytes)
}

// The manager, bytes in front of an item, the item, and what is told of them: which check fails,
// and where.
static READ: &[(u8, &[u8], &[u8], Option<(u64, RecKind)>)] = &[
    (21, b"", b"", None),
    (22, b"", b"", Some((17, RecKind::Rmgr))),
    (127, b"", b"", Some((17, RecKind::Rmgr))),
    (128, b"", b"", None),
    (1, b"", &[33], Some((24, RecKind::Id))),
    (1, b"", &[251], Some((24, RecKind::Id))),
    (1, &[253, 1, 0], &[33], Some((27, RecKind::Id))),
    (1, &[253, 1, 0], &[0], Some((27, RecKind::Order))),
    (1, &[252, 1, 0, 0, 0], &[0], Some((29, RecKind::Order))),
    (1, &[253, 1, 0], &[253, 1, 0], Some((27, RecKind::Order))),
    (
        1,
        &[252, 1, 0, 0, 0],
        &[253, 1, 0],
        Some((29, RecKind::Order)),
    ),
    (1, &[252, 1, 0, 0, 0], &[252, 1], Some((29, RecKind::Order))),
    (1, b"", &[253, 1], Some((25, RecKind::Short))),
    (1, b"", &[252, 1, 0, 0], Some((25, RecKind::Short))),
    (1, b"", &[255], Some((25, RecKind::Short))),
    (1, &[253, 1, 0], &[254, 0, 0, 0], Some((28, RecKind::Short))),
    (1, b"", &[255, 3, 0, 0], Some((26, RecKind::Fill))),
    (1, b"", &[254, 1, 0, 0, 0, 7, 7], Some((29, RecKind::Fill))),
    // A block's header.
    (1, b"", &BLOCK, None),
    (1, b"", &[0], Some((25, RecKind::Short))),
    (1, b"", &[32, 0, 0], Some((25, RecKind::Short))),
    (1, b"", &[0, 4, 0, 0], Some((25, RecKind::Fork))),
    (1, b"", &[0, 0x20, 0, 0], Some((25, RecKind::Data))),
    (1, b"", &[0, 0, 1, 0], Some((25, RecKind::Data))),
    (
        1,
        b"",
        &[0, 0x10, 0, 0, 0, 0x20, 0, 0],
        Some((28, RecKind::Short)),
    ),
    (1, b"", &[0, 0, 0, 0, 1, 2, 3], Some((28, RecKind::Short))),
    (
        1,
        b"",
        &[0, 0x10, 0, 0, 0, 0x20, 0, 0, 0],
        Some((33, RecKind::Short)),
    ),
    (
        1,
        b"",
        &[0, 0x80, 0, 0, 1, 2, 3, 4],
        Some((28, RecKind::Same)),
    ),
    (
        1,
        b"",
        &[0, 0x90, 0, 0, 0, 0x20, 0, 0, 0],
        Some((33, RecKind::Same)),
    ),
    (
        1,
        &[0, 0, 0, 0],
        &[1, 0, 0, 0, 2, 0, 0, 0, 3, 0, 0, 0, 4, 0, 0],
        Some((40, RecKind::Short)),
    ),
    // An image of 8193 bytes; a flag that there is not; a hole at the page's start, one of no
    // bytes, one past the page's end; no hole, and yet its place or its bytes.
    (
        1,
        &[0, 0x10, 0, 0],
        &[0x01, 0x20, 0, 0, 0],
        Some((28, RecKind::Image)),
    ),
    (
        1,
        &[0, 0x10, 0, 0],
        &[0x00, 0x20, 0, 0, 0x20],
        Some((28, RecKind::Image)),
    ),
    (
        1,
        &[0, 0x10, 0, 0],
        &[0x64, 0, 0, 0, 1],
        Some((28, RecKind::Image)),
    ),
    (
        1,
        &[0, 0x10, 0, 0],
        &[0x00, 0x20, 5, 0, 1],
        Some((28, RecKind::Image)),
    ),
    (
        1,
        &[0, 0x10, 0, 0],
        &[0x64, 0, 0x65, 0, 1],
        Some((28, RecKind::Image)),
    ),
    (
        1,
        &[0, 0x10, 0, 0],
        &[0x00, 0x20, 5, 0, 0],
        Some((28, RecKind::Image)),
    ),
    (
        1,
        &[0, 0x10, 0, 0],
        &[0x64, 0, 0, 0, 0],
        Some((28, RecKind::Image)),
    ),
    // Of two checks of one group that fail, the first: a fork that there is not, and a flag for
    // data with none; a flag that means nothing, and a compressed image; the relation of no block
    // before, and no block number; a number out of its order, and a fork that there is not.
    (1, b"", &[0, 0x24, 0, 0], Some((25, RecKind::Fork))),
    (
        1,
        &[0, 0x10, 0, 0],
        &[0x64, 0, 0, 0, 0x24],
        Some((28, RecKind::Image)),
    ),
    (1, b"", &[0, 0x80, 0, 0], Some((28, RecKind::Same))),
    (1, &BLOCK, &[0, 4, 0, 0], Some((44, RecKind::Order))),
    // A second block. One byte of data is owed, and none or two are left.
    (1, &BLOCK, &[1, 0x80, 0, 0, 1, 2, 3, 4], None),
    (1, &BLOCK, &[0, 0, 0, 0], Some((44, RecKind::Order))),
    (
        1,
        &BLOCK,
        &[1, 0x80, 0, 0, 1, 2, 3],
        Some((48, RecKind::Short)),
    ),
    (
        1,
        &BLOCK,
        &[1, 0xa0, 1, 0, 1, 2, 3, 4],
        Some((52, RecKind::Fill)),
    ),
    (
        1,
        &BLOCK,
        &[1, 0xa0, 1, 0, 1, 2, 3, 4, 255, 0, 9, 9],
        Some((54, RecKind::Fill)),
    ),
];

#[test]
fn first_check_that_fails_is_told(rt: HostRuntime) -> Result<(), Fail> {
    let alloc = rt.alloc();
    for (row, (rmid, front, items, told)) in READ.iter().enumerate() {
        let wrong = decode(alloc, &spelled(alloc, *rmid, front, items)?).err();
        let told = match *told {
            Some((at, kind)) => Some(RecErr::Malformed { at, kind }),
            None => None,
        };
        assert!(rt; wrong == told, "row {row}");
    }
    Ok(())
}

const LENGTH: Option<RecErr> = Some(RecErr::Malformed {
    at: 0,
    kind: RecKind::Length,
});

// A compressed image is told before its hole is looked at.
#[test]
fn length_and_compression_are_told(rt: HostRuntime) -> Result<(), Fail> {
    let alloc = rt.alloc();
    let compressed = spelled(alloc, 1, &[7, 0x10, 0, 0], &[0x64, 0, 0, 0, 0x07])?;
    let told = [
        decode(alloc, &[23; 23]).err(),
        decode(alloc, &[0; 24]).err(),
        decode(alloc, &compressed).err(),
    ];
    assert_eq!(rt;
        told,
        [LENGTH, LENGTH, Some(RecErr::Compressed { block: 7 })]
    );
    Ok(())
}

// An image's header of four bytes, and which check of a record with that image as it is stored
// fails: with a hole and without; a hole at the page's start, one of no length, one that is not
// told; as long as a page; a flag that means nothing; one that is not compressed.
static STORED: &[(&[u8], Option<RecKind>)] = &[
    (&[4, 0, 56, 0, 0x0b, 88, 27], None),
    (&[4, 0, 0, 0, 0x06], None),
    (&[4, 0, 0, 0, 0x0b, 88, 27], Some(RecKind::Image)),
    (&[4, 0, 56, 0, 0x0b, 0, 0], Some(RecKind::Image)),
    (&[4, 0, 56, 0, 0x06], Some(RecKind::Image)),
    (&[0, 0x20, 0, 0, 0x12], Some(RecKind::Image)),
    (&[4, 0, 0, 0, 0x26], Some(RecKind::Image)),
    (&[4, 0, 1, 0, 0x03], None),
];

#[test]
fn compressed_images_are_read_as_stored(rt: HostRuntime) -> Result<(), Fail> {
    let alloc = rt.alloc();
    let mut record = Record::blank(alloc);
    for (header, kind) in STORED {
        let mut items = Vec::from_slice(alloc, header)?;
        items.extend_from_slice(&BLOCK[4..])?;
        items.extend_from_slice(&[9; 4])?;
        let bytes = spelled(alloc, 1, &[0, 0x10, 0, 0], &items)?;
        let wrong = decode_stored(alloc, &mut Vec::new(alloc), &mut record, &bytes).err();
        let told = kind.map(|kind| RecErr::Malformed { at: 28, kind });
        assert_eq!(rt; wrong, told, "{header:?}");
    }
    Ok(())
}

// The main data's header, and how many bytes it says.
static MAINS: &[(&[u8], usize)] = &[
    (&[], 0),
    (&[255, 0], 0),
    (&[254, 0, 0, 0, 0], 0),
    (&[255, 255], 255),
    (&[254, 255, 0, 0, 0], 255),
    (&[254, 0, 1, 0, 0], 256),
];

#[test]
fn both_forms_of_main_data_are_read(rt: HostRuntime) -> Result<(), Fail> {
    let alloc = rt.alloc();
    for (header, len) in MAINS {
        let main = vec![in alloc; 7; *len]?;
        let record = decode(alloc, &spelled(alloc, 1, header, &main)?)?;
        assert_eq!(rt; record.main.as_slice(), main.as_slice());
    }
    Ok(())
}
