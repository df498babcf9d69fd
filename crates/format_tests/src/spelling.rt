//! Records as they are spelled, read again, or refused.
use crate::rows::{
    BLOCK, BlockRow, COMMIT, Filled, ImageRow, RECORD, RecordRow, block_of, joined, record_of,
};
use std::alloc::{AllocError, Global};
use std::test::Fail;
use wal_crc32c::crc32c_by_division;
use wal_record::{Body, BodyErr, decode, refusal};
use wal_types::{BlockList, Lsn, Record, Rel, Xid};

// The bytes of a record's words, without the padding behind them.
fn spelled_by(alloc: Global, body: &Body, prev: Lsn) -> Result<Vec<u8>, AllocError> {
    let mut bytes = Vec::new(alloc);
    for n in 0..body.words() {
        bytes.extend_from_slice(&body.word(prev, n).to_le_bytes())?;
    }
    bytes.truncate(body.len() as usize);
    Ok(bytes)
}

fn spelled(alloc: Global, record: &Record) -> Result<Vec<u8>, BodyErr> {
    Ok(spelled_by(alloc, &Body::assemble(alloc, record)?, Lsn(0x10_0028))?)
}

// A record, and its bytes behind the header.
static SPELLED: &[(RecordRow, &[Filled])] = &[
    // Blocks of one relation name it once.
    (
        RecordRow {
            blocks: &[
                BlockRow {
                    content: Filled(b"\xaa\xbb\xcc", 0, 0),
                    ..BLOCK
                },
                BlockRow {
                    id: 1,
                    blk: 8,
                    content: Filled(b"\xdd\xee\xff", 0, 0),
                    ..BLOCK
                },
            ],
            ..RECORD
        },
        &[
            Filled(
                b"\x00\x20\x03\x00\x7f\x06\0\0\x05\0\0\0\x00\x40\0\0\x07\0\0\0",
                0,
                0,
            ),
            Filled(b"\x01\xa0\x03\x00\x08\0\0\0\xaa\xbb\xcc\xdd\xee\xff", 0, 0),
        ],
    ),
    // An image leaves out its hole.
    (
        RecordRow {
            blocks: &[BlockRow {
                image: Some(ImageRow {
                    apply: true,
                    hole: (64, 8000),
                    bytes: Filled(b"", 0x5a, 192),
                }),
                ..BLOCK
            }],
            ..RECORD
        },
        &[
            Filled(&[0x00, 0x10, 0, 0, 192, 0, 64, 0, 0x03], 0, 0),
            Filled(b"\x7f\x06\0\0\x05\0\0\0\x00\x40\0\0\x07\0\0\0", 0x5a, 192),
        ],
    ),
    // A page that is made anew has a whole image.
    (
        RecordRow {
            blocks: &[BlockRow {
                fork: 1,
                blk: 3,
                will_init: true,
                image: Some(ImageRow {
                    apply: false,
                    hole: (0, 0),
                    bytes: Filled(b"", 0, 8192),
                }),
                ..BLOCK
            }],
            ..RECORD
        },
        &[
            Filled(&[0x00, 0x51, 0, 0, 0x00, 0x20, 0, 0, 0x00], 0, 0),
            Filled(b"\x7f\x06\0\0\x05\0\0\0\x00\x40\0\0\x03\0\0\0", 0, 8192),
        ],
    ),
    // A hole to the page's end; behind the image two bytes of data, behind those main data.
    (
        RecordRow {
            origin: Some(9),
            top_xid: Some(Xid(8)),
            blocks: &[BlockRow {
                id: 3,
                rel: Rel {
                    spc: 1,
                    db: 2,
                    rel: 3,
                },
                fork: 1,
                blk: 4,
                will_init: true,
                content: Filled(&[6, 6], 0, 0),
                image: Some(ImageRow {
                    apply: true,
                    hole: (100, 8092),
                    bytes: Filled(b"", 5, 100),
                }),
            }],
            main: Filled(&[4], 0, 0),
            ..RECORD
        },
        &[
            Filled(&[3, 0x71, 2, 0, 100, 0, 100, 0, 3], 0, 0),
            Filled(&[1, 0, 0, 0, 2, 0, 0, 0, 3, 0, 0, 0, 4, 0, 0, 0], 0, 0),
            Filled(&[253, 9, 0, 252, 8, 0, 0, 0, 255, 1], 5, 100),
            Filled(&[6, 6, 4], 0, 0),
        ],
    ),
    // Main data have the shortest header.
    (RECORD, &[]),
    (
        RecordRow {
            main: Filled(b"", 7, 1),
            ..RECORD
        },
        &[Filled(&[255, 1], 7, 1)],
    ),
    (
        RecordRow {
            main: Filled(b"", 7, 255),
            ..RECORD
        },
        &[Filled(&[255, 255], 7, 255)],
    ),
    (
        RecordRow {
            main: Filled(b"", 7, 256),
            ..RECORD
        },
        &[Filled(&[254, 0, 1, 0, 0], 7, 256)],
    ),
];

// What is read of a spelling is spelled the same.
#[test]
fn records_are_spelled_and_read_again(rt: HostRuntime) -> Result<(), Fail> {
    let alloc = rt.alloc();
    for (row, items) in SPELLED {
        let bytes = spelled(alloc, &record_of(alloc, row)?)?;
        assert_eq!(rt; bytes.get(24..), Some(joined(alloc, items)?.as_slice()));
        let again = spelled(alloc, &decode(alloc, &bytes)?)?;
        assert_eq!(rt; again.as_slice(), bytes.as_slice());
    }
    Ok(())
}

// What a commit's CRC covers: its items, and then its header.
const COVERED: [u8; 30] = [
    0xff, 0x08, 0, 0, 0, 0, 0, 0, 0, 0, 0x22, 0, 0, 0, 0xbc, 0x02, 0, 0, 0, 0, 0, 0, 0, 0, 0, 0, 0,
    1, 0, 0,
];

#[test]
fn commit_is_spelled(rt: HostRuntime) -> Result<(), Fail> {
    let alloc = rt.alloc();
    let body = Body::assemble(alloc, &record_of(alloc, &COMMIT)?)?;
    assert_eq!(rt; (body.len(), body.words(), body.room()), (34, 5, 40));
    let (items, header) = COVERED.split_at(10);
    let mut bytes = Vec::from_slice(alloc, header)?;
    bytes.extend_from_slice(&crc32c_by_division(&COVERED).to_le_bytes())?;
    bytes.extend_from_slice(items)?;
    assert_eq!(rt;
        spelled_by(alloc, &body, Lsn(0))?.as_slice(),
        bytes.as_slice()
    );
    Ok(())
}

const ALL_BAD: RecordRow = RecordRow {
    rmid: 22,
    info: 0x40,
    blocks: &[BlockRow { id: 33, ..BLOCK }],
    main: Filled(b"", 0, 1_048_548),
    ..RECORD
};

// Of several reasons the first is told.
static REFUSED: &[(RecordRow, Option<BodyErr>)] = &[
    (ALL_BAD, Some(BodyErr::BadRmgr { rmid: 22 })),
    (RecordRow { rmid: 0, ..ALL_BAD }, Some(BodyErr::Switch)),
    (
        RecordRow { rmid: 1, ..ALL_BAD },
        Some(BodyErr::BadBlock { index: 0 }),
    ),
    (
        RecordRow {
            rmid: 1,
            blocks: &[],
            ..ALL_BAD
        },
        Some(BodyErr::TooLong { len: 1_048_577 }),
    ),
    // The longest record.
    (
        RecordRow {
            main: Filled(b"", 0, 1_048_547),
            ..RECORD
        },
        None,
    ),
];

#[test]
fn first_refusal_is_told(rt: HostRuntime) -> Result<(), Fail> {
    let alloc = rt.alloc();
    for (row, told) in REFUSED {
        let record = record_of(alloc, row)?;
        let refusals = [refusal(&record), Body::assemble(alloc, &record).err()];
        assert_eq!(rt; refusals, [*told; 2]);
    }
    Ok(())
}

const BAD: Option<BodyErr> = Some(BodyErr::BadBlock { index: 1 });

// A block's number, its fork, and how long its data are.
static SECOND_BLOCKS: &[(u8, u8, usize, Option<BodyErr>)] = &[
    (32, 3, 65_535, None),
    (33, 0, 0, BAD),
    (0, 0, 0, BAD),
    (1, 4, 0, BAD),
    (1, 0, 65_536, BAD),
];

// Where an image's hole begins, how long that is, and how many bytes are left.
static IMAGES: &[(u16, u16, usize, Option<BodyErr>)] = &[
    (0, 0, 8192, None),
    (64, 8000, 192, None),
    (192, 8000, 192, None),
    (193, 8000, 192, BAD),
    (0, 8000, 192, BAD),
    (64, 0, 8192, BAD),
    (64, 8000, 193, BAD),
    (0, 0, 8191, BAD),
];

// Why a record of a good block and this one is refused.
fn refusal_behind_another(alloc: Global, second: BlockRow) -> Result<Option<BodyErr>, AllocError> {
    let mut record = record_of(alloc, &RECORD)?;
    let blocks = vec![in alloc; block_of(alloc, &BLOCK)?, block_of(alloc, &second)?]?;
    record.blocks = BlockList::of(blocks);
    Ok(refusal(&record))
}

#[test]
fn wrong_second_block_is_told(rt: HostRuntime) -> Result<(), Fail> {
    for (id, fork, len, told) in SECOND_BLOCKS {
        let block = BlockRow {
            id: *id,
            fork: *fork,
            content: Filled(b"", 0, *len),
            ..BLOCK
        };
        assert_eq!(rt;
            refusal_behind_another(rt.alloc(), block)?,
            *told,
            "{id} {fork} {len}"
        );
    }
    Ok(())
}

#[test]
fn wrong_image_is_told(rt: HostRuntime) -> Result<(), Fail> {
    for (start, len, left, told) in IMAGES {
        let image = ImageRow {
            apply: true,
            hole: (*start, *len),
            bytes: Filled(b"", 0, *left),
        };
        let block = BlockRow {
            id: 1,
            image: Some(image),
            ..BLOCK
        };
        assert_eq!(rt;
            refusal_behind_another(rt.alloc(), block)?,
            *told,
            "{start} {len} {left}"
        );
    }
    Ok(())
}
