//! Redo of a log's page images, whose puts fail one by one.
use crate::calls::smallest;
use crate::reading::{Scene, TWO_COMMITS, disk_of};
use crate::rows::{BLOCK, BlockRow, Filled, ImageRow, RECORD, RecordRow};
use std::test::Fail;
use wal_redo::{BlockId, Blocks, MemBlocks, RedoErr, redo};
use wal_types::{Lsn, Rel};

const IMAGE: ImageRow = ImageRow {
    apply: true,
    hole: (64, 8100),
    bytes: Filled(b"", 0x11, 92),
};

// Blocks 7 and 8, and block 7 again.
const IMAGES: Scene = Scene {
    records: &[
        (
            RecordRow {
                blocks: &[
                    BlockRow {
                        image: Some(ImageRow {
                            hole: (64, 8000),
                            bytes: Filled(b"", 0x5a, 192),
                            ..IMAGE
                        }),
                        ..BLOCK
                    },
                    BlockRow {
                        id: 1,
                        blk: 8,
                        image: Some(IMAGE),
                        ..BLOCK
                    },
                ],
                ..RECORD
            },
            0,
            0,
        ),
        (
            RecordRow {
                blocks: &[BlockRow {
                    image: Some(ImageRow {
                        bytes: Filled(b"", 0x22, 92),
                        ..IMAGE
                    }),
                    ..BLOCK
                }],
                ..RECORD
            },
            44,
            0x10_0028,
        ),
    ],
    ..TWO_COMMITS
};

// The block at a place: its number, its page's first byte, and how many of the page's bytes are not
// 0.
fn filled(store: &MemBlocks, place: usize) -> Option<(u32, u8, u32)> {
    let (block, page) = store.at(place)?;
    let mut count = 0u32;
    for byte in page {
        count = count.saturating_add(u32::from(*byte != 0));
    }
    Some((block.blk, page[0], count))
}

// The put that fails, and what the last block is then.
static FAILING: &[(u64, usize, Option<(u32, u8, u32)>)] = &[
    (1, 0, None),
    (2, 1, Some((7, 0x5a, 192))),
    (3, 2, Some((7, 0x5a, 192))),
];

#[test]
fn a_put_that_failed_is_made_again(rt: HostRuntime) -> Result<(), Fail> {
    let alloc = rt.alloc();
    let mut disk = disk_of(alloc, &IMAGES)?;
    for (failing, blocks, first) in FAILING {
        let mut store = MemBlocks::new(alloc, vec![in alloc; *failing]?)?;
        let refused = redo(alloc, &mut disk, smallest(), Lsn(0x10_0000), &mut store);
        assert_eq!(rt; refused, Err(RedoErr::Store { faults: 1 }));
        assert_eq!(rt; store.len(), *blocks);
        assert_eq!(rt; filled(&store, 0), *first);
        for _again in 0..2 {
            let redone = redo(alloc, &mut disk, smallest(), Lsn(0x10_0000), &mut store);
            assert_eq!(rt; redone, Ok(3));
            assert_eq!(rt; filled(&store, 0), Some((7, 0x22, 92)));
            assert_eq!(rt; filled(&store, 1), Some((8, 0x11, 92)));
            assert_eq!(rt; filled(&store, 2), None);
        }
    }
    Ok(())
}

// Each of 2,000 blocks has its page.
#[test]
fn many_blocks_are_kept(rt: HostRuntime) -> Result<(), Fail> {
    let alloc = rt.alloc();
    let mut store = MemBlocks::new(alloc, Vec::new(alloc))?;
    let rel = Rel {
        spc: 1,
        db: 2,
        rel: 3,
    };
    for blk in 0..2000 {
        let block = BlockId { rel, fork: 0, blk };
        assert!(rt; store.put(alloc, block, &[0x5a; 8192]).is_ok());
    }
    assert_eq!(rt;
        (store.len(), filled(&store, 1999)),
        (2000, Some((1999, 0x5a, 8192)))
    );
    Ok(())
}
