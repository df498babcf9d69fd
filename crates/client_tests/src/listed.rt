//! Rows of printed text, as rmgrdesc's functions and docs/FORMATS.md have it.

ghost use Rattle.std.specs.Prelude.{IfOk};
ghost use Rattle.waldump_text.specs.Listing.{IsListable};

use cluster_listing::{Form, kind_name, push_record};
use std::alloc::{AllocError, Global};
use std::test::Fail;
use wal_types::{Block, BlockList, Bytes, Image, Lsn, Record, Rel, Xid};
use waldump_filter::Listed;

// A manager, an info, and the word of such a record.
const KINDS: [(u8, u8, &str); 18] = [
    (0, 0xA0, "FPI_FOR_HINT"),
    (1, 0x80, "COMMIT"),
    (1, 0xA0, "ABORT"),
    (2, 0x00, "UNKNOWN (0)"),
    (2, 0x10, "CREATE"),
    (8, 0x10, "RUNNING_XACTS"),
    (9, 0xD0, "MULTI_INSERT+INIT"),
    (10, 0x41, "HOT_UPDATE"),
    (11, 0xE0, "META_CLEANUP"),
    (12, 0xD0, "UNKNOWN (d0)"),
    (13, 0x90, "VACUUM_DATA_LEAF_PAGE"),
    (14, 0x70, "ASSIGN_LSN"),
    (16, 0x80, "VACUUM_REDIRECT"),
    (17, 0x90, "INSERT+INIT"),
    (19, 0x10, "DROP"),
    (20, 0x30, "Generic"),
    (21, 0x00, "MESSAGE"),
    (200, 0x10, "UNKNOWN (10)"),
];

#[test]
fn records_have_their_words(rt: HostRuntime) {
    for (rmid, info, word) in KINDS {
        assert_eq!(rt; kind_name(rmid, info).as_bytes(), word.as_bytes());
    }
}

// An update whose page has an image with a hole.
fn update(alloc: Global) -> Result<Listed, AllocError>
    ensures { IfOk result IsListable }
{
    let mut blocks = Vec::new(alloc);
    blocks.push(Block {
        id: 0,
        rel: Rel {
            spc: 1663,
            db: 5,
            rel: 16384,
        },
        fork: 2,
        blk: 7,
        will_init: false,
        content: Bytes::of(vec![in alloc; 1; 2]?),
        image: Some(Image {
            apply: true,
            hole_offset: 4,
            hole_len: 8188,
            bytes: Bytes::of(vec![in alloc; 0; 4]?),
        }),
    })?;
    Ok(Listed {
        start: Lsn(0x100_0028),
        prev: Lsn(0xFF_FFD8),
        total: 60,
        value: Record {
            xid: Xid(700),
            rmid: 10,
            info: 0x40,
            origin: None,
            top_xid: None,
            blocks: BlockList::of(blocks),
            main: Bytes::of(vec![in alloc; 3; 3]?),
        },
    })
}

#[test]
fn an_update_has_its_texts(rt: HostRuntime) -> Result<(), Fail> {
    let alloc = rt.alloc();
    let r = update(alloc)?;
    let mut text = Vec::new(alloc);
    push_record(&mut text, Form::Line { whole: false }, &r)?;
    push_record(&mut text, Form::Json { whole: false }, &r)?;
    assert_eq!(rt;
        text.as_slice(),
        b"rmgr: Heap        len (rec/tot):     56/    60, tx:        700, lsn: 0/01000028, prev \
          0/00FFFFD8, desc: HOT_UPDATE data 030303, blkref #0: rel 1663/5/16384 fork vm blk 7 FPW\n\
          {\"rmgr\":\"Heap\",\"rec_len\":56,\"total_len\":60,\"xid\":700,\"lsn\":\"0/01000028\",\
          \"prev\":\"0/00FFFFD8\",\"desc\":\"HOT_UPDATE\",\"main_len\":3,\"main\":\"030303\",\
          \"blocks\":[{\"id\":0,\"spc\":1663,\"db\":5,\"rel\":16384,\"fork\":\"vm\",\"blk\":7,\
          \"data_len\":2,\"image\":{\"apply\":true,\"hole_offset\":4,\"hole_len\":8188,\
          \"len\":4}}]}\n"
            .as_slice()
    );
    Ok(())
}
