//! Records as rows.
use std::alloc::{AllocError, Global};
use wal_types::{Block, BlockList, Bytes, Image, Record, Rel, Xid};

/// Bytes: some, and behind them so many of one.
#[derive(Clone, Copy)]
pub(crate) struct Filled(pub(crate) &'static [u8], pub(crate) u8, pub(crate) usize);

pub(crate) const NO_BYTES: Filled = Filled(b"", 0, 0);

impl Filled {
    pub(crate) fn to_vec(self, alloc: Global) -> Result<Vec<u8>, AllocError> {
        let Filled(front, byte, count) = self;
        let mut bytes = Vec::from_slice(alloc, front)?;
        bytes.extend_from_slice(&vec![in alloc; byte; count]?)?;
        Ok(bytes)
    }

    fn to_bytes(self, alloc: Global) -> Result<Bytes, AllocError> {
        Ok(Bytes::of(self.to_vec(alloc)?))
    }
}

/// All these bytes, one behind another.
pub(crate) fn joined(alloc: Global, pieces: &[Filled]) -> Result<Vec<u8>, AllocError> {
    let mut bytes = Vec::new(alloc);
    for piece in pieces {
        bytes.extend_from_slice(&piece.to_vec(alloc)?)?;
    }
    Ok(bytes)
}

/// An image: where its hole begins, how long that is, and the bytes around it.
#[derive(Clone, Copy)]
pub(crate) struct ImageRow {
    pub(crate) apply: bool,
    pub(crate) hole: (u16, u16),
    pub(crate) bytes: Filled,
}

#[derive(Clone, Copy)]
pub(crate) struct BlockRow {
    pub(crate) id: u8,
    pub(crate) rel: Rel,
    pub(crate) fork: u8,
    pub(crate) blk: u32,
    pub(crate) will_init: bool,
    pub(crate) content: Filled,
    pub(crate) image: Option<ImageRow>,
}

pub(crate) const BLOCK: BlockRow = BlockRow {
    id: 0,
    rel: Rel {
        spc: 1663,
        db: 5,
        rel: 16384,
    },
    fork: 0,
    blk: 7,
    will_init: false,
    content: NO_BYTES,
    image: None,
};

#[derive(Clone, Copy)]
pub(crate) struct RecordRow {
    pub(crate) xid: u32,
    pub(crate) rmid: u8,
    pub(crate) info: u8,
    pub(crate) origin: Option<u16>,
    pub(crate) top_xid: Option<Xid>,
    pub(crate) blocks: &'static [BlockRow],
    pub(crate) main: Filled,
}

pub(crate) const RECORD: RecordRow = RecordRow {
    xid: 2,
    rmid: 10,
    info: 0,
    origin: None,
    top_xid: None,
    blocks: &[],
    main: NO_BYTES,
};

/// A commit of transaction 700, as PostgreSQL's XactLogCommitRecord writes it: eight bytes of time.
pub(crate) const COMMIT: RecordRow = RecordRow {
    xid: 700,
    rmid: 1,
    main: Filled(b"", 0, 8),
    ..RECORD
};

fn image_of(alloc: Global, row: Option<ImageRow>) -> Result<Option<Image>, AllocError> {
    match row {
        None => Ok(None),
        Some(ImageRow { apply, hole, bytes }) => Ok(Some(Image {
            apply,
            hole_offset: hole.0,
            hole_len: hole.1,
            bytes: bytes.to_bytes(alloc)?,
        })),
    }
}

pub(crate) fn block_of(alloc: Global, row: &BlockRow) -> Result<Block, AllocError> {
    Ok(Block {
        id: row.id,
        rel: row.rel,
        fork: row.fork,
        blk: row.blk,
        will_init: row.will_init,
        content: row.content.to_bytes(alloc)?,
        image: image_of(alloc, row.image)?,
    })
}

pub(crate) fn record_of(alloc: Global, row: &RecordRow) -> Result<Record, AllocError> {
    let mut blocks = Vec::new(alloc);
    for block in row.blocks {
        blocks.push(block_of(alloc, block)?)?;
    }
    Ok(Record {
        xid: Xid(row.xid),
        rmid: row.rmid,
        info: row.info,
        origin: row.origin,
        top_xid: row.top_xid,
        blocks: BlockList::of(blocks),
        main: row.main.to_bytes(alloc)?,
    })
}
