ghost use Rattle.std.specs.Prelude.{◌≡◌, ◌++◌, ◌∷◌, [], List, OnOk};

use crate::bytes::Bytes;
use std::alloc::{AllocError, Global};
use std::marker::Model;

/// A transaction's number.
#[derive(Clone, Copy, Debug, PartialEq, Eq)]
pub struct Xid(pub u32);

/// A relation: its tablespace, its database and its own number (PostgreSQL's relfilelocator.h).
#[derive(Clone, Copy, Debug, PartialEq, Eq)]
pub struct Rel {
    pub spc: u32,
    pub db: u32,
    pub rel: u32,
}

/// A full-page image of a block, without its hole (PostgreSQL's xlogrecord.h).
#[derive(Debug, Drop)]
pub struct Image {
    /// Whether redo puts the image in the block's place.
    pub apply: bool,
    /// Where the hole of zeros begins in the page, in bytes; 0 where there is none.
    pub hole_offset: u16,
    /// How many bytes the hole has; 0 where there is none.
    pub hole_len: u16,
    /// The page's bytes before and behind the hole.
    pub bytes: Bytes,
}

/// A reference to a block that a record changes.
#[derive(Debug, Drop)]
pub struct Block {
    /// The reference's number in its record, 0 to 32.
    pub id: u8,
    pub rel: Rel,
    /// The relation's fork: 0 main, 1 fsm, 2 vm, 3 init.
    pub fork: u8,
    /// The block's number in its fork.
    pub blk: u32,
    /// Whether redo makes the page anew.
    pub will_init: bool,
    /// The data that the record has for this block.
    pub content: Bytes,
    pub image: Option<Image>,
}

/// The blocks that a record references, seen by contracts as a list.
#[derive(Debug, Drop)]
pub struct BlockList {
    blocks: Vec<Block>,
}

impl Model for BlockList {
    ghost use Rattle.std.specs.Prelude.{List};
    ghost use Rattle.wal_types.specs.declared.record.Block.{Block};

    ghost Value = { List Block };

    ghost view = { λ b. b.blocks.items };
}

impl BlockList {
    /// The blocks of a vector, which is kept and not copied.
    pub fn of(blocks: Vec<Block>) -> BlockList
        ensures { result ≡ blocks.items }
    {
        BlockList { blocks }
    }

    /// No blocks; no memory is taken for it.
    pub fn none(alloc: Global) -> BlockList
        ensures { result ≡ [] }
    {
        BlockList {
            blocks: Vec::new(alloc),
        }
    }

    /// Has no blocks from now on, and keeps the room of its list.
    pub fn clear(&mut self)
        ensures { self.new ≡ [] }
    {
        self.blocks.clear();
    }

    /// Has one block more, behind the others.
    pub fn push(&mut self, block: Block) -> Result<(), AllocError>
        ensures { OnOk result (self.new ≡ self.old ++ block ∷ []) }
    {
        self.blocks.push(block)?;
        Ok(())
    }

    pub fn as_slice(&self) -> &[Block]
        ensures { result.now ≡ self.now }
    {
        self.blocks.as_slice()
    }
}

/// The resource manager of transactions (PostgreSQL's rmgrlist.h).
pub const TRANSACTION_MANAGER: u8 = 1;

/// The largest number of a relation's block (PostgreSQL's MaxBlockNumber of block.h).
pub const MAX_BLOCK_NUMBER: u32 = 0xFFFF_FFFE;

/// A record of the log: its header's own fields and what it carries (PostgreSQL's xlogrecord.h).
#[derive(Debug, Drop)]
pub struct Record {
    /// The transaction that wrote it, 0 for none.
    pub xid: Xid,
    /// The resource manager that it belongs to.
    pub rmid: u8,
    /// The manager's own flags.
    pub info: u8,
    /// The replication origin.
    pub origin: Option<u16>,
    /// The top-level transaction of `xid`, where it is told.
    pub top_xid: Option<Xid>,
    pub blocks: BlockList,
    /// The main data.
    pub main: Bytes,
}

impl Record {
    /// A record that says nothing, for whoever has it filled; no memory is taken for it.
    pub fn blank(alloc: Global) -> Record {
        Record {
            xid: Xid(0),
            rmid: 0,
            info: 0,
            origin: None,
            top_xid: None,
            blocks: BlockList::none(alloc),
            main: Bytes::none(alloc),
        }
    }
}
