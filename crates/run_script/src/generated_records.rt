//! The records of the generator's lines.

ghost use Rattle.std.specs.Prelude.{◌≡◌, ◌+◌, ◌*◌, ◌%◌, ◌<◌, IfOk, replicate};
ghost use Rattle.run_script.specs.Generated.{generated_asked, generated_block, generated_blocks, generated_data, generated_image, generated_record};
ghost use Rattle.wal_spelling.specs.Spelling.{IsWritable};
ghost use Rattle.run_script.specs.Bodies.{IsActionOf, IsBodyOf};
ghost use Rattle.run_script.specs.Meaning.{commit_record};

use crate::line::Action;
use std::alloc::{AllocError, Global};
use wal_spelling::{Body, BodyErr, KeptBody};
use wal_types::{Block, BlockList, Bytes, Image, Record, Rel, TRANSACTION_MANAGER, Xid};

// The resource manager of heap (PostgreSQL's rmgrlist.h).
const HEAP_MANAGER: u8 = 10;

// The transaction of backend 0; each other backend's is the next one.
const FIRST_XID: u32 = 100;

// The tablespace and the database of a new cluster's first database, and the first relation in it
// that is a user's (PostgreSQL's pg_tablespace.dat, pg_database.dat and transam.h).
const TABLESPACE: u32 = 1663;

const DATABASE: u32 = 5;

const FIRST_RELATION: u32 = 16_384;

const HOLE_OFFSET: u16 = 64;

const HOLE_LEN: u16 = 8000;

// An image's bytes: those of a page of 8192 bytes without the hole.
const IMAGE_LEN: usize = 192;

// Data is shorter than that.
const DATA_LIMIT: u64 = 1500;

// Which of ten lines, counted from 0, has a block, and which commits.
const BLOCK_PLACE: u32 = 4;

const COMMIT_PLACE: u32 = 9;

/// What the line of an index asks its backend for, with its record assembled.
pub(crate) fn action(alloc: Global, backend: u32, index: u32) -> Result<Action<'static>, AllocError>
    requires backend { backend < 4 }
    requires index { index < 100000 }
    ensures { IfOk result (IsActionOf (generated_asked backend index)) }
{
    if index % 10 == COMMIT_PLACE {
        let value = commit_record(alloc, backend, index)?;
        Ok(Action::Commit(assembled(alloc, &value)?))
    } else {
        let value = insert_record(alloc, backend, index)?;
        Ok(Action::Insert(assembled(alloc, &value)?))
    }
}

// A record that can be written, assembled: only memory may run out.
fn assembled(alloc: Global, value: &Record) -> Result<KeptBody<'static>, AllocError>
    requires { IsWritable value.now }
    ensures { IfOk result (IsBodyOf value.now) }
{
    match Body::assemble(alloc, value) {
        Ok(body) => KeptBody::boxed(alloc, body),
        Err(error) => {
            prove!(matches!(error, BodyErr::Memory));
            Err(AllocError)
        }
    }
}

// A transaction's commit: its time is the main data.
fn commit_record(alloc: Global, backend: u32, index: u32) -> Result<Record, AllocError>
    requires { backend < 4 }
    ensures { IfOk result (λ r. r ≡ commit_record (100 + backend) index) }
{
    let time = u64::from(index).to_le_bytes();
    let main = Vec::from_slice(alloc, &time)?;
    Ok(Record {
        xid: Xid(FIRST_XID + backend),
        rmid: TRANSACTION_MANAGER,
        info: 0,
        origin: None,
        top_xid: None,
        blocks: BlockList::of(Vec::new(alloc)),
        main: Bytes::of(main),
    })
}

fn insert_record(alloc: Global, backend: u32, index: u32) -> Result<Record, AllocError>
    requires backend { backend < 4 }
    requires index { index < 100000 }
    ensures { IfOk result (λ r. r ≡ generated_record backend index) }
{
    let blocks = blocks(alloc, backend, index)?;
    let main = data(alloc, backend, index)?;
    Ok(Record {
        xid: Xid(FIRST_XID + backend),
        rmid: HEAP_MANAGER,
        info: 0,
        origin: None,
        top_xid: None,
        blocks: BlockList::of(blocks),
        main,
    })
}

fn data(alloc: Global, backend: u32, index: u32) -> Result<Bytes, AllocError>
    requires backend { backend < 4 }
    requires index { index < 100000 }
    ensures { IfOk result (λ bytes. bytes ≡ generated_data backend index) }
{
    let len = data_len(u64::from(backend), u64::from(index));
    repeated(alloc, ((index + backend) % 256) as u8, len)
}

fn data_len(backend: u64, index: u64) -> usize
    requires backend { backend < 4 }
    requires index { index < 100000 }
    ensures { result ≡ (7 * index * index + 17 * index + 131 * backend) % 1500 }
{
    ((7 * index * index + 17 * index + 131 * backend) % DATA_LIMIT) as usize
}

// One byte, so many times.
fn repeated(alloc: Global, byte: u8, len: usize) -> Result<Bytes, AllocError>
    ensures { IfOk result (λ bytes. bytes ≡ replicate len byte) }
{
    let bytes = vec![in alloc; byte; len]?;
    Ok(Bytes::of(bytes))
}

fn blocks(alloc: Global, backend: u32, index: u32) -> Result<Vec<Block>, AllocError>
    requires { backend < 4 }
    ensures { IfOk result (λ blocks. blocks.items ≡ generated_blocks backend index) }
{
    let mut blocks = Vec::new(alloc);
    if index % 10 == BLOCK_PLACE {
        blocks.push(block(alloc, backend, index)?)?;
    }
    Ok(blocks)
}

fn block(alloc: Global, backend: u32, index: u32) -> Result<Block, AllocError>
    requires { backend < 4 }
    ensures { IfOk result (λ block. block ≡ generated_block backend index) }
{
    Ok(Block {
        id: 0,
        rel: Rel {
            spc: TABLESPACE,
            db: DATABASE,
            rel: FIRST_RELATION + backend,
        },
        fork: 0,
        blk: index,
        will_init: false,
        content: Bytes::of(Vec::new(alloc)),
        image: Some(image(alloc, index)?),
    })
}

fn image(alloc: Global, index: u32) -> Result<Image, AllocError>
    ensures { IfOk result (λ image. image ≡ generated_image index) }
{
    let bytes = repeated(alloc, (index % 256) as u8, IMAGE_LEN)?;
    Ok(Image {
        apply: true,
        hole_offset: HOLE_OFFSET,
        hole_len: HOLE_LEN,
        bytes,
    })
}
