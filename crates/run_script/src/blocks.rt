//! Block references as scripts spell them: `spc/db/rel:fork:blk:data:image`.

ghost use Rattle.std.specs.Prelude.{◌≡◌};
ghost use Rattle.run_script.specs.Blocks.{block_with, references_from, fork_of, fork_with, relation_with};
ghost use Rattle.run_script.specs.Reading.{Judges};

use crate::hexadecimal::data;
use crate::images::image;
use crate::line::ScriptFault;
use crate::line_error::LineError;
use cli_text::{Parts, number};
use std::alloc::Global;
use wal_types::{Block, BlockList, MAX_BLOCK_NUMBER, Rel};

/// A relation's fork, and whether redo makes the page anew.
#[derive(Clone, Copy)]
struct Fork {
    number: u8,
    will_init: bool,
}

/// The references of the fields that are left, numbered in their order.
pub(crate) fn blocks(alloc: Global, fields: Parts) -> Result<BlockList, LineError>
    ensures { Judges result (references_from 0 fields.entry) }
{
    let mut blocks = Vec::new(alloc);
    let mut id: u8 = 0;
    for field in fields {
        blocks.push(block(alloc, id, Parts::of(field, b':'))?)?;
        id = id.saturating_add(1);
    }
    Ok(BlockList::of(blocks))
}

fn block(alloc: Global, id: u8, mut parts: Parts) -> Result<Block, LineError>
    ensures { Judges result (block_with id parts.entry) }
{
    let rel = parts.next().ok_or(ScriptFault::Block)?;
    let fork = parts.next().ok_or(ScriptFault::Block)?;
    let blk = parts.next().ok_or(ScriptFault::Block)?;
    let content = parts.next().ok_or(ScriptFault::Block)?;
    let page = parts.next().ok_or(ScriptFault::Block)?;
    if parts.next().is_some() {
        return Err(LineError::Fault(ScriptFault::Block));
    }
    let rel = relation(Parts::of(rel, b'/'))?;
    let fork = fork_of(fork).ok_or(ScriptFault::Block)?;
    let blk = number(blk, u64::from(MAX_BLOCK_NUMBER)).ok_or(ScriptFault::Number)? as u32;
    Ok(Block {
        id,
        rel,
        fork: fork.number,
        blk,
        will_init: fork.will_init,
        content: data(alloc, content)?,
        image: image(alloc, page)?,
    })
}

fn relation(mut parts: Parts) -> Result<Rel, LineError>
    ensures { Judges result (relation_with parts.entry) }
{
    let spc = parts.next().ok_or(ScriptFault::Block)?;
    let db = parts.next().ok_or(ScriptFault::Block)?;
    let rel = parts.next().ok_or(ScriptFault::Block)?;
    if parts.next().is_some() {
        return Err(LineError::Fault(ScriptFault::Block));
    }
    Ok(Rel {
        spc: number(spc, u64::from(u32::MAX)).ok_or(ScriptFault::Number)? as u32,
        db: number(db, u64::from(u32::MAX)).ok_or(ScriptFault::Number)? as u32,
        rel: number(rel, u64::from(u32::MAX)).ok_or(ScriptFault::Number)? as u32,
    })
}

// `0` to `3`, with `i` behind it where redo makes the page anew.
fn fork_of(part: &[u8]) -> Option<Fork>
    ensures { result ≡ fork_of part.now }
{
    let (digit, will_init) = match part {
        [digit] => (*digit, false),
        [digit, b'i'] => (*digit, true),
        _ => return None,
    };
    match digit {
        b'0'..=b'3' => Some(Fork {
            number: digit - b'0',
            will_init,
        }),
        _ => None,
    }
}
