//! Blocks that a record references, as they cross: each comes with a call of its own, its image
//! with one before that. They are of the record that is appended next, and let go then, whatever
//! that append answers.
ghost use Rattle.std.specs.Prelude.{◌≡◌, ◌++◌, [], ◌∷◌, false, IfOk};
ghost use Rattle.wal_spelling.specs.Spelling.{assembled, is_assembled_switch};
ghost use Rattle.pgwal_c.specs.ReaderTold.{TellsBlock};
ghost use Rattle.pgwal_c.specs.Told.{GoesOnHeld, TellsGiven, block_asked, image_asked, nothing_given, record_asked};

use crate::answers::{DONE, MEMORY};
use crate::session_handle::{SessionCall, SessionHandle};
use std::alloc::{AllocError, Global};
use std::mem;
use wal_spelling::{Body, BodyErr};
use wal_types::{Block, BlockList, Bytes, Image, Record, Rel, Xid};

/// A reference to a block. A yes is 1, a no 0.
#[repr(C)]
#[derive(Clone, Copy)]
pub struct BlockCall {
    /// The reference's number in its record, 0 to 32.
    pub id: u8,
    /// The relation's fork: 0 main, 1 fsm, 2 vm, 3 init.
    pub fork: u8,
    /// Whether redo makes the page anew.
    pub will_init: u8,
    /// Whether it has an image, and whether redo puts that in the block's place.
    pub has_image: u8,
    pub apply: u8,
    /// Where the image's hole begins, and how many bytes it has; 0 where there is none.
    pub hole_offset: u16,
    pub hole_len: u16,
    /// The relation's tablespace, database and number, and the block's number in its fork.
    pub spc: u32,
    pub db: u32,
    pub rel: u32,
    pub blk: u32,
    /// How many bytes of data the record has for it, and how many its image has.
    pub len: u64,
    pub image_len: u64,
}

impl BlockCall {
    /// A block as a reader tells it.
    pub fn of(block: &Block) -> BlockCall
        ensures { TellsBlock block.now result }
    {
        let Block {
            id,
            rel,
            fork,
            blk,
            will_init,
            ..
        } = *block;
        let mut told = BlockCall {
            id,
            fork,
            will_init: u8::from(will_init),
            has_image: 0,
            apply: 0,
            hole_offset: 0,
            hole_len: 0,
            spc: rel.spc,
            db: rel.db,
            rel: rel.rel,
            blk,
            len: block.content.as_slice().len() as u64,
            image_len: 0,
        };
        if let Some(image) = &block.image {
            told.has_image = 1;
            told.apply = u8::from(image.apply);
            told.hole_offset = image.hole_offset;
            told.hole_len = image.hole_len;
            told.image_len = image.bytes.as_slice().len() as u64;
        }
        told
    }
}

fn copied(alloc: Global, data: &[u8]) -> Result<Bytes, AllocError>
    ensures { IfOk result (λ bytes. bytes ≡ «data».now) }
{
    let mut bytes = Bytes::none(alloc);
    bytes.put(data)?;
    Ok(bytes)
}

impl SessionHandle {
    /// Keeps an image for the block that is added next.
    pub(crate) fn add_image(&mut self, data: &[u8], call: &SessionCall) -> u32
        ensures { TellsGiven self.old self.new result (record {
          blocks = self.old.given.blocks;
          image = Some (image_asked call.now «data».now);
        }) }
    {
        let Ok(bytes) = copied(self.alloc, data) else {
            return self.drop_blocks();
        };
        self.image = Some(Image {
            apply: call.block.apply != 0,
            hole_offset: call.block.hole_offset,
            hole_len: call.block.hole_len,
            bytes,
        });
        DONE
    }

    /// Adds a block that the next record references, with the image that is kept.
    pub(crate) fn add_block(&mut self, data: &[u8], call: &SessionCall) -> u32
        ensures { TellsGiven self.old self.new result (record {
          blocks = self.old.given.blocks
              ++ block_asked self.old.given.image call.now «data».now ∷ [];
          image = None;
        }) }
    {
        let Ok(content) = copied(self.alloc, data) else {
            return self.drop_blocks();
        };
        let asked = &call.block;
        let block = Block {
            id: asked.id,
            rel: Rel {
                spc: asked.spc,
                db: asked.db,
                rel: asked.rel,
            },
            fork: asked.fork,
            blk: asked.blk,
            will_init: asked.will_init != 0,
            content,
            image: self.image.take(),
        };
        match self.blocks.push(block) {
            Ok(()) => DONE,
            Err(_) => self.drop_blocks(),
        }
    }

    // There is no memory for a block: the record is not appended.
    fn drop_blocks(&mut self) -> u32
        ensures gone { self.new ≡ record self.old { given = nothing_given } }
        ensures memory { result ≡ MEMORY }
    {
        self.image = None;
        self.blocks.clear();
        MEMORY
    }

    // The body of a record with the blocks that were added.
    pub(crate) fn assemble<'a>(
        &mut self,
        main: &[u8],
        call: &SessionCall,
    ) -> Result<Body<'a>, BodyErr>
        ensures inserted { IfOk result (λ body. is_assembled_switch body ≡ false) }
        ensures body { IfOk result (λ body.
            body ≡ assembled (record_asked self.old.given.blocks call.now main.now)) }
        ensures goes_on { GoesOnHeld self.old.session self.new.session }
        ensures let_go { self.new
            ≡ record self.old { session = self.new.session; given = nothing_given } }
    {
        let (xid, rmid, info) = (Xid(call.xid), call.rmid, call.info);
        self.image = None;
        let blocks = mem::replace(&mut self.blocks, BlockList::none(self.alloc));
        if blocks.as_slice().is_empty() {
            return Body::assemble_plain(self.alloc, xid, rmid, info, main);
        }
        let record = Record {
            xid,
            rmid,
            info,
            origin: None,
            top_xid: None,
            blocks,
            main: copied(self.alloc, main)?,
        };
        Body::assemble(self.alloc, &record)
    }
}
