// The pages of images, and their way into a store. An image without a hole has all of a page's
// bytes, which are put as they lie in the record. If there is a hole, the page is made first.
ghost use Rattle.std.specs.Prelude.{◌≡◌, ◌↔◌, ◌≤◌, [], ◌∷◌, length, All, IfOk, IfSome, IsSome, IsTrue};
ghost use Rattle.wal_redo.specs.Images.{IsRedoable, MakesPage, block_named, page_of, put_of, puts_of};
ghost use Rattle.wal_redo.specs.Calls.{CallsPuts};
ghost use Rattle.wal_redo.specs.Redo.{HasStoreCause, NoPutFailed, EndsPuts};

use crate::block_id::BlockId;
use crate::blocks::{Blocks, PutErr};
use crate::redoing::RedoErr;
use byte_position::Page;
use std::alloc::Global;
use wal_types::{Block, Image};

// The page of an image without a hole, which is its bytes.
fn whole_page(image: &Image) -> Option<&Page>
    requires { MakesPage image.now }
    ensures page { IfSome result (λ page. page.now ≡ page_of image.now) }
    ensures without_hole { IsSome result ↔ (image.now.hole_len ≡ 0) }
{
    image.bytes.as_slice().as_array()
}

// Makes an image's page: its bytes, with zeros in the hole.
fn restore_image(image: &Image, page: &mut [u8])
    requires makes { MakesPage image.now }
    requires room { length page.old ≡ 8192 }
    ensures { page.new ≡ page_of image.now }
{
    let (front, back) = image.bytes.as_slice().split_at(image.hole_offset as usize);
    let (before, rest) = page.split_at_mut(front.len());
    let (hole, behind) = rest.split_at_mut(image.hole_len as usize);
    before.copy_from_slice(front);
    hole.fill(0);
    behind.copy_from_slice(back);
}

// Puts a page in a block's place; it counts as one.
fn put_page<B: Blocks>(
    alloc: Global,
    block: BlockId,
    page: &Page,
    blocks: &mut B,
) -> Result<u64, RedoErr>
    ensures puts { EndsPuts (B.pages blocks.old) (B.pages blocks.new)
        (record { block = block; page = page.now } ∷ []) result }
    ensures called { CallsPuts (B.calls blocks.old) (B.calls blocks.new)
        (record { block = block; page = page.now } ∷ []) result }
    ensures cause { HasStoreCause (B.faults blocks.old) (B.faults blocks.new) result }
    ensures never { IsTrue (B.never_fails blocks.old)
        → NoPutFailed result × IsTrue (B.never_fails blocks.new) }
{
    match blocks.put(alloc, block, page) {
        Ok(()) => Ok(1),
        Err(PutErr::Memory) => Err(RedoErr::Memory),
        Err(PutErr::Failed) => Err(RedoErr::Store {
            faults: blocks.faults(),
        }),
    }
}

// Puts a block's page, where the reference has an image that is to be applied, and answers how many
// were put. `room` is for the page of an image with a hole.
fn put_image<B: Blocks>(
    alloc: Global,
    block: BlockId,
    image: &Option<Image>,
    room: &mut Page,
    blocks: &mut B,
) -> Result<u64, RedoErr>
    requires makes { IfSome image.now MakesPage }
    ensures puts { EndsPuts (B.pages blocks.old) (B.pages blocks.new) (put_of block image.now)
        result }
    ensures called { CallsPuts (B.calls blocks.old) (B.calls blocks.new) (put_of block image.now)
        result }
    ensures few { IfOk result (λ count. count ≤ 1) }
    ensures cause { HasStoreCause (B.faults blocks.old) (B.faults blocks.new) result }
    ensures never { IsTrue (B.never_fails blocks.old)
        → NoPutFailed result × IsTrue (B.never_fails blocks.new) }
{
    match image {
        Some(image) if image.apply => match whole_page(image) {
            Some(page) => put_page(alloc, block, page, blocks),
            None => {
                restore_image(image, room);
                put_page(alloc, block, room, blocks)
            }
        },
        Some(_) | None => Ok(0),
    }
}

/// Puts the pages of a record's images, one behind another, and answers how many. `room` is for
/// the pages of images with a hole.
pub(crate) fn put_images<B: Blocks>(
    alloc: Global,
    references: &[Block],
    room: &mut Page,
    blocks: &mut B,
) -> Result<u64, RedoErr>
    requires { All IsRedoable references.now }
    ensures puts { EndsPuts (B.pages blocks.old) (B.pages blocks.new) (puts_of references.now)
        result }
    ensures called { CallsPuts (B.calls blocks.old) (B.calls blocks.new) (puts_of references.now)
        result }
    ensures few { IfOk result (λ count. count ≤ length references.now) }
    ensures cause { HasStoreCause (B.faults blocks.old) (B.faults blocks.new) result }
    ensures never { IsTrue (B.never_fails blocks.old)
        → NoPutFailed result × IsTrue (B.never_fails blocks.new) }
{
    let mut count = 0;
    for reference in references {
        count += put_image(
            alloc,
            BlockId::of(reference),
            &reference.image,
            room,
            blocks,
        )?;
    }
    Ok(count)
}
