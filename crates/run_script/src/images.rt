//! A page's image as scripts spell it: a hole, and one byte wherever it is not.

ghost use Rattle.std.specs.Prelude.{◌≡◌};
ghost use Rattle.run_script.specs.Blocks.{filler_of, image_spelled, page_image_with};
ghost use Rattle.run_script.specs.Reading.{Judges};

use crate::hexadecimal::byte;
use crate::line::ScriptFault;
use crate::line_error::LineError;
use crate::text::is_dash;
use cli_text::{Parts, number};
use std::alloc::Global;
use wal_spelling::layout::PAGE_LEN;
use wal_types::{Bytes, Image};

/// The byte that an image has outside its hole, and whether redo applies the image.
#[derive(Clone, Copy)]
struct Filler {
    byte: u8,
    apply: bool,
}

/// An image, or none for `-`.
pub(crate) fn image(alloc: Global, field: &[u8]) -> Result<Option<Image>, LineError>
    ensures { Judges result (image_spelled field.now) }
{
    if is_dash(field) {
        return Ok(None);
    }
    Ok(Some(page_image(alloc, Parts::of(field, b'+'))?))
}

// The image of `OFFSET+LENGTH+hh`.
fn page_image(alloc: Global, mut parts: Parts) -> Result<Image, LineError>
    ensures { Judges result (page_image_with parts.entry) }
{
    let hole_offset = parts.next().ok_or(ScriptFault::Image)?;
    let hole_len = parts.next().ok_or(ScriptFault::Image)?;
    let filler = parts.next().ok_or(ScriptFault::Image)?;
    if parts.next().is_some() {
        return Err(LineError::Fault(ScriptFault::Image));
    }
    let hole_offset = number(hole_offset, u64::from(PAGE_LEN)).ok_or(ScriptFault::Image)? as u16;
    let hole_len = number(hole_len, u64::from(PAGE_LEN)).ok_or(ScriptFault::Image)? as u16;
    let filler = filler_of(filler).ok_or(ScriptFault::Image)?;
    let bytes = vec![in alloc; filler.byte; usize::from(PAGE_LEN - hole_len)]?;
    Ok(Image {
        apply: filler.apply,
        hole_offset,
        hole_len,
        bytes: Bytes::of(bytes),
    })
}

// `hh`, or `hhv` where redo is not to apply the image.
fn filler_of(part: &[u8]) -> Option<Filler>
    ensures { result ≡ filler_of part.now }
{
    let (digits, apply) = match part {
        [_, _, b'v'] => (&part[..2], false),
        _ => (part, true),
    };
    let byte = byte(digits)?;
    Some(Filler { byte, apply })
}
