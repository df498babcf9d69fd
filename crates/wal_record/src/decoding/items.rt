//! The items of a record that are no blocks: the origin, the top-level transaction and the main
//! data's header.

ghost use Rattle.std.specs.Prelude.{◌≡◌, ◌+◌, ◌<◌, ◌≤◌, ◌^◌, length, IfOk};
ghost use Rattle.std.specs.Int.{w16, w32};
ghost use Rattle.wal_record.specs.Reading.{GivesAs, main_item, optional_item};
ghost use Rattle.wal_record.specs.Unread.{GivesItem, cursor_of};

use super::cursor::malformed;
use super::unread::Unread;
use crate::fault::{RecErr, RecKind};
use wal_spelling::layout::*;

#[tactic(auto, unfolding(crate::specs::Reading::optional_item))]
pub(super) fn optional_u16<'a>(
    tag: u8,
    unread: Unread<'a>,
) -> Result<(Option<u16>, Unread<'a>), RecErr>
    ensures owed { IfOk result (λ x. x.1.owed ≡ unread.entry.owed) }
    ensures exact { GivesItem result (optional_item tag w16 (cursor_of unread.entry)) }
{
    if !unread.is_at(tag) {
        return Ok((None, unread));
    }
    let Some((item, rest)) = unread.bytes.split_first_chunk::<3>() else {
        return Err(malformed(unread.at + 1, RecKind::Short));
    };
    let number = u16::from_le_bytes([item[1], item[2]]);
    let at = unread.at + 3;
    let behind = Unread {
        at,
        bytes: rest,
        owed: unread.owed,
    };
    Ok((Some(number), behind))
}

#[tactic(auto, unfolding(crate::specs::Reading::optional_item))]
pub(super) fn optional_u32<'a>(
    tag: u8,
    unread: Unread<'a>,
) -> Result<(Option<u32>, Unread<'a>), RecErr>
    ensures owed { IfOk result (λ x. x.1.owed ≡ unread.entry.owed) }
    ensures exact { GivesItem result (optional_item tag w32 (cursor_of unread.entry)) }
{
    if !unread.is_at(tag) {
        return Ok((None, unread));
    }
    let Some((item, rest)) = unread.bytes.split_first_chunk::<5>() else {
        return Err(malformed(unread.at + 1, RecKind::Short));
    };
    let number = u32::from_le_bytes([item[1], item[2], item[3], item[4]]);
    let at = unread.at + 5;
    let behind = Unread {
        at,
        bytes: rest,
        owed: unread.owed,
    };
    Ok((Some(number), behind))
}

#[tactic(auto, unfolding(crate::specs::Reading::main_item))]
pub(super) fn main_item<'a>(unread: Unread<'a>) -> Result<Unread<'a>, RecErr>
    requires { unread.owed < 2 ^ 63 }
    ensures owed { IfOk result (λ x. unread.entry.owed ≤ x.owed) }
    ensures exact { GivesAs cursor_of result (main_item (cursor_of unread.entry)) }
{
    if !unread.has_header() {
        return Ok(unread);
    }
    match unread.bytes {
        [MAIN_SHORT, len, rest @ ..] => {
            let owed = unread.owed + u64::from(*len);
            Ok(Unread {
                at: unread.at + 2,
                bytes: rest,
                owed,
            })
        }
        [MAIN_LONG, b0, b1, b2, b3, rest @ ..] => {
            let len = u32::from_le_bytes([*b0, *b1, *b2, *b3]);
            let owed = unread.owed + u64::from(len);
            Ok(Unread {
                at: unread.at + 5,
                bytes: rest,
                owed,
            })
        }
        [MAIN_SHORT | MAIN_LONG, ..] => Err(malformed(unread.at + 1, RecKind::Short)),
        [ORIGIN | TOP_XID | 0..=MAX_BLOCK_ID, ..] => Err(malformed(unread.at, RecKind::Order)),
        _ => Err(malformed(unread.at, RecKind::Id)),
    }
}
