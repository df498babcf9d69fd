//! What stands where a reader of the headers is.

ghost use Rattle.std.specs.Prelude.{◌≡◌, ◌&&◌};
ghost use Rattle.wal_record.specs.Reading.{begins_block, begins_with, has_header};
ghost use Rattle.wal_record.specs.Unread.{cursor_of};

use super::unread::Unread;
use crate::fault::{RecErr, RecKind};
use wal_spelling::layout::MAX_BLOCK_ID;

impl Unread<'_> {
    /// Whether another header stands here.
    pub(super) fn has_header(&self) -> bool
        ensures { result ≡ has_header (cursor_of self.now) }
    {
        self.owed < self.bytes.len() as u64
    }

    /// Whether the header of a block stands here.
    pub(super) fn is_at_block(&self) -> bool
        ensures { result ≡ (has_header (cursor_of self.now) && begins_block self.now.bytes.now) }
    {
        self.has_header() && matches!(self.bytes, [0..=MAX_BLOCK_ID, ..])
    }

    /// Whether a header that begins with this byte stands here.
    pub(super) fn is_at(&self, tag: u8) -> bool
        ensures { result ≡ (has_header (cursor_of self.now) && begins_with tag self.now.bytes.now) }
    {
        self.has_header() && matches!(self.bytes, [first, ..] if *first == tag)
    }
}

pub(super) fn malformed(at: u64, kind: RecKind) -> RecErr
    ensures { result ≡ RecErr.Malformed at kind }
{
    RecErr::Malformed { at, kind }
}
