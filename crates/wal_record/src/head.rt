//! What a block's header says (PostgreSQL's xlogrecord.h).

ghost use Rattle.std.specs.Prelude.{◌≡◌, ◌≤◌};
ghost use Rattle.wal_record.specs.Reading.{image_len, payload_len};

use wal_types::Rel;

/// The flags of a block's fork byte.
#[derive(Clone, Copy, Debug, PartialEq, Eq)]
pub(crate) struct ForkFlags {
    pub(crate) fork: u8,
    pub(crate) has_image: bool,
    pub(crate) has_data: bool,
    pub(crate) will_init: bool,
    /// Whether the relation is that of the block before.
    pub(crate) same: bool,
}

/// The flags of an image's header.
#[derive(Clone, Copy, Debug, PartialEq, Eq)]
pub(crate) struct ImageFlags {
    pub(crate) has_hole: bool,
    /// Whether redo puts the image in the block's place.
    pub(crate) apply: bool,
    pub(crate) compressed: bool,
    /// Whether a bit is set that means nothing.
    pub(crate) unknown: bool,
}

/// What an image's header says; its bytes are in the payload.
#[derive(Clone, Copy, Debug, PartialEq, Eq)]
pub struct ImageHead {
    pub apply: bool,
    pub hole_offset: u16,
    pub hole_len: u16,
    /// How many bytes the image has without its hole.
    pub len: u16,
}

/// What a block's header says; its image and its data are in the payload.
#[derive(Clone, Copy, Debug, PartialEq, Eq)]
pub struct BlockHead {
    pub id: u8,
    pub rel: Rel,
    pub fork: u8,
    pub blk: u32,
    pub will_init: bool,
    pub image: Option<ImageHead>,
    /// How many bytes of data there are for this block.
    pub content_len: u16,
}

impl BlockHead {
    /// How many bytes its image has.
    pub(crate) fn image_len(self) -> u16
        ensures { result ≡ image_len self.image }
    {
        self.image.map_or(0, |image| image.len)
    }

    /// How many bytes of payload the header promises.
    pub(crate) fn payload_len(self) -> u32
        ensures length { result ≡ payload_len self }
        ensures bound { result ≤ 131070 }
    {
        u32::from(self.image_len()) + u32::from(self.content_len)
    }
}
