//! The bytes of a record that are not read yet.

ghost use Rattle.std.specs.Prelude.{◌+◌, ◌<◌, ◌^◌, length};

/// The bytes of a record that are not read yet.
#[derive(Clone, Copy)]
pub(super) struct Unread<'a> {
    /// The offset of the first of them in the record.
    pub(super) at: u64,
    pub(super) bytes: &'a [u8],
    /// How many bytes of payload the headers promised so far.
    pub(super) owed: u64,
    ghost within: { at + length bytes.now < 2 ^ 64 },
}
