//! A key or a value as text: as it is where that is plain, and else in quotes.

use std::fmt;
use std::fmt::Write;

/// What stands for no value. A value that is spelled so stands in quotes.
pub const NONE: &str = "none";

/// Whether a byte stands for itself outside of quotes.
pub fn is_plain(byte: u8) -> bool {
    matches!(byte, b'!' | b'#'..=b'~')
}

/// Whether each byte is plain, or this one.
pub fn are_plain_or(bytes: &[u8], other: u8) -> bool {
    for byte in bytes {
        if *byte != other && !is_plain(*byte) {
            return false;
        }
    }
    true
}

/// Bytes that are shown as a word.
#[derive(Clone, Copy)]
pub struct ShownWord<'a>(pub &'a [u8]);

impl<'a> ShownWord<'a> {
    fn is_plain(&self) -> bool {
        !self.0.is_empty() && self.0 != NONE.as_bytes() && are_plain_or(self.0, b'!')
    }
}

impl<'a> fmt::Display for ShownWord<'a> {
    fn fmt<W: fmt::Write>(&self, f: &mut fmt::Formatter<W>) -> fmt::Result {
        if self.is_plain() {
            for byte in self.0 {
                f.write_char(char::from(*byte))?;
            }
            return Ok(());
        }
        f.write_char('"')?;
        for byte in self.0 {
            match *byte {
                b'"' => f.write_str("\\\"")?,
                b'\\' => f.write_str("\\\\")?,
                plain @ b' '..=b'~' => f.write_char(char::from(plain))?,
                other => write!(f, "\\x{other:02x}")?,
            }
        }
        f.write_char('"')
    }
}
