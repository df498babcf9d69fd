//! A place of the log as text.

use std::fmt;
use wal_types::Lsn;

/// An LSN as two hexadecimal numbers, as `0/00100028`.
#[derive(Clone, Copy, Debug)]
pub struct ShownPlace(pub Lsn);

impl fmt::Display for ShownPlace {
    fn fmt<W: fmt::Write>(&self, f: &mut fmt::Formatter<W>) -> fmt::Result {
        let ShownPlace(Lsn(address)) = *self;
        write!(f, "{:X}/{:08X}", address >> 32, address % (1 << 32))
    }
}
