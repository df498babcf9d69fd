//! Where a listing begins or ends, as a word names it.

use crate::segment_name::{SegmentName, hexadecimal};
use byte_position::Geometry;
use wal_types::Lsn;

/// An address, or a segment.
#[derive(Clone, Copy, Debug, PartialEq, Eq)]
pub enum Bound {
    Address(Lsn),
    Segment(SegmentName),
}

impl Bound {
    /// None where a word names neither.
    pub fn of_word(word: &str) -> Option<Bound> {
        match word.split_once('/') {
            Some((high, low)) => {
                let high = hexadecimal(high.as_bytes())?;
                let low = hexadecimal(low.as_bytes())?;
                Some(Bound::Address(Lsn((u64::from(high) << 32) | u64::from(low))))
            }
            None => Some(Bound::Segment(SegmentName::of_word(word.as_bytes())?)),
        }
    }

    /// The address, or that of the segment's first byte.
    pub fn first(self, geometry: Geometry) -> Option<Lsn> {
        match self {
            Bound::Address(at) => Some(at),
            Bound::Segment(name) => {
                let number = name.number(geometry)?;
                Some(Lsn(number.checked_mul(geometry.segment_size())?))
            }
        }
    }

    /// The address, or the one just behind the segment.
    pub fn behind(self, geometry: Geometry) -> Option<Lsn> {
        match self {
            Bound::Address(at) => Some(at),
            Bound::Segment(_) => {
                let first = self.first(geometry)?;
                Some(Lsn(first.0.checked_add(geometry.segment_size())?))
            }
        }
    }
}
