//! The names of segment files (PostgreSQL's XLogFileName): the timeline, and the segment's number
//! in two parts, eight hexadecimal digits each.

ghost use Rattle.std.specs.Prelude.{◌<◌};

use byte_position::Geometry;
use wal_types::upper_hexadecimal;

/// A segment's file, by the parts of its name.
#[derive(Clone, Copy, Debug, PartialEq, Eq, PartialOrd, Ord)]
pub struct SegmentName {
    pub timeline: u32,
    high: u32,
    low: u32,
}

impl SegmentName {
    /// None where a word is no such name.
    pub fn of_word(word: &[u8]) -> Option<SegmentName> {
        if word.len() != 24 || !word.iter().all(|digit| is_upper_digit(*digit)) {
            return None;
        }
        Some(SegmentName {
            timeline: hexadecimal(&word[..8])?,
            high: hexadecimal(&word[8..16])?,
            low: hexadecimal(&word[16..])?,
        })
    }

    /// The name of a segment of a timeline.
    pub fn of_segment(timeline: u32, geometry: Geometry, segment: u64) -> SegmentName {
        let in_part = segments_in_part(geometry);
        SegmentName {
            timeline,
            high: (segment / in_part % (1 << 32)) as u32,
            low: (segment % in_part % (1 << 32)) as u32,
        }
    }

    /// The segment's number, where segments of this size have such a name.
    pub fn number(self, geometry: Geometry) -> Option<u64> {
        let in_part = segments_in_part(geometry);
        if u64::from(self.low) >= in_part {
            return None;
        }
        u64::from(self.high)
            .checked_mul(in_part)?
            .checked_add(u64::from(self.low))
    }

    /// The name itself, in ASCII.
    pub fn text(self) -> [u8; 24] {
        let mut name = [b'0'; 24];
        name[..8].copy_from_slice(&upper_hexadecimal(self.timeline));
        name[8..16].copy_from_slice(&upper_hexadecimal(self.high));
        name[16..].copy_from_slice(&upper_hexadecimal(self.low));
        name
    }
}

// How many segments have the same first part of their number: those of 4 GiB, which is 2^19 pages.
fn segments_in_part(geometry: Geometry) -> u64
    ensures { 0 < result }
{
    ((1 << 19) / u64::from(geometry.pages())).max(1)
}

fn is_upper_digit(byte: u8) -> bool {
    matches!(byte, b'0'..=b'9' | b'A'..=b'F')
}

/// A number in up to eight hexadecimal digits, at least one.
pub fn hexadecimal(digits: &[u8]) -> Option<u32> {
    if digits.is_empty() || digits.len() > 8 {
        return None;
    }
    let mut number: u32 = 0;
    for digit in digits {
        number = (number << 4) | u32::from(digit_value(*digit)?);
    }
    Some(number)
}

fn digit_value(digit: u8) -> Option<u8> {
    match digit {
        b'0'..=b'9' => Some(digit - b'0'),
        b'A'..=b'F' => Some(digit - b'A' + 10),
        b'a'..=b'f' => Some(digit - b'a' + 10),
        _ => None,
    }
}
