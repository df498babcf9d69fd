//! Bytes in hexadecimal, sixteen at a time by vectors.

ghost use Rattle.std.specs.Prelude.{◌≡◌, ◌+◌, ◌*◌, ◌≤◌, ◌++◌, length};
ghost use Rattle.waldump_text.specs.Names.{hexadecimal};
ghost use Rattle.waldump_text.specs.declared.line_buffer.TheConstants.{ROOM};

use crate::line_buffer::LineBuffer;
use std::simd::prelude::*;
use wal_crc32c::{high_looked_up, low_looked_up};

/// Holds bytes back in hexadecimal.
pub(crate) fn push_digits(buffer: &mut LineBuffer, bytes: &[u8])
    requires { length buffer.old + 2 * length bytes.now ≤ ROOM }
    ensures { buffer.new ≡ buffer.old ++ hexadecimal bytes.now }
{
    let mut rest = bytes;
    while let Some((sixteen, others)) = rest.split_first_chunk::<16>() {
        push_sixteen(buffer, sixteen);
        rest = others;
    }
    if rest.is_empty() {
        return;
    }
    match bytes.last_chunk::<16>() {
        // Digits of bytes before the rest are made again: so no copy is of a length that is known
        // only here.
        Some(last) => {
            buffer.drop_back(32 - 2 * rest.len());
            push_sixteen(buffer, last);
        }
        None => push_few_digits(buffer, rest),
    }
}

#[inline(always)]
fn push_sixteen(buffer: &mut LineBuffer, bytes: &[u8; 16])
    requires { length buffer.old + 32 ≤ ROOM }
    ensures { buffer.new ≡ buffer.old ++ hexadecimal bytes.now }
{
    let (front, back) = sixteen_digits(bytes);
    buffer.push_piece(front);
    buffer.push_piece(back);
}

#[inline(always)]
fn sixteen_digits(bytes: &[u8; 16]) -> ([u8; 16], [u8; 16])
    ensures { result.0 ++ result.1 ≡ hexadecimal bytes.now }
{
    let digits = u8x16::from_array(*b"0123456789abcdef");
    let bytes = u8x16::from_array(*bytes);
    let high = high_looked_up(digits, bytes);
    let (front, back) = high.interleave(low_looked_up(digits, bytes));
    (front.to_array(), back.to_array())
}

fn push_few_digits(buffer: &mut LineBuffer, bytes: &[u8])
    requires few { length bytes.now ≤ 16 }
    requires room { length buffer.old + 2 * length bytes.now ≤ ROOM }
    ensures { buffer.new ≡ buffer.old ++ hexadecimal bytes.now }
{
    let mut room = [0; 32];
    let digits = &mut room[..2 * bytes.len()];
    hex::encode_to_slice(bytes, digits).unwrap();
    buffer.push(digits);
}
