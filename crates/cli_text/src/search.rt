//! Where a text's first separator stands: sixteen bytes at a time by vectors, and then one by one.

ghost use Rattle.std.specs.Prelude.{◌≡◌, ℕ, ◌+◌, ◌<◌, ◌≤◌, ◌==◌, length, get_or, true, false};
ghost use Rattle.std.specs.List.{position_or_len};
ghost use Rattle.cli_text.specs.Parts.{LacksBefore};

use std::simd::prelude::*;

const BLOCK: usize = 16;

/// How many bytes stand before a text's first separator: all of them where it has none.
#[inline(always)]
pub(crate) fn first_part_len(text: &[u8], separator: u8) -> usize
    ensures { result ≡ position_or_len (λ c. c == separator) text.now }
{
    let mut passed = 0;
    while text.len() - passed >= BLOCK {
        let place = first_in_block(text, passed, separator);
        if place < BLOCK {
            return passed + place;
        }
        passed += BLOCK;
    }
    first_from(text, passed, separator)
}

// Where a separator first stands in the block at a place, from its start: 16 where it has none.
#[inline(always)]
fn first_in_block(text: &[u8], at: usize, separator: u8) -> usize
    requires { at + BLOCK ≤ length text.now }
    ensures within { result ≤ BLOCK }
    ensures before { (k : ℕ) → at ≤ k → k < at + result
        → (get_or text.now k 0 == separator) ≡ false }
    ensures there { result < BLOCK → (get_or text.now (at + result) 0 == separator) ≡ true }
{
    let marks = u8x16::from_slice(&text[at..])
        .simd_eq(u8x16::splat(separator))
        .to_bitmask();
    if marks == 0 {
        BLOCK
    } else {
        marks.trailing_zeros() as usize
    }
}

// Where a separator first stands in the whole text, if none stands below a place: the text's length
// where it has none.
#[inline(always)]
fn first_from(text: &[u8], from: usize, separator: u8) -> usize
    requires within { from ≤ length text.now }
    requires before { LacksBefore separator text.now from }
    ensures { result ≡ position_or_len (λ c. c == separator) text.now }
{
    let mut end = from;
    while end < text.len() && text[end] != separator {
        end += 1;
    }
    end
}
