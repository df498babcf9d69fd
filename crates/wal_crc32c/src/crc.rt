//! The CRC of bytes that come in pieces.

ghost use Rattle.std.specs.Prelude.{◌≡◌, ℕ, List, [], ◌++◌, fold, length};
ghost use Rattle.std.specs.Int.{w32, w64, to_le_bytes};
ghost use Rattle.wal_crc32c.specs.Crc32c.{HasFed, after_byte, crc32c};

use crate::folding::after_blocks;
use crate::sparse_multiple::after_longer_bytes;
use crate::tables::{
    byte_remainder, half_word_remainder, half_word_remainder_before, word_remainder,
    word_remainder_ahead, word_remainder_before_half,
};
use std::marker::Model;

// From so many bytes on vectors pay: two blocks of them.
const LONG: usize = 192;

// From so many bytes on it pays to take bytes away.
const LONGER: usize = 768;

/// A CRC-32C under way. Contracts see its remainder.
#[derive(Clone, Copy, Debug)]
pub struct Crc {
    remainder: u32,
}

impl Model for Crc {
    ghost Value = { ℕ };

    ghost view = { λ crc. crc.remainder };

    ghost inverse = { λ remainder. record { remainder = remainder } };
}

impl Crc {
    /// Nothing is fed yet.
    pub fn new() -> Crc
        ensures { HasFed result [] }
    {
        Crc {
            remainder: u32::MAX,
        }
    }

    /// Feeds further bytes. However bytes are cut into pieces, what is fed is all of them.
    pub fn update(&mut self, bytes: &[u8])
        ensures { (fed : List ℕ) → HasFed self.old fed → HasFed self.new (fed ++ bytes.now) }
    {
        self.remainder = after_bytes(self.remainder, bytes);
    }

    /// Feeds a word, a gap of eight bytes, and four bytes: those of numbers, with their lowest byte
    /// first. The gap counts as zeros until `with_gap_filled`.
    pub fn update_round_gap(&mut self, before: u64, behind: u32)
        ensures { (fed : List ℕ) → HasFed self.old fed
            → HasFed self.new (fed ++ to_le_bytes w64 before ++ to_le_bytes w64 0
            ++ to_le_bytes w32 behind) }
    {
        let before = word_remainder_ahead(u64::from(self.remainder) ^ before);
        self.remainder = half_word_remainder(before ^ behind);
    }

    /// The CRC with the gap before the last four bytes fed filled by a word. It takes the time of
    /// eight bytes, however many were fed.
    #[inline(always)]
    pub fn with_gap_filled(self, word: u64) -> Crc
        ensures { (fed four : List ℕ) → length four ≡ 4
            → HasFed self (fed ++ to_le_bytes w64 0 ++ four)
            → HasFed result (fed ++ to_le_bytes w64 word ++ four) }
    {
        Crc {
            remainder: self.remainder ^ word_remainder_before_half(word),
        }
    }

    /// The CRC of all bytes fed.
    #[inline(always)]
    pub fn value(&self) -> u32
        ensures { (fed : List ℕ) → HasFed self.now fed → result ≡ crc32c fed }
    {
        self.remainder ^ u32::MAX
    }
}

fn after_bytes(remainder: u32, bytes: &[u8]) -> u32
    ensures { result ≡ fold after_byte remainder bytes.now }
{
    if bytes.len() < LONG {
        after_short_bytes(remainder, bytes)
    } else if bytes.len() < LONGER {
        after_long_bytes(remainder, bytes)
    } else {
        after_longer_bytes(remainder, bytes)
    }
}

pub(crate) fn after_long_bytes(remainder: u32, bytes: &[u8]) -> u32
    ensures { result ≡ fold after_byte remainder bytes.now }
{
    match bytes.split_first_chunk::<96>() {
        Some((first, behind)) => {
            let (remainder, rest) = after_blocks(remainder, first, behind);
            after_short_bytes(remainder, rest)
        }
        None => after_short_bytes(remainder, bytes),
    }
}

// Thirty-two bytes at a time, and the fewer that are left: sixteen where there are so many, eight
// where there are so many, and the last ones.
fn after_short_bytes(mut remainder: u32, bytes: &[u8]) -> u32
    ensures { result ≡ fold after_byte remainder bytes.now }
{
    let mut rest = bytes;
    while let Some((piece, others)) = rest.split_first_chunk::<32>() {
        remainder = after_piece(remainder, piece);
        rest = others;
    }
    after_few_bytes(remainder, rest)
}

// Behind two times sixteen, none of the thirty-two is left.
#[inline(always)]
fn after_piece(remainder: u32, bytes: &[u8; 32]) -> u32
    ensures { result ≡ fold after_byte remainder bytes.now }
{
    let (remainder, rest) = after_a_sixteen(remainder, bytes);
    let (remainder, rest) = after_a_sixteen(remainder, rest);
    after_each_byte(remainder, rest)
}

#[inline(always)]
fn after_few_bytes(remainder: u32, bytes: &[u8]) -> u32
    ensures { result ≡ fold after_byte remainder bytes.now }
{
    let (remainder, rest) = after_a_sixteen(remainder, bytes);
    let (remainder, rest) = after_an_eight(remainder, rest);
    after_fewer_bytes(remainder, rest)
}

// After sixteen bytes, where there are so many, with the bytes that are left.
#[inline(always)]
fn after_a_sixteen(remainder: u32, bytes: &[u8]) -> (u32, &[u8])
    ensures { fold after_byte result.0 result.1.now ≡ fold after_byte remainder bytes.now }
{
    match bytes.split_first_chunk::<16>() {
        Some((sixteen, others)) => (after_sixteen_bytes(remainder, sixteen), others),
        None => (remainder, bytes),
    }
}

// After eight bytes, where there are so many, with the bytes that are left.
#[inline(always)]
fn after_an_eight(remainder: u32, bytes: &[u8]) -> (u32, &[u8])
    ensures { fold after_byte result.0 result.1.now ≡ fold after_byte remainder bytes.now }
{
    match bytes.split_first_chunk::<8>() {
        Some((eight, others)) => (after_eight_bytes(remainder, eight), others),
        None => (remainder, bytes),
    }
}

#[inline(always)]
fn after_fewer_bytes(remainder: u32, bytes: &[u8]) -> u32
    ensures { result ≡ fold after_byte remainder bytes.now }
{
    match bytes.split_first_chunk::<4>() {
        Some((four, others)) => after_four_and_others(remainder, four, others),
        None => after_three_bytes(remainder, bytes),
    }
}

// The four bytes and up to three more are looked up side by side, none after another.
#[inline(always)]
fn after_four_and_others(remainder: u32, four: &[u8; 4], others: &[u8]) -> u32
    ensures { result ≡ fold after_byte remainder (four.now ++ others.now) }
{
    let half = remainder ^ u32::from_le_bytes(*four);
    match others {
        [] => half_word_remainder(half),
        [b0] => half_word_remainder_before(half, 1) ^ byte_remainder(*b0, 0),
        [b0, b1] => {
            half_word_remainder_before(half, 2) ^ byte_remainder(*b0, 1) ^ byte_remainder(*b1, 0)
        }
        [b0, b1, b2, behind @ ..] => after_each_byte(
            half_word_remainder_before(half, 3)
                ^ byte_remainder(*b0, 2)
                ^ byte_remainder(*b1, 1)
                ^ byte_remainder(*b2, 0),
            behind,
        ),
    }
}

#[inline(always)]
fn after_three_bytes(remainder: u32, bytes: &[u8]) -> u32
    ensures { result ≡ fold after_byte remainder bytes.now }
{
    match bytes {
        [] => remainder,
        [b0] => after_byte(remainder, *b0),
        [b0, b1] => after_byte(after_byte(remainder, *b0), *b1),
        [b0, b1, b2, behind @ ..] => {
            let remainder = after_byte(after_byte(after_byte(remainder, *b0), *b1), *b2);
            after_each_byte(remainder, behind)
        }
    }
}

fn after_each_byte(mut remainder: u32, bytes: &[u8]) -> u32
    ensures { result ≡ fold after_byte remainder bytes.now }
{
    for byte in bytes {
        remainder = after_byte(remainder, *byte);
    }
    remainder
}

fn after_byte(remainder: u32, byte: u8) -> u32
    ensures { result ≡ after_byte remainder byte }
{
    let mixed = remainder ^ u32::from(byte);
    byte_remainder((mixed & 0xff) as u8, 0) ^ (mixed >> 8)
}

fn after_eight_bytes(remainder: u32, bytes: &[u8; 8]) -> u32
    ensures { result ≡ fold after_byte remainder bytes.now }
{
    word_remainder(u64::from(remainder) ^ u64::from_le_bytes(*bytes))
}

// The second eight bytes are looked up apart from the first, which wait for what stands before.
pub(crate) fn after_sixteen_bytes(remainder: u32, bytes: &[u8; 16]) -> u32
    ensures { result ≡ fold after_byte remainder bytes.now }
{
    let [
        b0,
        b1,
        b2,
        b3,
        b4,
        b5,
        b6,
        b7,
        b8,
        b9,
        b10,
        b11,
        b12,
        b13,
        b14,
        b15,
    ] = *bytes;
    let first = u64::from_le_bytes([b0, b1, b2, b3, b4, b5, b6, b7]);
    let second = u64::from_le_bytes([b8, b9, b10, b11, b12, b13, b14, b15]);
    word_remainder(second) ^ word_remainder_ahead(u64::from(remainder) ^ first)
}
