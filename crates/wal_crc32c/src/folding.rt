//! Long pieces by vectors: six of sixteen bytes are under way, and what the halves of each byte
//! leave is looked up, sixteen at a time, and carried over onto the ninety-six bytes behind.

ghost use Rattle.std.specs.Prelude.{◌≡◌, ℕ, ◌+◌, ◌-◌, ◌*◌, ◌<◌, ◌≤◌, ◌++◌, map, fold};
ghost use Rattle.std.specs.Int.Bits.{bit_xor};
ghost use lib.Lanes.{chunk};
ghost use Rattle.wal_crc32c.specs.Crc32c.{after_byte, times_power};
ghost use Rattle.wal_crc32c.specs.Folding.{pair_at, remainder, six_remainder};

use crate::carries::CARRIES;
use crate::crc::after_sixteen_bytes;
use crate::half_bytes::{high_looked_up, low_looked_up};
use std::simd::prelude::*;

// Six vectors, one behind another.
#[derive(Clone, Copy)]
struct Six {
    v0: u8x16,
    v1: u8x16,
    v2: u8x16,
    v3: u8x16,
    v4: u8x16,
    v5: u8x16,
}

#[inline(always)]
fn looked_up(low: &[u8; 16], high: &[u8; 16], v: u8x16) -> u8x16
    ensures { result ≡ map (pair_at low.now high.now) v }
{
    low_looked_up(u8x16::from_array(*low), v) ^ high_looked_up(u8x16::from_array(*high), v)
}

#[inline(always)]
fn onto(w: u8x16, low: &[u8; 16], high: &[u8; 16], v: u8x16) -> u8x16
    ensures { remainder result
        ≡ bit_xor (remainder w) (remainder (map (pair_at low.now high.now) v)) }
{
    w ^ looked_up(low, high, v)
}

// Carries vector k of six over onto four of the next six: from its end to theirs are so many bits.
#[inline(always)]
fn carry(k: usize, v: u8x16, next: Six) -> Six
    requires { k < 6 }
    ensures { six_remainder result
        ≡ bit_xor (six_remainder next) (times_power (1408 - 128 * k) (remainder v)) }
{
    let [low0, low1, low3, low5, high0, high1, high3, high5] = &CARRIES[k];
    Six {
        v0: onto(next.v0, low0, high0, v),
        v1: onto(next.v1, low1, high1, v),
        v3: onto(next.v3, low3, high3, v),
        v5: onto(next.v5, low5, high5, v),
        ..next
    }
}

#[inline(always)]
fn part(block: &[u8; 96], at: usize) -> u8x16
    requires { at + 16 ≤ 96 }
    ensures { result ≡ chunk at 16 block.now }
{
    u8x16::from_slice(&block.as_slice()[at..])
}

#[inline(always)]
fn six_of(block: &[u8; 96]) -> Six
    ensures { six_remainder result ≡ remainder block.now }
{
    Six {
        v0: part(block, 0),
        v1: part(block, 16),
        v2: part(block, 32),
        v3: part(block, 48),
        v4: part(block, 64),
        v5: part(block, 80),
    }
}

#[inline(always)]
fn after_block(before: Six, block: &[u8; 96]) -> Six
    ensures { six_remainder result ≡ fold after_byte (six_remainder before) block.now }
{
    let next = six_of(block);
    let next = carry(0, before.v0, next);
    let next = carry(1, before.v1, next);
    let next = carry(2, before.v2, next);
    let next = carry(3, before.v3, next);
    let next = carry(4, before.v4, next);
    carry(5, before.v5, next)
}

// A vector with a remainder before it, which its first four bytes take in.
#[inline(always)]
pub(crate) fn mixed(before: u32, v: u8x16) -> u8x16
    ensures { remainder result ≡ bit_xor (times_power 128 before) (remainder v) }
{
    let [r0, r1, r2, r3] = before.to_le_bytes();
    u8x16::from_array([r0, r1, r2, r3, 0, 0, 0, 0, 0, 0, 0, 0, 0, 0, 0, 0]) ^ v
}

#[inline(always)]
fn begun(before: u32, block: &[u8; 96]) -> Six
    ensures { six_remainder result ≡ fold after_byte before block.now }
{
    let six = six_of(block);
    Six {
        v0: mixed(before, six.v0),
        ..six
    }
}

#[inline(always)]
fn after_vector(before: u32, v: u8x16) -> u32
    ensures { result ≡ bit_xor (times_power 128 before) (remainder v) }
{
    after_sixteen_bytes(before, &v.to_array())
}

#[inline(always)]
fn ended(six: Six) -> u32
    ensures { result ≡ six_remainder six }
{
    let before = after_vector(0, six.v0);
    let before = after_vector(before, six.v1);
    let before = after_vector(before, six.v2);
    let before = after_vector(before, six.v3);
    let before = after_vector(before, six.v4);
    after_vector(before, six.v5)
}

/// The remainder after all blocks of ninety-six bytes, and the fewer bytes that are left.
pub(crate) fn after_blocks<'a>(before: u32, first: &[u8; 96], behind: &'a [u8]) -> (u32, &'a [u8])
    ensures { fold after_byte result.0 result.1.now
        ≡ fold after_byte before (first.now ++ behind.now) }
{
    let mut six = begun(before, first);
    let mut rest = behind;
    while let Some((block, others)) = rest.split_first_chunk::<96>() {
        six = after_block(six, block);
        rest = others;
    }
    (ended(six), rest)
}
