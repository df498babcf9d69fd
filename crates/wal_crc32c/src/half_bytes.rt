//! The halves of sixteen bytes, looked up at a time.

ghost use Rattle.std.specs.Prelude.{◌≡◌, ◌/◌, ◌%◌, map, slice_index};

use std::simd::prelude::*;

/// What a table has for the low half of each byte.
#[inline(always)]
pub fn low_looked_up(table: u8x16, bytes: u8x16) -> u8x16
    ensures { result ≡ map (λ byte. slice_index table (byte % 16)) bytes }
{
    table.swizzle_dyn(bytes & u8x16::splat(15))
}

/// What a table has for the high half of each byte.
#[inline(always)]
pub fn high_looked_up(table: u8x16, bytes: u8x16) -> u8x16
    ensures { result ≡ map (λ byte. slice_index table (byte / 16)) bytes }
{
    table.swizzle_dyn(bytes >> u8x16::splat(4))
}
