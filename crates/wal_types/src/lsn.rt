ghost use Rattle.std.specs.Prelude.{◌≡◌, ℕ, List, ◌≤◌, ◌<◌, length, drop};
ghost use Rattle.wal_types.specs.Hexadecimal.{eight_digits};
ghost use Rattle.wal_types.specs.LsnText.{lsn_text, without_leading_zeros};

use crate::hexadecimal::{last_digit, upper_hexadecimal};
use std::marker::Model;

/// A position of the log: the address of a byte, counted from the log's byte 0 (PostgreSQL's
/// xlogdefs.h).
#[derive(Clone, Copy, Debug, PartialEq, Eq, PartialOrd, Ord)]
pub struct Lsn(pub u64);

impl Lsn {
    /// The position as two hexadecimal numbers, as `0/00100028`.
    #[inline(always)]
    pub fn text(&self) -> LsnText
        ensures { result ≡ lsn_text self.now.0 }
    {
        let (high, start) = upper_half((self.0 >> 32) as u32);
        let low = upper_hexadecimal((self.0 % (1 << 32)) as u32);
        let mut digits = [b'/'; 17];
        digits[..8].copy_from_slice(&high);
        digits[9..].copy_from_slice(&low);
        LsnText { digits, start }
    }
}

// A number's eight digits, and where the first of them stands that counts. Of a log's first 64 GiB
// it is the last one.
#[inline(always)]
fn upper_half(n: u32) -> ([u8; 8], usize)
    ensures start { result.1 < length result.0 }
    ensures digits { drop result.1 result.0 ≡ without_leading_zeros (eight_digits n) }
{
    if n < 16 {
        let zero = b'0';
        return ([zero, zero, zero, zero, zero, zero, zero, last_digit(n)], 7);
    }
    with_start(upper_hexadecimal(n))
}

// Digits, and where the first of them stands that counts.
#[inline(never)]
fn with_start(digits: [u8; 8]) -> ([u8; 8], usize)
    ensures start { result.1 < length result.0 }
    ensures digits { drop result.1 result.0 ≡ without_leading_zeros digits }
{
    let start = leading_zeros(&digits);
    (digits, start)
}

// How many digits stand before the first that is not zero, or before the last.
fn leading_zeros(digits: &[u8]) -> usize
    requires { 0 < length digits.now }
    ensures fewer { result < length digits.now }
    ensures rest { drop result digits.now ≡ without_leading_zeros digits.now }
{
    let mut zeros = 0;
    while zeros + 1 < digits.len() && digits[zeros] == b'0' {
        zeros += 1;
    }
    zeros
}

/// The text of a position, seen by contracts as its bytes: 10 to 17 of them, in ASCII.
#[derive(Clone, Debug, Drop)]
pub struct LsnText {
    digits: [u8; 17],
    start: usize,
}

impl Model for LsnText {
    ghost Value = { List ℕ };

    ghost view = { λ t. drop t.start t.digits };

    ghost invariant = { λ t. t.start ≤ 7 };
}

impl LsnText {
    #[inline(always)]
    pub fn as_bytes(&self) -> &[u8]
        ensures { result.now ≡ self.now }
    {
        &self.digits[self.start..]
    }
}
