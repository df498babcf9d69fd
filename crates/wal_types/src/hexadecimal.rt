ghost use Rattle.std.specs.Prelude.{◌≡◌, ℕ, ◌%◌};
ghost use Rattle.wal_types.specs.Hexadecimal.{eight_digits, upper_digit};

/// The eight digits of a number, in upper case and with zeros in front (`%08X`).
#[inline(always)]
pub fn upper_hexadecimal(n: u32) -> [u8; 8]
    ensures { result ≡ eight_digits n }
{
    [
        last_digit(n >> 28),
        last_digit(n >> 24),
        last_digit(n >> 20),
        last_digit(n >> 16),
        last_digit(n >> 12),
        last_digit(n >> 8),
        last_digit(n >> 4),
        last_digit(n),
    ]
}

static DIGITS: [u8; 16] = *b"0123456789ABCDEF";

/// The digit of the lowest four bits.
#[inline(always)]
pub(crate) fn last_digit(n: u32) -> u8
    ensures { result ≡ upper_digit (n % 16) }
{
    DIGITS[(n % 16) as usize]
}
