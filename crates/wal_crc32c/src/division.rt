//! The CRC bit by bit, as its definition says.

ghost use Rattle.std.specs.Prelude.{◌≡◌};
ghost use Rattle.wal_crc32c.specs.Crc32c.{times_x, after_byte, crc32c};

/// The Castagnoli polynomial without its highest term, its bits reflected.
const POLYNOMIAL: u32 = 0x82f6_3b78;

/// The plain slow program for the CRC-32C of bytes, which tests compare with.
pub fn crc32c_by_division(bytes: &[u8]) -> u32
    ensures { result ≡ crc32c bytes.now }
{
    let mut remainder = u32::MAX;
    for byte in bytes {
        remainder = after_byte(remainder, *byte);
    }
    remainder ^ u32::MAX
}

fn after_byte(remainder: u32, byte: u8) -> u32
    ensures { result ≡ after_byte remainder byte }
{
    let mut shifted = remainder ^ u32::from(byte);
    for _bit in 0..8u32 {
        shifted = times_x(shifted);
    }
    shifted
}

fn times_x(remainder: u32) -> u32
    ensures { result ≡ times_x remainder }
{
    let half = remainder / 2;
    if remainder % 2 == 1 {
        half ^ POLYNOMIAL
    } else {
        half
    }
}
