ghost use Rattle.std.specs.Prelude.{◌≡◌, ◌<◌, IfSome};
ghost use Rattle.cli_text.specs.Numbers.{digit_of, number_of, time_of};

// As many digits as the largest number of 64 bits has.
const MOST_DIGITS: usize = 20;

/// A field of 1 to 20 decimal digits as a number, where it is at most `most`.
#[inline(always)]
pub fn number(field: &[u8], most: u64) -> Option<u64>
    ensures { result ≡ number_of most field.now }
{
    let value = match field {
        [ones] => digit(*ones)?,
        [tens, ones] => 10 * digit(*tens)? + digit(*ones)?,
        [hundreds, tens, ones] => 100 * digit(*hundreds)? + 10 * digit(*tens)? + digit(*ones)?,
        _ => return any_number(field, most),
    };
    (value <= most).then_some(value)
}

// A digit's value.
#[inline(always)]
fn digit(byte: u8) -> Option<u64>
    ensures value { result ≡ digit_of byte }
    ensures within { IfSome result (λ d. d < 10) }
{
    match byte {
        b'0'..=b'9' => Some(u64::from(byte - b'0')),
        _ => None,
    }
}

// What `number` tells of a field of any length, read digit by digit.
#[inline(never)]
fn any_number(field: &[u8], most: u64) -> Option<u64>
    ensures { result ≡ number_of most field.now }
{
    if field.is_empty() || field.len() > MOST_DIGITS {
        return None;
    }
    let mut value: u64 = 0;
    for byte in field {
        if !byte.is_ascii_digit() {
            return None;
        }
        value = value.checked_mul(10)?.checked_add(u64::from(*byte - b'0'))?;
    }
    (value <= most).then_some(value)
}

/// A field as a time in microseconds, in the 64 bits of a signed number: as `number`, with `-` in
/// front where it is below 0.
pub fn time(field: &[u8]) -> Option<u64>
    ensures { result ≡ time_of field.now }
{
    match field {
        [b'-', digits @ ..] => match number(digits, 1 << 63)? {
            0 => None,
            magnitude => Some(magnitude.wrapping_neg()),
        },
        _ => number(field, (1 << 63) - 1),
    }
}
