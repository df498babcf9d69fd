ghost use Rattle.std.specs.Prelude.{◌≡◌, ◌<◌, IfSome};
ghost use Rattle.cli_text.specs.Hexadecimal.{hexadecimal_value};

/// The value of a hexadecimal digit, in either case.
#[inline(always)]
pub fn hexadecimal_digit(byte: u8) -> Option<u8>
    ensures value { result ≡ hexadecimal_value byte }
    ensures within { IfSome result (λ d. d < 16) }
{
    match byte {
        b'0'..=b'9' => Some(byte - b'0'),
        b'A'..=b'F' => Some(byte - b'A' + 10),
        b'a'..=b'f' => Some(byte - b'a' + 10),
        _ => None,
    }
}
