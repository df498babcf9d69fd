ghost use Rattle.std.specs.Prelude.{◌≡◌, ◌<◌};
ghost use Rattle.waldump_text.specs.Digits.{four_digits, six_digits, two_digits};

/// A number below 100 in two digits.
pub(crate) fn two_digits(n: u8) -> [u8; 2]
    requires { n < 100 }
    ensures { result ≡ two_digits n }
{
    [b'0' + n / 10, b'0' + n % 10]
}

/// A number below 10,000 in four digits.
pub(crate) fn four_digits(n: u16) -> [u8; 4]
    requires { n < 10000 }
    ensures { result ≡ four_digits n }
{
    let digit = |place: u16| b'0' + (n / place % 10) as u8;
    [digit(1000), digit(100), digit(10), digit(1)]
}

/// A number below 1,000,000 in six digits.
pub(crate) fn six_digits(n: u32) -> [u8; 6]
    requires { n < 1000000 }
    ensures { result ≡ six_digits n }
{
    let digit = |place: u32| b'0' + (n / place % 10) as u8;
    [
        digit(100_000),
        digit(10_000),
        digit(1000),
        digit(100),
        digit(10),
        digit(1),
    ]
}
