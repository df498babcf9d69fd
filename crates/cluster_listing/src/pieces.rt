//! Pieces of text put behind a line that is being made.

ghost use Rattle.std.specs.Prelude.{◌≡◌, ◌<◌, ◌++◌, map, OnOk};
ghost use Rattle.waldump_text.specs.Names.{hexadecimal, lower_digit};
ghost use Rattle.waldump_text.specs.Put.{joined};

use std::alloc::AllocError;

/// Pieces, one behind another.
pub(crate) fn push_all(line: &mut Vec<u8>, pieces: &[&[u8]]) -> Result<(), AllocError>
    ensures { OnOk result
        (line.new.items ≡ line.old.items ++ joined (map (λ p. p.now) pieces.now)) }
{
    for piece in pieces {
        line.extend_from_slice(piece)?;
    }
    Ok(())
}

/// Bytes in lower-case hexadecimal, two digits each.
pub(crate) fn push_hexadecimal(line: &mut Vec<u8>, bytes: &[u8]) -> Result<(), AllocError>
    ensures { OnOk result (line.new.items ≡ line.old.items ++ hexadecimal bytes.now) }
{
    for byte in bytes {
        let digits = [lower_digit(*byte / 16 % 16), lower_digit(*byte % 16)];
        line.extend_from_slice(&digits)?;
    }
    Ok(())
}

// The lower-case hexadecimal digit of a number below 16.
fn lower_digit(n: u8) -> u8
    requires { n < 16 }
    ensures { result ≡ lower_digit n }
{
    if n < 10 { b'0' + n } else { b'a' - 10 + n }
}
