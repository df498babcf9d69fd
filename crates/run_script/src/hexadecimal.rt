//! Bytes as scripts spell them.

ghost use Rattle.std.specs.Prelude.{◌≡◌, [], ◌∷◌};
ghost use Rattle.std.specs.Option.{ok_or};
ghost use Rattle.cli_text.specs.Hexadecimal.{hexadecimal_value};
ghost use Rattle.run_script.specs.Hexadecimal.{byte_spelled, bytes_of, data_of, pair_of, repeated_of};
ghost use Rattle.run_script.specs.Reading.{Appends, Judges};
ghost use Rattle.run_script.specs.declared.line.ScriptFault.TheVariants as faults;

use crate::line::ScriptFault;
use crate::line_error::LineError;
use cli_text::{hexadecimal_digit, number};
use std::alloc::Global;
use wal_types::Bytes;

// How many bytes `COUNT*hh` may spell.
const MOST_COPIES: u64 = 1_048_576;

#[inline(always)]
fn pair(high: u8, low: u8) -> Option<u8>
    ensures { result ≡ pair_of (hexadecimal_value high) (hexadecimal_value low) }
{
    let high = hexadecimal_digit(high)?;
    let low = hexadecimal_digit(low)?;
    Some(high * 16 + low)
}

/// A field of two digits as a byte.
#[inline(always)]
pub(crate) fn byte(field: &[u8]) -> Option<u8>
    ensures { result ≡ byte_spelled field.now }
{
    match field {
        [high, low] => pair(*high, *low),
        _ => None,
    }
}

/// A data field as its bytes.
pub(crate) fn data(alloc: Global, field: &[u8]) -> Result<Bytes, LineError>
    ensures { Judges result (ok_or (data_of field.now) faults.Hex) }
{
    let mut bytes = Vec::new(alloc);
    put_data(&mut bytes, field)?;
    Ok(Bytes::of(bytes))
}

/// Puts a data field's bytes behind what a vector holds.
#[inline(always)]
pub(crate) fn put_data(bytes: &mut Vec<u8>, field: &[u8]) -> Result<(), LineError>
    ensures { Appends bytes.old.items bytes.new.items result
        (ok_or (data_of field.now) faults.Hex) }
{
    match field {
        [] => Err(LineError::Fault(ScriptFault::Hex)),
        [b'-'] => Ok(()),
        [count @ .., b'*', high, low] => put_copies(bytes, count, *high, *low),
        digits => put_bytes(bytes, digits),
    }
}

// Puts as many bytes as a count says.
#[inline(always)]
fn put_copies(bytes: &mut Vec<u8>, count: &[u8], high: u8, low: u8) -> Result<(), LineError>
    ensures { Appends bytes.old.items bytes.new.items result
        (ok_or (repeated_of count.now (high ∷ low ∷ [])) faults.Hex) }
{
    let count = match number(count, MOST_COPIES) {
        None | Some(0) => return Err(LineError::Fault(ScriptFault::Hex)),
        Some(count) => count as usize,
    };
    let filler = pair(high, low).ok_or(ScriptFault::Hex)?;
    bytes.resize(bytes.len() + count, filler)?;
    Ok(())
}

// Puts the bytes of digits, two each.
#[inline(never)]
fn put_bytes(bytes: &mut Vec<u8>, digits: &[u8]) -> Result<(), LineError>
    ensures { Appends bytes.old.items bytes.new.items result
        (ok_or (bytes_of digits.now) faults.Hex) }
{
    bytes.reserve(digits.len() / 2)?;
    let mut rest = digits;
    while let [high, low, behind @ ..] = rest {
        bytes.push(pair(*high, *low).ok_or(ScriptFault::Hex)?)?;
        rest = behind;
    }
    if rest.is_empty() {
        Ok(())
    } else {
        Err(LineError::Fault(ScriptFault::Hex))
    }
}
