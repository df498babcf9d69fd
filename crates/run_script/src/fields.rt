//! A line's fields, read from the left.

ghost use Rattle.std.specs.Prelude.{◌≡◌, ◌-◌, ◌^◌, ◌≤◌, IfOk};
ghost use Rattle.run_script.specs.Fields.{next_as, no_more};
ghost use Rattle.run_script.specs.Hexadecimal.{byte_spelled};
ghost use Rattle.cli_text.specs.Numbers.{number_of, time_of};
ghost use Rattle.run_script.specs.Reading.{Judges, JudgesAs};
ghost use Rattle.run_script.specs.declared.line.ScriptFault.TheVariants as faults;

use crate::hexadecimal::byte;
use crate::line::ScriptFault;
use crate::line_error::LineError;
use cli_text::{Parts, number, time};

// The next field as a number of at most `most`.
#[inline(always)]
fn next_number(fields: &mut Parts, most: u64) -> Result<u64, LineError>
    ensures read { JudgesAs
        (λ n. record { value = n; rest = fields.new }) result
        (next_as (number_of most) faults.Number fields.old) }
    ensures within { IfOk result (λ n. n ≤ most) }
{
    let field = fields.next().ok_or(ScriptFault::Count)?;
    Ok(number(field, most).ok_or(ScriptFault::Number)?)
}

/// The next field as a number of 32 bits.
#[inline(always)]
pub(crate) fn next_u32(fields: &mut Parts) -> Result<u32, LineError>
    ensures { JudgesAs
        (λ n. record { value = n; rest = fields.new }) result
        (next_as (number_of (2 ^ 32 - 1)) faults.Number fields.old) }
{
    Ok(next_number(fields, u64::from(u32::MAX))? as u32)
}

/// The next field as a number of 8 bits.
#[inline(always)]
pub(crate) fn next_u8(fields: &mut Parts) -> Result<u8, LineError>
    ensures { JudgesAs
        (λ n. record { value = n; rest = fields.new }) result
        (next_as (number_of 255) faults.Number fields.old) }
{
    Ok(next_number(fields, u64::from(u8::MAX))? as u8)
}

/// The next field as a time.
pub(crate) fn next_time(fields: &mut Parts) -> Result<u64, LineError>
    ensures { JudgesAs
        (λ t. record { value = t; rest = fields.new }) result
        (next_as time_of faults.Number fields.old) }
{
    let field = fields.next().ok_or(ScriptFault::Count)?;
    Ok(time(field).ok_or(ScriptFault::Number)?)
}

/// The next field as a byte in two hexadecimal digits.
#[inline(always)]
pub(crate) fn next_byte(fields: &mut Parts) -> Result<u8, LineError>
    ensures { JudgesAs
        (λ b. record { value = b; rest = fields.new }) result
        (next_as byte_spelled faults.Hex fields.old) }
{
    let field = fields.next().ok_or(ScriptFault::Count)?;
    Ok(byte(field).ok_or(ScriptFault::Hex)?)
}

/// No field is left.
pub(crate) fn no_more(mut fields: Parts) -> Result<(), LineError>
    ensures { Judges result (no_more fields.entry) }
{
    match fields.next() {
        None => Ok(()),
        Some(_) => Err(LineError::Fault(ScriptFault::Count)),
    }
}
