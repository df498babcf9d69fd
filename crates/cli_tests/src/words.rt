//! Numbers, addresses and bytes, as rows spell them.

use crate::halt::Halt;
use cli_line::lsn;
use cli_text::hexadecimal_digit;
use std::alloc::{AllocError, Global};

/// What stands before the first blank, and what behind it.
pub fn parted(text: &str) -> Result<(&str, &str), Halt> {
    text.split_once(' ').ok_or(Halt::NotUnderstood)
}

pub fn number(word: &str) -> Result<u64, Halt> {
    word.parse().map_err(|_| Halt::NotUnderstood)
}

pub fn small_number(word: &str) -> Result<u32, Halt> {
    word.parse().map_err(|_| Halt::NotUnderstood)
}

pub fn numbers(alloc: Global, text: &str) -> Result<Vec<u64>, Halt> {
    let mut all = Vec::new(alloc);
    for word in text.split_whitespace() {
        all.push(number(word)?)?;
    }
    Ok(all)
}

pub fn small_numbers(alloc: Global, text: &str) -> Result<Vec<u32>, Halt> {
    let mut all = Vec::new(alloc);
    for word in text.split_whitespace() {
        all.push(small_number(word)?)?;
    }
    Ok(all)
}

/// An address of the log, as `0/00100028`.
pub fn address(word: &str) -> Result<u64, Halt> {
    let at = lsn(word).ok_or(Halt::NotUnderstood)?;
    Ok(at.0)
}

// The byte that two digits spell.
fn byte_of(high: u8, low: u8) -> Option<u8> {
    Some(hexadecimal_digit(high)? * 16 + hexadecimal_digit(low)?)
}

/// The bytes that a text spells, each by two digits.
pub fn bytes_of(alloc: Global, text: &str) -> Result<Vec<u8>, Halt> {
    let mut bytes = Vec::new(alloc);
    for pair in text.as_bytes().chunks(2) {
        let &[high, low] = pair else {
            return Err(Halt::NotUnderstood);
        };
        bytes.push(byte_of(high, low).ok_or(Halt::NotUnderstood)?)?;
    }
    Ok(bytes)
}

/// Bytes in hexadecimal digits, as `8192*00` where all are the same.
pub fn digits_of(alloc: Global, bytes: &[u8]) -> Result<String, AllocError> {
    match bytes.first() {
        Some(first) if bytes.iter().all(|byte| byte == first) => {
            let count = bytes.len();
            let first = *first;
            format!(in alloc; "{count}*{first:02x}")
        }
        _ => each_digit_of(alloc, bytes),
    }
}

fn each_digit_of(alloc: Global, bytes: &[u8]) -> Result<String, AllocError> {
    let mut digits = String::new(alloc);
    for byte in bytes {
        let byte = *byte;
        write!(digits, "{byte:02x}")?;
    }
    Ok(digits)
}
