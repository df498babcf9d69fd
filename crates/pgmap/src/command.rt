//! What a line asks for.

use crate::scanner::{LineFault, words_of};
use durable_map::MapCall;
use std::alloc::Global;

/// A line's command; none where it is empty or begins with `#`.
pub fn call_of_line(alloc: Global, line: &[u8]) -> Result<Option<MapCall>, LineFault> {
    if line.first() == Some(&b'#') {
        return Ok(None);
    }
    let mut words = words_of(alloc, line)?.into_iter();
    let Some(name) = words.next() else {
        return Ok(None);
    };
    let call = match name.as_slice() {
        b"set" => {
            let key = present(words.next())?;
            let value = present(words.next())?;
            MapCall::Set { key, value }
        }
        b"get" => MapCall::Get {
            key: present(words.next())?,
        },
        b"del" => MapCall::Del {
            key: present(words.next())?,
        },
        _ => return Err(LineFault::Unknown),
    };
    match words.next() {
        None => Ok(Some(call)),
        Some(_) => Err(LineFault::Unknown),
    }
}

fn present(word: Option<Vec<u8>>) -> Result<Vec<u8>, LineFault> {
    word.ok_or(LineFault::Unknown)
}
