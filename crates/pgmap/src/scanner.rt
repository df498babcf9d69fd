//! The words of a line. They are parted by blanks. A word is plain bytes, or stands in quotes,
//! where `\"`, `\\` and `\x00` to `\xff` stand for one byte each.

use crate::word::{are_plain_or, is_plain};
use std::alloc::{AllocError, AllocFailed, Global};
use std::mem;
use thiserror::Error;

/// Why a line has no meaning.
#[derive(Clone, Copy, Debug, Error)]
pub enum LineFault {
    #[error("out of memory")]
    Memory,
    #[error("a byte that is not plain stands outside of quotes")]
    Byte,
    #[error("a quoted word is not followed by a blank")]
    Behind,
    #[error("no closing quote")]
    Open,
    #[error("a backslash is followed by none of \", \\ and x with two hexadecimal digits")]
    Escape,
    #[error("no command: set KEY VALUE, get KEY, del KEY")]
    Unknown,
}

impl From<AllocError> for LineFault {
    fn from(_e: AllocError) -> LineFault {
        LineFault::Memory
    }
}

impl<T: Drop> From<AllocFailed<T>> for LineFault {
    fn from(_e: AllocFailed<T>) -> LineFault {
        LineFault::Memory
    }
}

// What stands before the next byte.
#[derive(Clone, Copy)]
enum Before {
    Blank,
    Plain,
    Quote,
    Backslash,
    HexMark,
    HexDigit(u8),
    Closing,
}

/// The words so far, and the one that has begun.
#[derive(Drop)]
pub struct Scanner {
    alloc: Global,
    words: Vec<Vec<u8>>,
    word: Vec<u8>,
    before: Before,
}

impl Scanner {
    fn new(alloc: Global) -> Scanner {
        Scanner {
            alloc,
            words: Vec::new(alloc),
            word: Vec::new(alloc),
            before: Before::Blank,
        }
    }

    fn take(&mut self, byte: u8) -> Result<(), LineFault> {
        self.before = match (self.before, byte) {
            (Before::Blank, b' ') => Before::Blank,
            (Before::Blank, b'"') => Before::Quote,
            (Before::Blank | Before::Plain, _) if is_plain(byte) => self.put(byte, Before::Plain)?,
            (Before::Plain | Before::Closing, b' ') => self.end_word()?,
            (Before::Blank | Before::Plain, _) => return Err(LineFault::Byte),
            (Before::Closing, _) => return Err(LineFault::Behind),
            (Before::Quote, b'"') => Before::Closing,
            (Before::Quote, b'\\') => Before::Backslash,
            (Before::Quote, _) => self.put(byte, Before::Quote)?,
            (Before::Backslash, b'"' | b'\\') => self.put(byte, Before::Quote)?,
            (Before::Backslash, b'x') => Before::HexMark,
            (Before::Backslash, _) => return Err(LineFault::Escape),
            (Before::HexMark, _) => Before::HexDigit(digit(byte)?),
            (Before::HexDigit(high), _) => { self.put((high << 4) | digit(byte)?, Before::Quote)? }
        };
        Ok(())
    }

    fn put(&mut self, byte: u8, before: Before) -> Result<Before, LineFault> {
        self.word.push(byte)?;
        Ok(before)
    }

    fn end_word(&mut self) -> Result<Before, LineFault> {
        let word = mem::replace(&mut self.word, Vec::new(self.alloc));
        self.words.push(word)?;
        Ok(Before::Blank)
    }

    fn end(mut self) -> Result<Vec<Vec<u8>>, LineFault> {
        match self.before {
            Before::Blank => {}
            Before::Plain | Before::Closing => {
                self.end_word()?;
            }
            _ => return Err(LineFault::Open),
        }
        Ok(self.words)
    }
}

fn digit(byte: u8) -> Result<u8, LineFault> {
    match byte {
        b'0'..=b'9' => Ok(byte - b'0'),
        b'a'..=b'f' => Ok(byte - b'a' + 10),
        b'A'..=b'F' => Ok(byte - b'A' + 10),
        _ => Err(LineFault::Escape),
    }
}

/// The words of a line.
pub fn words_of(alloc: Global, line: &[u8]) -> Result<Vec<Vec<u8>>, LineFault> {
    if are_plain_or(line, b' ') {
        return plain_words(alloc, line);
    }
    let mut scanner = Scanner::new(alloc);
    for byte in line {
        scanner.take(*byte)?;
    }
    scanner.end()
}

// .. of one in which each byte but a blank is plain, as most are: a word is copied as a whole.
fn plain_words(alloc: Global, line: &[u8]) -> Result<Vec<Vec<u8>>, LineFault> {
    let mut words = Vec::with_capacity(alloc, 3)?;
    for word in line.split(|byte| *byte == b' ') {
        if !word.is_empty() {
            words.push(Vec::from_slice(alloc, word)?)?;
        }
    }
    Ok(words)
}
