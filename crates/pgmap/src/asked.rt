//! What the command line asks for.

use crate::trouble::PgmapErr;
use std::alloc::Global;
use std::env;

// The folder of segment files, in the working directory, if none is given.
const FOLDER: &str = "pg_map";

/// How many threads there may be at most.
pub const MOST_THREADS: u32 = 64;

/// What is done once the map is open.
#[derive(Clone, Copy)]
pub enum Wish {
    /// The commands of the standard input, each answered before the next is read.
    Obey,
    /// .. by so many threads.
    Share { threads: u32 },
    /// All entries are printed.
    List,
}

/// The folder of the log's segments, and what is done.
#[derive(Drop)]
pub struct MapOptions {
    pub folder: String,
    pub wish: Wish,
}

impl MapOptions {
    /// What the words behind the program's name ask for:
    /// `[--dir FOLDER] [--threads N | list]`.
    pub fn of_words(rt: HostRuntime) -> Result<MapOptions, PgmapErr> {
        let mut words = env::args(&rt)?.skip(1);
        let mut word = words.next();
        let mut folder = String::from_str(rt.alloc(), FOLDER)?;
        if is_word(&word, "--dir") {
            folder = words.next().ok_or(PgmapErr::Usage)?;
            word = words.next();
        }
        let wish = if is_word(&word, "--threads") {
            Wish::Share {
                threads: threads_of(words.next())?,
            }
        } else if is_word(&word, "list") {
            Wish::List
        } else if word.is_none() {
            Wish::Obey
        } else {
            return Err(PgmapErr::Usage);
        };
        match words.next() {
            None => Ok(MapOptions { folder, wish }),
            Some(_) => Err(PgmapErr::Usage),
        }
    }
}

fn is_word(word: &Option<String>, name: &str) -> bool {
    match word {
        Some(word) => word.as_str() == name,
        None => false,
    }
}

// A number from 1 to the most.
fn threads_of(word: Option<String>) -> Result<u32, PgmapErr> {
    let word = word.ok_or(PgmapErr::Usage)?;
    match word.as_str().parse::<u32>() {
        Ok(threads) if threads > 0 && threads <= MOST_THREADS => Ok(threads),
        _ => Err(PgmapErr::Usage),
    }
}
