//! What the command line asks for.

use crate::trouble::Trouble;
use log_workers::CommitKind;
use std::env;

/// What the log is written to.
#[derive(Clone, Copy, Debug, PartialEq, Eq)]
pub enum Medium {
    Memory,
    Files,
}

impl Medium {
    fn of_word(word: &str) -> Option<Medium> {
        match word {
            "memory" => Some(Medium::Memory),
            "files" => Some(Medium::Files),
            _ => None,
        }
    }
}

/// What each backend does again and again.
#[derive(Clone, Copy, Debug, PartialEq, Eq)]
pub enum Work {
    /// It commits, each time another transaction.
    Commits(CommitKind),
    /// It inserts one record, with so many bytes of main data.
    Inserts { bytes: u32 },
}

impl Work {
    /// By its name and the one word that says more of it.
    fn of_words(name: &str, word: &str) -> Option<Work> {
        match (name, word) {
            ("commits", "hard") => Some(Work::Commits(CommitKind::Hard)),
            ("commits", "async") => Some(Work::Commits(CommitKind::Async)),
            ("inserts", bytes) => Some(Work::Inserts {
                bytes: bytes.parse().ok()?,
            }),
            _ => None,
        }
    }

    /// Its name, as the command line and what is printed have it.
    pub fn name(self) -> &'static str {
        match self {
            Work::Commits(_) => "commits",
            Work::Inserts { .. } => "inserts",
        }
    }

    // Bytes of the log that one record takes up at most, headers of pages among them.
    fn room(self) -> u64 {
        match self {
            Work::Commits(_) => 41,
            Work::Inserts { bytes } => u64::from(bytes).saturating_add(64),
        }
    }
}

/// What the words behind the program's name ask for.
#[derive(Clone, Copy, Debug, PartialEq, Eq)]
pub enum Task {
    /// Work of threads on one log.
    Log(Options),
    /// Turns of the machine; `kinds` says whether those of each kind are counted.
    Turns { kinds: bool },
}

impl Task {
    /// The words of the command line, read.
    pub fn of_words(rt: HostRuntime) -> Result<Task, Trouble> {
        let mut words = env::args(&rt)?.skip(1);
        let Some(first) = words.next() else {
            return Err(Trouble::Usage);
        };
        if first.as_str() != "turns" {
            return Options::of_words(rt).map(Task::Log);
        }
        let kinds = match words.next() {
            Some(word) if word.as_str() == "kinds" => true,
            Some(_) => return Err(Trouble::Usage),
            None => false,
        };
        if words.next().is_some() {
            return Err(Trouble::Usage);
        }
        Ok(Task::Turns { kinds })
    }
}

/// How many threads work, how often each and at what, where to, and whether the time is printed.
#[derive(Clone, Copy, Debug, PartialEq, Eq)]
pub struct Options {
    pub backends: u32,
    pub times: u32,
    pub place: Medium,
    pub work: Work,
    pub timed: bool,
}

impl Options {
    // The first word is the number of backends.
    fn of_words(rt: HostRuntime) -> Result<Options, Trouble> {
        let mut words = env::args(&rt)?.skip(1);
        let (backends, times) = (number(words.next())?, number(words.next())?);
        let place = match words.next() {
            Some(word) => Medium::of_word(word.as_str()).ok_or(Trouble::Usage)?,
            None => return Err(Trouble::Usage),
        };
        let work = match (words.next(), words.next()) {
            (Some(name), Some(word)) => {
                Work::of_words(name.as_str(), word.as_str()).ok_or(Trouble::Usage)?
            }
            _ => return Err(Trouble::Usage),
        };
        let timed = match words.next() {
            Some(word) if word.as_str() == "timed" => true,
            Some(_) => return Err(Trouble::Usage),
            None => false,
        };
        if words.next().is_some() || backends > 1000 || times > 10_000_000 {
            return Err(Trouble::Usage);
        }
        Ok(Options {
            backends,
            times,
            place,
            work,
            timed,
        })
    }

    /// How often all threads do it.
    pub fn all(self) -> u64 {
        u64::from(self.backends).wrapping_mul(u64::from(self.times))
    }

    /// Segments of 16 MiB that hold all records.
    pub fn segments(self) -> u32 {
        let bytes = self.all().saturating_mul(self.work.room());
        (bytes >> 24).saturating_add(2).min(4096) as u32
    }

    /// The calls of a disk in memory that all of it makes at most: each page is written once or
    /// twice, and a commit writes and syncs too, or whoever flushes it behind does.
    pub fn calls(self) -> u32 {
        let each = match self.work {
            Work::Commits(_) => self.all().saturating_mul(3),
            Work::Inserts { .. } => self.all().saturating_mul(self.work.room()) >> 12,
        };
        each.saturating_add(8192).min(1 << 30) as u32
    }
}

fn number(word: Option<String>) -> Result<u32, Trouble> {
    match word {
        Some(word) => word.as_str().parse().ok().ok_or(Trouble::Usage),
        None => Err(Trouble::Usage),
    }
}
