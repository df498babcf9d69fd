//! What backends are to do. All records are assembled before the first turn, so that no turn takes
//! memory or finds a record that cannot be written.

ghost use Rattle.std.specs.Prelude.{◌≡◌, ◌≤◌, option_map};
ghost use Rattle.machine_turns.specs.Lanes.{is_commit};
ghost use Rattle.machine_turns.specs.Scripts.{InsertsLogRecord, body_of, room_of_line};

use std::marker::Model;
use wal_spelling::Body;

/// What a line asks for, with its record assembled.
#[derive(Debug, Drop)]
pub enum PlainLine {
    /// Insert this record.
    Insert(Body<'static>),
    /// Insert this commit's record, then flush to its end.
    Commit(Body<'static>),
    /// Flush to the end of the backend's last record, or to the log's start where it has none.
    Flush,
}

impl PlainLine {
    /// The record that it inserts.
    pub(crate) fn body(&self) -> Option<&Body<'static>>
        ensures { option_map (λ body. body.now) result ≡ body_of self.now }
    {
        match self {
            PlainLine::Insert(body) | PlainLine::Commit(body) => Some(body),
            PlainLine::Flush => None,
        }
    }

    /// Whether it is a commit's.
    pub(crate) fn is_commit(&self) -> bool
        ensures { result ≡ is_commit self.now }
    {
        matches!(self, PlainLine::Commit(_))
    }

    /// How many bytes of the log its record takes up, if that ends no segment; 0 where it inserts
    /// none.
    pub fn room(&self) -> u64
        ensures room { result ≡ room_of_line self.now }
        ensures most { result ≤ 1048576 }
        ensures known { InsertsLogRecord self.now }
    {
        match self {
            PlainLine::Insert(body) | PlainLine::Commit(body) => u64::from(body.room()),
            PlainLine::Flush => 0,
        }
    }
}

/// The lines of one backend, in order; contracts see the list of them.
#[derive(Debug, Drop)]
pub struct Script {
    lines: Vec<PlainLine>,
}

impl Model for Script {
    ghost use Rattle.std.specs.Prelude.{List};
    ghost use Rattle.machine_turns.specs.declared.script.PlainLine.{PlainLine};

    ghost Value = { List PlainLine };

    ghost view = { λ s. s.lines.items };
}

impl Script {
    pub fn of(lines: Vec<PlainLine>) -> Script
        ensures { result ≡ lines.items }
    {
        Script { lines }
    }

    pub fn lines(&self) -> &[PlainLine]
        ensures { result.now ≡ self.now }
    {
        &self.lines
    }
}
