//! What is there for each line again, and the lines that are read.

ghost use Rattle.std.specs.Prelude.{◌≡◌, [], ◌∷◌, ◌++◌, is_ok, if◌then◌else◌};

use crate::line::{Action, Line};
use bumpalo::Bump;
use std::alloc::{AllocError, Global};

/// Where the records of lines are spelled, and where their bytes lie.
#[derive(Drop)]
pub(crate) struct Rooms<'a> {
    /// The arena in which bodies lie, with their bytes; where there is none each has a box, and
    /// bytes of its own.
    pub arena: Option<&'a Bump>,
    /// The data of a line.
    pub data: Vec<u8>,
    /// What of a record stands behind its header; data alone behind free bytes.
    pub spelled: Vec<u8>,
}

impl<'a> Rooms<'a> {
    /// Rooms that hold nothing yet.
    pub(crate) fn new(alloc: Global, arena: Option<&'a Bump>) -> Rooms<'a> {
        Rooms {
            arena,
            data: Vec::new(alloc),
            spelled: Vec::new(alloc),
        }
    }
}

/// The lines of the backend under way, and what is there for its next one.
#[derive(Drop)]
pub(crate) struct LinesRead<'a> {
    pub lines: Vec<Line<'a>>,
    pub rooms: Rooms<'a>,
}

impl<'a> LinesRead<'a> {
    /// No line yet.
    pub(crate) fn new(alloc: Global, arena: Option<&'a Bump>) -> LinesRead<'a>
        ensures { result.lines.items ≡ [] }
    {
        LinesRead {
            lines: Vec::new(alloc),
            rooms: Rooms::new(alloc, arena),
        }
    }

    /// One line more, unless memory runs out.
    #[inline(always)]
    pub(crate) fn push(&mut self, number: u32, action: Action<'a>) -> Result<(), AllocError>
        ensures { self.new.lines.items ≡ (if is_ok result
            then self.old.lines.items ++ (record { number = number; action = action.entry }) ∷ []
            else self.old.lines.items) }
    {
        self.lines.reserve(1)?;
        self.lines.push_reserved(Line { number, action });
        Ok(())
    }
}
