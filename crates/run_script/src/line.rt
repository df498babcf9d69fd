ghost use Rattle.std.specs.Prelude.{◌≡◌};

use wal_spelling::KeptBody;

/// What a line asks for, with its record assembled.
#[derive(Debug, Drop)]
pub enum Action<'a> {
    /// Insert this record.
    Insert(KeptBody<'a>),
    /// Insert this commit's record, then flush to its end.
    Commit(KeptBody<'a>),
    /// Flush to the end of the backend's last record.
    Flush,
    /// Insert this commit's record, and answer before it is durable.
    CommitAsync(KeptBody<'a>),
    /// Flush behind, as a log writer does: whole pages first, else what was answered.
    WriteBehind,
    /// End the segment with this record, unless the log stands at a segment's start.
    Switch(KeptBody<'a>),
}

/// A line of a script. Lines are numbered from 1, all of them.
#[derive(Debug, Drop)]
pub struct Line<'a> {
    pub number: u32,
    pub action: Action<'a>,
}

/// Why a line is refused.
#[derive(Clone, Copy, Debug, PartialEq, Eq)]
pub enum ScriptFault {
    /// The script goes on beyond its limit.
    Length,
    /// The first field is no line's letter.
    Word,
    /// Too few or too many fields.
    Count,
    /// A field that should be a number is none of its range.
    Number,
    /// A field that should be hexadecimal digits is none.
    Hex,
    /// A block reference is not made of its parts.
    Block,
    /// A block's image is not made of its parts.
    Image,
    /// A backend more than there may be.
    Backends,
    /// An item of the schedule is none, its backend is not there, or the turns are too many.
    Schedule,
    /// No manager has the record's number.
    BadManager,
    /// The record would end its segment.
    Switch,
    /// A block of the record is not right.
    BadBlock,
    /// The record has more bytes than it may have.
    TooLong,
}

impl ScriptFault {
    ghost use Rattle.run_script.specs.Names.{fault_name};

    /// The word by which a report names it.
    pub fn name(self) -> &'static str
        ensures { result.now ≡ fault_name self }
    {
        match self {
            ScriptFault::Length => "length",
            ScriptFault::Word => "word",
            ScriptFault::Count => "count",
            ScriptFault::Number => "number",
            ScriptFault::Hex => "hex",
            ScriptFault::Block => "block",
            ScriptFault::Image => "image",
            ScriptFault::Backends => "backends",
            ScriptFault::Schedule => "schedule",
            ScriptFault::BadManager => "bad manager",
            ScriptFault::Switch => "switch",
            ScriptFault::BadBlock => "bad block",
            ScriptFault::TooLong => "too long",
        }
    }
}

/// The first line that is refused, and why.
#[derive(Clone, Copy, Debug, PartialEq, Eq)]
pub struct Refusal {
    pub line: u32,
    pub fault: ScriptFault,
}
