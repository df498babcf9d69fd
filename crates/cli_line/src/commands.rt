use byte_position::Geometry;
use wal_types::Lsn;
use waldump_filter::Filter;

/// The log of a run, and what the run prints.
#[derive(Clone, Copy, Debug)]
pub struct RunOptions {
    pub geometry: Geometry,
    /// How many pages the log's ring has.
    pub ring_pages: u32,
    /// How many segments the log may fill.
    pub cap_segments: u32,
    /// Whether a line is printed for each line told.
    pub list: bool,
}

/// What `run` is asked to do.
#[derive(Clone, Copy, Debug)]
pub struct ScriptRunOptions {
    /// The run of the script's lines.
    pub run: RunOptions,
    /// How many lines the log writer has, which is one backend more behind the script's last.
    /// `None` if none is asked for.
    pub writer: Option<u32>,
}

/// What `gen` is asked to do.
#[derive(Clone, Copy, Debug)]
pub struct GenOptions {
    /// How many lines each backend has.
    pub lines: u32,
    /// The run of these lines.
    pub run: RunOptions,
}

/// The image that a crash leaves, of those that it may leave: a word is undecided where its page
/// was written since its segment's last sync.
#[derive(Clone, Copy, Debug)]
pub enum CrashPick {
    /// Each undecided word is the durable one.
    Old,
    /// Each is the last write's.
    New,
    /// Words of odd index in their page are the last write's, the others durable.
    Odd,
}

/// What `replay` is asked to do.
#[derive(Clone, Copy, Debug)]
pub struct ReplayOptions {
    pub geometry: Geometry,
    /// How many pages the log's ring has.
    pub ring_pages: u32,
    /// How many segments the log may fill.
    pub cap_segments: u32,
    /// Which words of the disk the crash leaves.
    pub crash: CrashPick,
}

/// What `dump` is asked to do.
#[derive(Clone, Copy, Debug)]
pub struct DumpOptions {
    pub geometry: Geometry,
    /// Which records are listed: all of the log, from segment 1 on, where nothing else is asked.
    pub filter: Filter,
}

/// What `redo` is asked to do.
#[derive(Clone, Copy, Debug)]
pub struct RedoOptions {
    pub geometry: Geometry,
}

/// What `send` is asked to do.
#[derive(Clone, Copy, Debug)]
pub struct SendOptions {
    pub geometry: Geometry,
    /// The address that the first frame's page holds: the log's start where nothing else is asked.
    pub from: Lsn,
}

/// What `receive` is asked to do.
#[derive(Clone, Copy, Debug)]
pub struct ReceiveOptions {
    pub geometry: Geometry,
    /// How many segments the standby's log may fill.
    pub cap_segments: u32,
}

/// What a command line asks for.
#[derive(Clone, Copy, Debug)]
pub enum Command {
    /// Runs a script, on a log that it begins.
    Run(ScriptRunOptions),
    /// Runs a script, on the log that is there: `run` with its switch `--append`.
    Append(ScriptRunOptions),
    /// Runs lines that are made.
    Gen(GenOptions),
    /// Plays a script of several backends turn by turn, and lists the log that a crash leaves.
    Replay(ReplayOptions),
    /// Lists the log.
    Dump(DumpOptions),
    /// Redoes the log's page images in memory, and lists the blocks that they fill.
    Redo(RedoOptions),
    /// Sends the log's pages as frames to standard output.
    Send(SendOptions),
    /// Keeps a copy of the log whose frames come from standard input.
    Receive(ReceiveOptions),
}
