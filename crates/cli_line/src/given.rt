ghost use Rattle.std.specs.Prelude.{◌≡◌, ◌||◌, IfSome, is_some, option_map};
ghost use Rattle.cli_line.specs.Meanings.{block_number_of, cap_segments_of, crash_of, limit_of, line_count_of, lsn_of, manager_of, relation_of, ring_pages_of, segment_size_of, writer_lines_of, xid_of};
ghost use Rattle.cli_line.specs.declared.commands.CrashPick.TheVariants.{New};
ghost use Rattle.cli_line.specs.Given.{IsCapInRange, IsInRange, IsShapeInRange, command_of, default_cap_segments, default_segment_size, dump_of, filter_of, gen_of, given_of, gives_dump, gives_dump_or_send, gives_extent, gives_form, gives_run, gives_run_form, gives_run_gen_or_replay, gives_selection, lacks_relation, or_default, receive_of, redo_of, replay_of, run_of, run_options_of, send_of, settled, shape_of, text_of, with_block_rules, with_extent, with_form, with_record_rules};

use crate::commands::{
    Command, CrashPick, DumpOptions, GenOptions, ReceiveOptions, RedoOptions, ReplayOptions,
    RunOptions, ScriptRunOptions, SendOptions,
};
use crate::meanings::{
    block_number, cap_segments, crash, fork, limit, line_count, lsn, manager, relation, ring_pages,
    segment_size, writer_lines, xid,
};
use byte_position::Geometry;
use wal_types::Lsn;
use waldump_filter::Filter;

const DEFAULT_SEGMENT_SIZE: u64 = 16_777_216;

const DEFAULT_RING_PAGES: u32 = 64;

const DEFAULT_CAP_SEGMENTS: u32 = 64;

/// The words of a command line, each in the place of the option or the name that it was given for.
#[derive(Debug, Drop)]
pub struct GivenWords<'a> {
    /// The command's name.
    pub command: Option<&'a str>,
    /// What stands behind the command's name: `gen` and `help` alone take it.
    pub topic: Option<&'a str>,
    /// The segments' size in bytes.
    pub seg: Option<&'a str>,
    /// How many pages the log's ring has.
    pub ring: Option<&'a str>,
    /// How many segments the log may fill.
    pub cap: Option<&'a str>,
    /// Whether a line is printed for each line told: `run` and `gen` alone take it.
    pub list: bool,
    /// How many lines the log writer has: `run` alone takes it.
    pub writer: Option<&'a str>,
    /// Whether the log that is there is gone on with: `run` alone takes it.
    pub append: bool,
    /// Which words of the disk a crash leaves: `replay` alone takes it.
    pub crash: Option<&'a str>,
    /// The address from which on the log is sent: `send` alone takes it.
    pub from: Option<&'a str>,
    /// The manager of the records that are listed.
    pub rmgr: Option<&'a str>,
    /// Their transaction.
    pub xid: Option<&'a str>,
    /// The relation of a block that they have.
    pub relation: Option<&'a str>,
    /// The block's number in that relation.
    pub block: Option<&'a str>,
    /// The block's fork.
    pub fork: Option<&'a str>,
    /// Whether they have a page's image.
    pub fullpage: bool,
    /// The address from which on records are listed.
    pub start: Option<&'a str>,
    /// The address below which they end.
    pub end: Option<&'a str>,
    /// How many are listed at most.
    pub limit: Option<&'a str>,
    /// Whether nothing is printed.
    pub quiet: bool,
    /// Whether statistics are printed in place of the records.
    pub stats: bool,
    /// Whether a commit's time is printed behind its data.
    pub times: bool,
}

impl GivenWords<'_> {
    /// The command that the words make: its own options alone, each word of its form and range, and
    /// a block only with its relation. None where they make none.
    pub fn command(&self) -> Option<Command>
        ensures command { result ≡ command_of (given_of self.now) }
        ensures in_range { IfSome result IsInRange }
    {
        match self.command? {
            "run" => self.run(),
            "gen" => self.generated_run(),
            "replay" => self.replay(),
            "dump" => self.dump(),
            "redo" => self.redo(),
            "send" => self.send(),
            "receive" => self.receive(),
            _ => None,
        }
    }

    fn run(&self) -> Option<Command>
        ensures command { result ≡ run_of (given_of self.now) }
        ensures in_range { IfSome result IsInRange }
    {
        if self.topic.is_some() {
            return None;
        }
        let run = self.run_options()?;
        let writer = settled(self.writer.map(writer_lines))?;
        let options = ScriptRunOptions { run, writer };
        Some(if self.append {
            Command::Append(options)
        } else {
            Command::Run(options)
        })
    }

    fn generated_run(&self) -> Option<Command>
        ensures command { result ≡ gen_of (given_of self.now) }
        ensures in_range { IfSome result IsInRange }
    {
        if self.gives_run() {
            return None;
        }
        let lines = line_count(self.topic?)?;
        let run = self.run_options()?;
        Some(Command::Gen(GenOptions { lines, run }))
    }

    fn replay(&self) -> Option<Command>
        ensures command { result ≡ replay_of (given_of self.now) }
        ensures in_range { IfSome result IsInRange }
    {
        if self.topic.is_some() || self.gives_dump_or_send() || self.list || self.gives_run() {
            return None;
        }
        let (geometry, ring_pages, cap_segments) = self.shape()?;
        let crash = self.crash()?;
        Some(Command::Replay(ReplayOptions {
            geometry,
            ring_pages,
            cap_segments,
            crash,
        }))
    }

    fn dump(&self) -> Option<Command>
        ensures command { result ≡ dump_of (given_of self.now) }
        ensures in_range { IfSome result IsInRange }
    {
        if self.topic.is_some() || self.gives_run_gen_or_replay() || self.from.is_some() {
            return None;
        }
        let geometry = self.geometry()?;
        let filter = self.filter(geometry)?;
        Some(Command::Dump(DumpOptions { geometry, filter }))
    }

    fn redo(&self) -> Option<Command>
        ensures command { result ≡ redo_of (given_of self.now) }
        ensures in_range { IfSome result IsInRange }
    {
        if self.topic.is_some() || self.gives_run_gen_or_replay() || self.gives_dump_or_send() {
            return None;
        }
        let geometry = self.geometry()?;
        Some(Command::Redo(RedoOptions { geometry }))
    }

    fn send(&self) -> Option<Command>
        ensures command { result ≡ send_of (given_of self.now) }
        ensures in_range { IfSome result IsInRange }
    {
        if self.topic.is_some() || self.gives_run_gen_or_replay() || self.gives_dump() {
            return None;
        }
        let geometry = self.geometry()?;
        // Segment 1 begins where segment 0 ends.
        let from = lsn_or(self.from, Lsn(geometry.segment_size()))?;
        Some(Command::Send(SendOptions { geometry, from }))
    }

    fn receive(&self) -> Option<Command>
        ensures command { result ≡ receive_of (given_of self.now) }
        ensures in_range { IfSome result IsInRange }
    {
        if self.topic.is_some() || self.gives_run_form() || self.gives_dump_or_send() {
            return None;
        }
        let geometry = self.geometry()?;
        let cap_segments = self.cap_segments()?;
        Some(Command::Receive(ReceiveOptions {
            geometry,
            cap_segments,
        }))
    }

    // Whether an option is given that only `run` takes.
    fn gives_run(&self) -> bool
        ensures { result ≡ gives_run (given_of self.now) }
    {
        self.writer.is_some() || self.append
    }

    // Whether an option is given that only `run`, `gen` or `replay` takes.
    fn gives_run_form(&self) -> bool
        ensures { result ≡ gives_run_form (given_of self.now) }
    {
        self.ring.is_some() || self.list || self.gives_run() || self.crash.is_some()
    }

    // Whether one is given that only these and `receive` take.
    fn gives_run_gen_or_replay(&self) -> bool
        ensures { result ≡ gives_run_gen_or_replay (given_of self.now) }
    {
        self.cap.is_some() || self.gives_run_form()
    }

    // Whether an option is given that only `dump` takes.
    fn gives_dump(&self) -> bool
        ensures { result ≡ gives_dump (given_of self.now) }
    {
        self.gives_selection() || self.gives_extent() || self.gives_form()
    }

    // Whether an option is given that only `dump` or only `send` takes.
    fn gives_dump_or_send(&self) -> bool
        ensures { result ≡ gives_dump_or_send (given_of self.now) }
    {
        self.gives_dump() || self.from.is_some()
    }

    // Whether an option is given that says which records are kept.
    fn gives_selection(&self) -> bool
        ensures { result ≡ gives_selection (given_of self.now) }
    {
        self.rmgr.is_some()
            || self.xid.is_some()
            || self.relation.is_some()
            || self.block.is_some()
            || self.fork.is_some()
            || self.fullpage
    }

    // Whether an option is given that says where a listing begins and ends.
    fn gives_extent(&self) -> bool
        ensures { result ≡ gives_extent (given_of self.now) }
    {
        self.start.is_some() || self.end.is_some() || self.limit.is_some()
    }

    // Whether an option is given that says what is printed.
    fn gives_form(&self) -> bool
        ensures { result ≡ gives_form (given_of self.now) }
    {
        self.quiet || self.stats || self.times
    }

    // The options that `run` and `gen` share, where none of `dump`, `send` and `replay` is given.
    fn run_options(&self) -> Option<RunOptions>
        ensures value { result ≡ run_options_of (given_of self.now) }
        ensures in_range { IfSome result (λ options.
            IsShapeInRange options.ring_pages options.cap_segments) }
    {
        if self.gives_dump_or_send() || self.crash.is_some() {
            return None;
        }
        let (geometry, ring_pages, cap_segments) = self.shape()?;
        Some(RunOptions {
            geometry,
            ring_pages,
            cap_segments,
            list: self.list,
        })
    }

    // The log's shape: its segments' size, its ring's pages, and how many segments it may fill.
    fn shape(&self) -> Option<(Geometry, u32, u32)>
        ensures value { result ≡ shape_of (given_of self.now) }
        ensures in_range { IfSome result (λ shape. IsShapeInRange shape.1 shape.2) }
    {
        let geometry = self.geometry()?;
        let ring_pages = settled(self.ring.map(ring_pages))?.unwrap_or(DEFAULT_RING_PAGES);
        let cap_segments = self.cap_segments()?;
        Some((geometry, ring_pages, cap_segments))
    }

    // How many segments the log may fill.
    fn cap_segments(&self) -> Option<u32>
        ensures value { result ≡ or_default default_cap_segments cap_segments_of
            (text_of self.now.cap) }
        ensures in_range { IfSome result (λ cap. IsCapInRange cap) }
    {
        match self.cap {
            Some(word) => cap_segments(word),
            None => Some(DEFAULT_CAP_SEGMENTS),
        }
    }

    fn geometry(&self) -> Option<Geometry>
        ensures { result ≡ or_default default_segment_size segment_size_of (text_of self.now.seg) }
    {
        match self.seg {
            Some(word) => segment_size(word),
            None => Geometry::new(DEFAULT_SEGMENT_SIZE),
        }
    }

    fn crash(&self) -> Option<CrashPick>
        ensures { result ≡ or_default New crash_of (text_of self.now.crash) }
    {
        match self.crash {
            Some(word) => crash(word),
            None => Some(CrashPick::New),
        }
    }

    fn filter(&self, geometry: Geometry) -> Option<Filter>
        ensures { result ≡ filter_of geometry (given_of self.now) }
    {
        // Segment 1 begins where segment 0 ends.
        let everything = Filter::everything_from(Lsn(geometry.segment_size()));
        let filter = self.with_record_rules(everything)?;
        let filter = self.with_block_rules(filter)?;
        let filter = self.with_extent(filter)?;
        Some(self.with_form(filter))
    }

    fn with_record_rules(&self, filter: Filter) -> Option<Filter>
        ensures { result ≡ with_record_rules (given_of self.now) filter }
    {
        let rmid = settled(self.rmgr.map(manager))?;
        let xid = settled(self.xid.map(xid))?;
        Some(Filter {
            rmid,
            xid,
            fullpage: self.fullpage,
            ..filter
        })
    }

    fn with_block_rules(&self, filter: Filter) -> Option<Filter>
        ensures { result ≡ with_block_rules (given_of self.now) filter }
    {
        if self.lacks_relation() {
            return None;
        }
        let rel = settled(self.relation.map(relation))?;
        let blk = settled(self.block.map(block_number))?;
        let fork = settled(self.fork.map(fork))?;
        Some(Filter {
            rel,
            blk,
            fork,
            ..filter
        })
    }

    // Whether a block is given without its relation.
    fn lacks_relation(&self) -> bool
        ensures { result ≡ lacks_relation (given_of self.now) }
    {
        self.block.is_some() && self.relation.is_none()
    }

    fn with_extent(&self, filter: Filter) -> Option<Filter>
        ensures { result ≡ with_extent (given_of self.now) filter }
    {
        let start = lsn_or(self.start, filter.start)?;
        let end = settled(self.end.map(lsn))?;
        let limit = settled(self.limit.map(limit))?;
        Some(Filter {
            start,
            end,
            limit,
            ..filter
        })
    }

    fn with_form(&self, filter: Filter) -> Filter
        ensures { result ≡ with_form (given_of self.now) filter }
    {
        Filter {
            quiet: self.quiet,
            stats: self.stats,
            times: self.times,
            ..filter
        }
    }
}

// The address that a word means, or another one where none is given.
fn lsn_or(word: Option<&str>, value: Lsn) -> Option<Lsn>
    ensures { result ≡ or_default value lsn_of (text_of word.entry) }
{
    match word {
        Some(word) => lsn(word),
        None => Some(value),
    }
}

// None where a word is given that means nothing.
fn settled<T: Drop>(meaning: Option<Option<T>>) -> Option<Option<T>>
    ensures { result ≡ settled meaning }
{
    match meaning {
        Some(None) => None,
        Some(some) => Some(some),
        None => Some(None),
    }
}
