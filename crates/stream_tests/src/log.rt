//! A log as its words, from the start of segment 1 on, and its pages as frames.

ghost use Rattle.std.specs.Prelude.{◌≡◌};

use bumpalo::Bump;
use byte_position::{Geometry, Page};
use run_script::{Action, Line, generate, parse_run};
use std::alloc::Global;
use std::test::Fail;
use wal_page::Placed;
use wal_spelling::Body;
use wal_stream::{FRAME_SIZE, frame};
use wal_types::Lsn;

pub(crate) const SYSTEM_ID: u64 = 1;

/// Where segment 1 starts, and which page does, where segments have 1 MiB.
pub(crate) const START: u64 = 0x10_0000;

const FIRST_PAGE: u64 = 128;

/// Segments of 1 MiB.
pub(crate) fn smallest() -> Geometry
    ensures { result ≡ 1048576 }
{
    match Geometry::new(1 << 20) {
        Some(geometry) => geometry,
        None => unreachable!(),
    }
}

/// A frame's bytes.
pub(crate) type FrameBytes = [u8; FRAME_SIZE];

/// A log of at most a thousand pages.
#[derive(Drop)]
pub(crate) struct Log {
    words: Vec<u64>,
    /// Where each record ends.
    pub(crate) ends: Vec<u64>,
    // The byte position behind the last record, and where that starts.
    position: u64,
    last: Lsn,
}

impl Log {
    /// The log of a script of one backend.
    pub(crate) fn of_script(alloc: Global, script: &[u8]) -> Result<Log, Fail> {
        if script.len() > 1000 {
            return Err(Fail::from("a short script"));
        }
        let arena = Bump::new(alloc);
        match parse_run(alloc, &arena, script, None) {
            Ok(backends) => Log::of(alloc, &backends),
            Err(_) => Err(Fail::from("a script that is read")),
        }
    }

    /// The log of the generator's script with so many lines of each of its four backends.
    pub(crate) fn generated(alloc: Global, lines: u32) -> Result<Log, Fail> {
        if lines > 1000 {
            return Err(Fail::from("a log of at most a thousand pages"));
        }
        let backends = generate(alloc, lines)?;
        Log::of(alloc, &backends)
    }

    /// The records of backends, those of each behind those of the one before.
    pub(crate) fn of(alloc: Global, backends: &[Vec<Line>]) -> Result<Log, Fail> {
        let mut log = Log {
            words: Vec::new(alloc),
            ends: Vec::new(alloc),
            position: smallest().position_of(Lsn(START)),
            last: Lsn(0),
        };
        for lines in backends {
            log.add_lines(lines)?;
        }
        Ok(log)
    }

    fn add_lines(&mut self, lines: &[Line]) -> Result<(), Fail> {
        for line in lines {
            match &line.action {
                Action::Insert(body) => self.add(&body.as_body())?,
                Action::Commit(body) => self.add(&body.as_body())?,
                _ => return Err(Fail::from("lines that insert")),
            }
        }
        Ok(())
    }

    fn add(&mut self, body: &Body) -> Result<(), Fail> {
        let room = u64::from(body.room());
        let start = self.position;
        if start % 8 != 0 || start > 0x100_0000_0000 {
            return Err(Fail::from("a log of at most a terabyte"));
        }
        let mut placed = Placed::new(smallest(), SYSTEM_ID, body, start, self.last);
        for _word in 0..room {
            if let Some((_, word)) = placed.next_word() {
                self.words.push(word)?;
            }
        }
        self.ends.push(placed.next_lsn().0)?;
        self.last = smallest().to_lsn(start);
        self.position = start + room;
        Ok(())
    }

    /// Where it ends.
    pub(crate) fn end(&self) -> u64 {
        self.ends.last().copied().unwrap_or(START)
    }

    /// Where it ends in a page.
    pub(crate) fn end_in(&self, number: u16) -> u64 {
        self.end().min(START + 8192 * u64::from(number) + 8192)
    }

    /// How many pages it has.
    pub(crate) fn pages(&self) -> u16 {
        self.words.len().div_ceil(1024).min(1000) as u16
    }

    /// A page of it, counted from its first one on.
    pub(crate) fn page(&self, number: u16) -> Page {
        let mut bytes = [0; 8192];
        for n in 0..1024 {
            let word = self.words.get(1024 * usize::from(number) + n);
            put_word(&mut bytes, n, word.copied().unwrap_or(0));
        }
        bytes
    }

    /// The frame of a page, up to where that or the log ends, or up to some other place.
    pub(crate) fn frame(&self, number: u16, upto: Option<u64>) -> Result<FrameBytes, Fail> {
        let page = FIRST_PAGE + u64::from(number);
        let upto = upto.unwrap_or(self.end_in(number));
        if upto % 8 != 0 || upto <= 8192 * page || upto > 8192 * page + 8192 {
            return Err(Fail::from("a place in the page"));
        }
        let mut bytes = [0; FRAME_SIZE];
        frame(smallest(), page, Lsn(upto), &self.page(number), &mut bytes);
        Ok(bytes)
    }
}

fn put_word(bytes: &mut Page, n: usize, word: u64) {
    if n < 1024 {
        bytes[8 * n..8 * n + 8].copy_from_slice(&word.to_le_bytes());
    }
}
