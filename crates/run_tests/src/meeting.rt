//! Where backends and syncs wait for each other, and which lines pass.

use backend_cli::Gate;
use byte_position::{Geometry, Page};
use segment_disk::{Disk, Failed, MemDisk};
use std::sync::atomic::{AtomicU64, Ordering};
use std::thread;

// How often who waits looks for the others before it goes on without them.
const MOST_TURNS: u32 = 10_000_000;

// That a sync has begun.
const SYNC: u64 = 1 << 16;

/// Who is waited for, as bits: a backend's number stands for its first line, 8 more than that for
/// a later one.
#[derive(Clone, Copy)]
pub struct Awaited {
    /// Before each backend's first line.
    pub lines: &'static [u64],
    /// Before each later line.
    pub later: u64,
    /// In each sync.
    pub sync: u64,
}

/// Nobody waits.
pub const NOBODY: Awaited = Awaited {
    lines: &[],
    later: 0,
    sync: 0,
};

/// So many backends wait for each other.
pub const TWO: Awaited = Awaited {
    lines: &[0x3; 2],
    ..NOBODY
};

pub const THREE: Awaited = Awaited {
    lines: &[0x7; 3],
    ..NOBODY
};

pub const FOUR: Awaited = Awaited {
    lines: &[0xf; 4],
    ..NOBODY
};

pub const EIGHT: Awaited = Awaited {
    lines: &[0xff; 8],
    ..NOBODY
};

/// The second backend waits for a sync of the first one's, which waits for its second line.
pub const HELD_SYNC: Awaited = Awaited {
    lines: &[0, SYNC],
    sync: 0x200,
    ..NOBODY
};

/// The second backend waits for a sync of the first one's, as in `HELD_SYNC`, and the third backend
/// for the second one's second line. Second lines wait for each other, and the sync for both.
pub const SHARED_SYNC: Awaited = Awaited {
    lines: &[0, SYNC, 0x200],
    later: 0x600,
    sync: 0x600,
};

/// A gate at which backends meet.
#[derive(Drop)]
pub struct Meeting {
    awaited: Awaited,
    come: AtomicU64,
    missed: AtomicU64,
    passed: AtomicU64,
}

// A further number of eight bits, lowest of all.
fn with_behind(notes: u64, note: u64) -> u64 {
    notes.wrapping_mul(256).wrapping_add(note)
}

impl Meeting {
    pub fn new(awaited: Awaited) -> Meeting {
        Meeting {
            awaited,
            come: AtomicU64::new(0),
            missed: AtomicU64::new(0),
            passed: AtomicU64::new(0),
        }
    }

    /// The last lines that passed, a byte of the number of each, the last one lowest: right if
    /// there is one backend.
    pub fn passed(&self) -> u64 {
        self.passed.load(Ordering::SeqCst)
    }

    /// Whether somebody went on without the others.
    pub fn was_missed(&self) -> bool {
        self.missed.load(Ordering::SeqCst) != 0
    }

    // Whether these have come before it was looked often enough.
    fn sees(&self, awaited: u64) -> bool {
        for _ in 0..MOST_TURNS {
            if self.come.load(Ordering::SeqCst) & awaited == awaited {
                return true;
            }
            thread::yield_now();
        }
        false
    }

    fn wait_for(&self, awaited: u64) {
        if !self.sees(awaited) {
            self.missed.store(1, Ordering::SeqCst);
        }
    }
}

impl Gate for Meeting {
    fn pass(&self, backend: u32, line: u32) {
        let passed = with_behind(self.passed(), u64::from(line));
        self.passed.store(passed, Ordering::SeqCst);
        let first = 1u64.wrapping_shl(backend);
        if self.come.fetch_or(first, Ordering::SeqCst) & first == 0 {
            let awaited = self.awaited.lines.get(backend as usize);
            self.wait_for(awaited.copied().unwrap_or(0));
        } else {
            self.come.fetch_or(first.wrapping_shl(8), Ordering::SeqCst);
            self.wait_for(self.awaited.later);
        }
    }
}

/// A disk in memory whose syncs come to a meeting.
#[derive(Drop)]
pub struct MeetingDisk<'a> {
    pub disk: MemDisk,
    pub meeting: &'a Meeting,
    /// Which line passed last before each of the last counted calls, the last call lowest.
    pub lines: u64,
    /// Of which kind each of these was: C, W or S for a create, a write or a sync.
    pub kinds: u64,
}

impl<'a> MeetingDisk<'a> {
    // The lines, with the one that passed last.
    fn noted(&self) -> u64 {
        with_behind(self.lines, self.meeting.passed() % 256)
    }
}

impl<'a> Disk for MeetingDisk<'a> {
    ghost use Rattle.std.specs.Prelude.{refl};
    ghost use Rattle.segment_disk.specs.MemDisk.{tape_of, moment_of, faults_of};

    ghost tape = { λ s. tape_of s.disk };

    ghost moment = { λ s. moment_of s.disk };

    ghost faults = { λ s. faults_of s.disk };

    ghost counts = { λ s. refl };

    fn create(&mut self, geometry: Geometry, segment: u64) -> Result<(), Failed> {
        self.lines = self.noted();
        self.kinds = with_behind(self.kinds, u64::from(b'C'));
        self.disk.create(geometry, segment)
    }

    fn write_page(
        &mut self,
        geometry: Geometry,
        segment: u64,
        page: u32,
        bytes: &Page,
    ) -> Result<(), Failed> {
        self.lines = self.noted();
        self.kinds = with_behind(self.kinds, u64::from(b'W'));
        self.disk.write_page(geometry, segment, page, bytes)
    }

    fn sync(&mut self, geometry: Geometry, segment: u64) -> Result<(), Failed> {
        self.lines = self.noted();
        self.kinds = with_behind(self.kinds, u64::from(b'S'));
        self.meeting.come.fetch_or(SYNC, Ordering::SeqCst);
        self.meeting.wait_for(self.meeting.awaited.sync);
        self.disk.sync(geometry, segment)
    }

    fn read_page(
        &mut self,
        geometry: Geometry,
        segment: u64,
        page: u32,
        bytes: &mut Page,
    ) -> Result<bool, Failed> {
        self.disk.read_page(geometry, segment, page, bytes)
    }

    fn moment(&self) -> u64 {
        self.disk.moment()
    }

    fn faults(&self) -> u64 {
        self.disk.faults()
    }
}
