//! A standby that is sent as many frames as are taken at once, and one byte more.

use crate::meeting::{Meeting, NOBODY};
use crate::played::{disk_of, words_of};
use backend_cli::pgwal;
use segment_disk::{EndsTold, Failed, HandedOut, MemSink, Source};
use std::test::Fail;

// A source of so many zeros more. Each 8,224 of them are no frame by their first bytes.
#[derive(Drop)]
struct Zeros {
    left: usize,
    handed: HandedOut,
    ends_told: EndsTold,
}

impl Source for Zeros {
    ghost use Rattle.std.specs.Prelude.{None};

    ghost left = { λ s. None };

    ghost handed = { λ s. s.handed.bytes };

    ghost ends_told = { λ s. s.ends_told.count };

    ghost faults = { λ s. 0 };

    fn read(&mut self, into: &mut [u8]) -> Result<usize, Failed> {
        let count = into.len().min(self.left);
        into[..count].fill(0);
        self.left -= count;
        self.handed.add(&into[..count]);
        self.ends_told.note(into.len(), count);
        Ok(count)
    }

    fn faults(&self) -> u64 {
        0
    }
}

const MOST_BYTES: usize = 1_048_576 * 8224;

// How many zeros come, how the command ends then, and what it prints to standard error.
static ROWS: &[(usize, u8, &[u8])] = &[
    (MOST_BYTES, 0, b""),
    (MOST_BYTES + 1, 11, b"pgwal: too many frames\n"),
];

#[test]
fn a_byte_behind_the_last_frame_is_too_many(rt: HostRuntime) -> Result<(), Fail> {
    let alloc = rt.alloc();
    let words = words_of(alloc, &["receive", "--seg", "1048576"])?;
    let counted = b"received 0/00100000 taken 0 old 0 gap 0 bad 1048576\n";
    for (left, status, told) in ROWS {
        let mut zeros = Zeros {
            left: *left,
            handed: HandedOut::new(),
            ends_told: EndsTold::new(),
        };
        let mut out = MemSink::new(alloc, 100, Vec::new(alloc))?;
        let mut err = MemSink::new(alloc, 100, Vec::new(alloc))?;
        let disk = disk_of(alloc, 1, &[])?;
        let gate = Meeting::new(NOBODY);
        let ended = pgwal(
            &rt, alloc, &words, &mut zeros, disk, &mut out, &mut err, &gate,
        );
        assert_eq!(rt; ended.status, *status);
        assert_eq!(rt; out.taken(), counted.as_slice());
        assert_eq!(rt; err.taken(), *told);
    }
    Ok(())
}
