ghost use Rattle.std.specs.Prelude.{◌≡◌, ◌≤◌, ◌<◌, ◌++◌, [], None, IfOk, OnErr, length, take};
ghost use Rattle.std.specs.Io.KnownBytes.{Keeps, ReadConsumes};
ghost use Rattle.segment_disk.specs.Cause.{HasCause};
ghost use Rattle.segment_disk.specs.Stream.{ends_after};

use segment_disk::{EndsTold, Failed, HandedOut, Source, count_fault};
use std::io;
use std::io::{ErrorKind, Read};

// How often a read is made that a signal interrupts each time.
const MOST_TRIES: u32 = 1000;

/// A source over a reader. It reads straight into the caller's piece: give it large ones.
#[derive(Drop)]
pub struct StandardSource<R: Read> {
    reader: R,
    handed: HandedOut,
    ends_told: EndsTold,
    faults: u64,
}

impl<R: Read> StandardSource<R> {
    ghost use Rattle.segment_files.specs.Adapter.{reader_left};

    pub fn new(reader: R) -> StandardSource<R>
        ensures left { ⟦<StandardSource<R> as Source>⟧.left result ≡ None }
        ensures handed { ⟦<StandardSource<R> as Source>⟧.handed result ≡ [] }
        ensures ends_told { ⟦<StandardSource<R> as Source>⟧.ends_told result ≡ 0 }
        ensures faults { ⟦<StandardSource<R> as Source>⟧.faults result ≡ 0 }
        ensures bytes { reader_left R.remaining result ≡ R.remaining reader }
    {
        StandardSource {
            reader,
            handed: HandedOut::new(),
            ends_told: EndsTold::new(),
            faults: 0,
        }
    }
}

impl<R: Read> Source for StandardSource<R> {
    ghost use Rattle.std.specs.Prelude.{None};
    ghost use Rattle.segment_files.specs.Adapter.{reader_left};

    ghost left = { λ s. None };

    ghost handed = { λ s. s.handed.bytes };

    ghost ends_told = { λ s. s.ends_told.count };

    ghost faults = { λ s. s.faults };

    fn read(&mut self, into: &mut [u8]) -> Result<usize, Failed>
        ensures within { IfOk result (λ n. n ≤ length into.old) }
        ensures handed { IfOk result (λ n.
            self.new.handed.bytes ≡ self.old.handed.bytes ++ take n into.new) }
        ensures none_handed { OnErr result (self.new.handed.bytes ≡ self.old.handed.bytes) }
        ensures ends_told { IfOk result (λ n.
            self.new.ends_told.count ≡ ends_after self.old.ends_told.count (length into.old) n) }
        ensures no_end_told { OnErr result
            (self.new.ends_told.count ≡ self.old.ends_told.count) }
        ensures cause { HasCause self.old.faults self.new.faults result }

        // It gives the reader's bytes in order, and answers 0 where none is left.
        ensures bytes { ReadConsumes (reader_left R.remaining self.old)
            (reader_left R.remaining self.new) result into.new }
    {
        match read_once(&mut self.reader, into) {
            Ok(count) => {
                self.handed.add(&into[..count]);
                self.ends_told.note(into.len(), count);
                Ok(count)
            }
            Err(_) => Err(count_fault(&mut self.faults)),
        }
    }

    fn faults(&self) -> u64 {
        self.faults
    }
}

// One read, made again where a signal interrupts it.
fn read_once<R: Read>(reader: &mut R, into: &mut [u8]) -> io::Result<usize>
    ensures within { IfOk result (λ count. count ≤ length into.old) }
    ensures bytes { ReadConsumes (R.remaining reader.old) (R.remaining reader.new) result into.new }
{
    for _ in 0..MOST_TRIES {
        match reader.read(into) {
            Ok(count) => return Ok(count),
            Err(e) => {
                if e.kind() != ErrorKind::Interrupted {
                    return Err(e);
                }
            }
        }
    }
    Err(ErrorKind::Interrupted.into())
}
