ghost use Rattle.std.specs.Prelude.{◌≡◌, ◌≤◌, ◌<◌, [], None, IfOk, OnOk, OnErr, length, take};
ghost use Rattle.std.specs.Io.KnownBytes.{Keeps, WriteAppends};
ghost use Rattle.segment_disk.specs.Cause.{HasCause};
ghost use Rattle.segment_disk.specs.Stream.{with_behind};

use segment_disk::{Failed, Memory, Sink, count_fault};
use std::alloc::Global;
use std::io::{BufWriter, Write};

const BUFFER_SIZE: usize = 64 * 1024;

// Below the buffer's size, so that each piece goes through the buffer.
const LONGEST_PIECE: usize = 32 * 1024;

/// A sink over a writer. It keeps up to 64 KiB and writes them where it needs the room: flush it at
/// the end, since a failure is not told where it is dropped. A write that failed is made again,
/// from where it ended, by the next call.
#[derive(Drop)]
pub struct StandardSink<W: Write + Drop> {
    writer: BufWriter<W>,
    faults: u64,
}

impl<W: Write + Drop> StandardSink<W> {
    ghost use Rattle.segment_files.specs.Adapter.{writer_taken, kept_bytes};

    /// Takes room for what it keeps.
    pub fn new(alloc: Global, writer: W) -> Result<StandardSink<W>, Memory>
        ensures taken { IfOk result (λ sink. ⟦<StandardSink<W> as Sink>⟧.taken sink ≡ None) }
        ensures faults { IfOk result (λ sink. ⟦<StandardSink<W> as Sink>⟧.faults sink ≡ 0) }
        ensures bytes { IfOk result (λ sink.
            Keeps (W.contents writer) (writer_taken W.contents sink)) }
    {
        match BufWriter::with_capacity(alloc, BUFFER_SIZE, writer) {
            Ok(writer) => Ok(StandardSink { writer, faults: 0 }),
            Err(_) => Err(Memory),
        }
    }

    /// Writes what it keeps.
    pub fn flush(&mut self) -> Result<(), Failed>
        ensures cause { HasCause (⟦<StandardSink<W> as Sink>⟧.faults self.old)
            (⟦<StandardSink<W> as Sink>⟧.faults self.new) result }
        ensures bytes { Keeps (writer_taken W.contents self.old)
            (writer_taken W.contents self.new) }
        ensures written { OnOk result (kept_bytes self.new ≡ []) }
    {
        match self.writer.flush() {
            Ok(()) => Ok(()),
            Err(_) => Err(count_fault(&mut self.faults)),
        }
    }
}

impl<W: Write + Drop> Sink for StandardSink<W> {
    ghost use Rattle.std.specs.Prelude.{None};
    ghost use Rattle.segment_files.specs.Adapter.{writer_taken};

    ghost taken = { λ s. None };

    ghost faults = { λ s. s.faults };

    fn write(&mut self, from: &[u8]) -> Result<usize, Failed>
        ensures within { IfOk result (λ n. n ≤ length from.now) }
        ensures some { IfOk result (λ n. 0 < length from.now → 0 < n) }
        ensures cause { HasCause self.old.faults self.new.faults result }

        // The writer is given each byte that was taken, once and in order.
        ensures bytes { WriteAppends (writer_taken W.contents self.old)
            (writer_taken W.contents self.new) result from.now }
    {
        let count = from.len().min(LONGEST_PIECE);
        match self.writer.write(&from[..count]) {
            Ok(taken) if taken > 0 || count == 0 => Ok(taken),
            _ => Err(count_fault(&mut self.faults)),
        }
    }

    fn faults(&self) -> u64 {
        self.faults
    }
}
