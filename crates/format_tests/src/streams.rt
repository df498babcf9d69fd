//! Sources and sinks, in memory and over readers and writers that fail.
use crate::played::crosses_threads;
use segment_disk::{Failed, MemSink, MemSource, Sink, Source};
use segment_files::{StandardSink, StandardSource};
use std::io;
use std::io::{ErrorKind, Read, Write};
use std::test::Fail;

fn read_piece(source: &mut impl Source, into: &mut [u8]) -> Result<usize, Failed> {
    source.read(into)
}

fn write_piece(sink: &mut impl Sink, from: &[u8]) -> Result<usize, Failed> {
    sink.write(from)
}

#[test]
fn source_gives_its_bytes_in_pieces(rt: HostRuntime) -> Result<(), Fail> {
    let alloc = rt.alloc();
    let mut source = MemSource::new(vec![in alloc; 1, 2, 3, 4, 5]?, vec![in alloc; 2]?);
    crosses_threads(&source);
    let mut piece = [0; 3];
    for (answer, given) in [
        (Ok(3), [1, 2, 3]),
        (Err(Failed), [1, 2, 3]),
        (Ok(2), [4, 5, 3]),
        (Ok(0), [4, 5, 3]),
    ] {
        assert_eq!(rt;
            (read_piece(&mut source, &mut piece), piece),
            (answer, given)
        );
    }
    assert_eq!(rt; source.faults(), 1);
    Ok(())
}

#[test]
fn sink_takes_until_it_is_full(rt: HostRuntime) -> Result<(), Fail> {
    let alloc = rt.alloc();
    let mut sink = MemSink::new(alloc, 5, vec![in alloc; 2]?)?;
    crosses_threads(&sink);
    let answers = [
        write_piece(&mut sink, b"abc"),
        write_piece(&mut sink, b"def"),
        write_piece(&mut sink, b"def"),
        write_piece(&mut sink, b""),
        write_piece(&mut sink, b"f"),
    ];
    assert_eq!(rt; answers, [Ok(3), Err(Failed), Ok(2), Ok(0), Err(Failed)]);
    assert_eq!(rt; (sink.faults(), sink.taken()), (2, b"abcde".as_slice()));
    Ok(())
}

// Its calls take a byte, are interrupted, fail, and from then on take all.
#[derive(Drop)]
struct Stutter {
    calls: u32,
    taken: Vec<u8>,
}

impl Write for Stutter {
    fn write(&mut self, buf: &[u8]) -> io::Result<usize> {
        self.calls = self.calls.saturating_add(1);
        match self.calls {
            1 => self.taken.write(&buf[..buf.len().min(1)]),
            2 => Err(ErrorKind::Interrupted.into()),
            3 => Err(ErrorKind::BrokenPipe.into()),
            _ => self.taken.write(buf),
        }
    }

    fn flush(&mut self) -> io::Result<()> {
        Ok(())
    }
}

#[test]
fn failed_write_loses_no_byte_and_doubles_none(rt: HostRuntime) -> Result<(), Fail> {
    let alloc = rt.alloc();
    let piece = vec![in alloc; b'd'; 30_000]?;
    let mut writer = Stutter {
        calls: 0,
        taken: Vec::new(alloc),
    };
    let mut sink = StandardSink::new(alloc, &mut writer)?;
    assert_eq!(rt; write_piece(&mut sink, b"abc"), Ok(3));
    assert_eq!(rt; [sink.flush(), sink.flush()], [Err(Failed), Ok(())]);
    // More than its buffer holds.
    for _ in 0..3 {
        assert_eq!(rt; write_piece(&mut sink, &piece), Ok(30_000));
    }
    assert_eq!(rt; (sink.flush(), sink.faults()), (Ok(()), 1));
    drop(sink);
    assert_eq!(rt;
        (writer.taken.len(), writer.taken.get(..4)),
        (90_003, Some(b"abcd".as_slice()))
    );
    Ok(())
}

// Its calls are interrupted, give a byte, fail, and then are at the end.
#[derive(Drop)]
struct Drip(u32);

impl Read for Drip {
    fn read(&mut self, buf: &mut [u8]) -> io::Result<usize> {
        self.0 = self.0.saturating_add(1);
        match self.0 {
            1 => Err(ErrorKind::Interrupted.into()),
            2 => {
                if let [first, ..] = buf {
                    *first = 7;
                    return Ok(1);
                }
                Ok(0)
            }
            3 => Err(ErrorKind::Other.into()),
            _ => Ok(0),
        }
    }
}

#[test]
fn failed_read_is_counted(rt: HostRuntime) {
    let mut source = StandardSource::new(Drip(0));
    let mut piece = [0; 3];
    let answers = [
        read_piece(&mut source, &mut piece),
        read_piece(&mut source, &mut piece),
        read_piece(&mut source, &mut piece),
    ];
    assert_eq!(rt; answers, [Ok(1), Err(Failed), Ok(0)]);
    assert_eq!(rt; (piece, source.faults()), ([7, 0, 0], 1));
}
