ghost use Rattle.std.specs.Prelude.{◌≡◌, ◌≤◌, All, [], ◌∷◌, length, codes};
ghost use Rattle.std.specs.Fmt.{decimal};
ghost use Rattle.wal_types.specs.LsnText.{lsn_text};
ghost use Rattle.waldump_text.specs.Put.{Puts, joined};
ghost use Rattle.backend_cli.specs.Texts.{told_line, answer_text, cause_text, reserved_text};
ghost use Rattle.run_script.specs.Replay.{most_backends};
ghost use Rattle.backend_cli.specs.Printing.{HasAnswers, found_line, told_lines, told_lines_upward, summary_line};

use run_backends::AnsweredLines;
use run_laws::{KeptTold, Told};
use run_script::Line;
use segment_disk::Sink;
use wal_log::Found;
use wal_types::{Cause, Lsn};
use waldump_text::{SinkFault, put_all};

/// Puts the told line of one line of a script.
pub(crate) fn put_told<O: Sink>(
    out: &mut O,
    backend: u32,
    line: u32,
    told: &KeptTold,
) -> Result<(), SinkFault>
    ensures { Puts (O.taken out.old) (O.taken out.new) (O.faults out.old) (O.faults out.new)
        (told_line backend line told.now) result }
{
    put_answer(out, backend, line, &told.told())
}

// Puts the told line of one line of a script, by what it was told.
fn put_answer<O: Sink>(out: &mut O, backend: u32, line: u32, told: &Told) -> Result<(), SinkFault>
    ensures { Puts (O.taken out.old) (O.taken out.new) (O.faults out.old) (O.faults out.new)
        (told_line backend line told.now) result }
{
    let mut backend_digits = itoa::Buffer::new();
    let mut line_digits = itoa::Buffer::new();
    let backend = backend_digits.format(backend).as_bytes();
    let line = line_digits.format(line).as_bytes();
    match told {
        Told::Wrote { start, end } => put_places(out, backend, line, b" wrote ", *start, *end),
        Told::Hard { start, end, moment } => put_hard(out, backend, line, *start, *end, *moment),
        Told::Flushed { upto, moment } => put_flushed(out, backend, line, *upto, *moment),
        Told::Async { start, end } => put_places(out, backend, line, b" async ", *start, *end),
        Told::Idle { upto } => put_address(out, backend, line, b" idle ", *upto),
        Told::Switched { start, end } => {
            put_places(out, backend, line, b" switched ", *start, *end)
        }
        Told::Stayed { end } => put_address(out, backend, line, b" stayed ", *end),
        Told::Refused { cause, reserved } => put_refused(out, backend, line, cause, reserved),
    }
}

// The told line of a record that was written, behind the numbers of its backend and line: where it
// starts and ends, behind the word that is told of it.
fn put_places<'a, O: Sink>(
    out: &mut O,
    backend: &'a [u8],
    line: &'a [u8],
    word: &'a [u8],
    start: Lsn,
    end: Lsn,
) -> Result<(), SinkFault>
    ensures { Puts (O.taken out.old) (O.taken out.new) (O.faults out.old) (O.faults out.new)
        (joined (backend.now ∷ codes " " ∷ line.now ∷ word.now ∷ lsn_text start.0 ∷ codes " " ∷
        lsn_text end.0 ∷ codes "\n" ∷ [])) result }
{
    put_all(
        out,
        &[
            backend,
            b" ",
            line,
            word,
            start.text().as_bytes(),
            b" ",
            end.text().as_bytes(),
            b"\n",
        ],
    )
}

// The told line of a record that is durable, behind the numbers of its backend and line: where it
// starts and ends, and the moment.
fn put_hard<'a, O: Sink>(
    out: &mut O,
    backend: &'a [u8],
    line: &'a [u8],
    start: Lsn,
    end: Lsn,
    moment: u64,
) -> Result<(), SinkFault>
    ensures { Puts (O.taken out.old) (O.taken out.new) (O.faults out.old) (O.faults out.new)
        (joined (backend.now ∷ codes " " ∷ line.now ∷
        answer_text (Told.Hard start end moment))) result }
{
    let mut digits = itoa::Buffer::new();
    put_all(
        out,
        &[
            backend,
            b" ",
            line,
            b" hard ",
            start.text().as_bytes(),
            b" ",
            end.text().as_bytes(),
            b" ",
            digits.format(moment).as_bytes(),
            b"\n",
        ],
    )
}

// The told line of a flush: the address below which all is durable, and the moment.
fn put_flushed<'a, O: Sink>(
    out: &mut O,
    backend: &'a [u8],
    line: &'a [u8],
    upto: Lsn,
    moment: u64,
) -> Result<(), SinkFault>
    ensures { Puts (O.taken out.old) (O.taken out.new) (O.faults out.old) (O.faults out.new)
        (joined (backend.now ∷ codes " " ∷ line.now ∷
        answer_text (Told.Flushed upto moment))) result }
{
    let mut digits = itoa::Buffer::new();
    put_all(
        out,
        &[
            backend,
            b" ",
            line,
            b" flushed ",
            upto.text().as_bytes(),
            b" ",
            digits.format(moment).as_bytes(),
            b"\n",
        ],
    )
}

// The told line of a line that did nothing: an address, behind the word that is told of it.
fn put_address<'a, O: Sink>(
    out: &mut O,
    backend: &'a [u8],
    line: &'a [u8],
    word: &'a [u8],
    address: Lsn,
) -> Result<(), SinkFault>
    ensures { Puts (O.taken out.old) (O.taken out.new) (O.faults out.old) (O.faults out.new)
        (joined (backend.now ∷ codes " " ∷ line.now ∷ word.now ∷ lsn_text address.0 ∷ codes "\n" ∷
        [])) result }
{
    put_all(
        out,
        &[backend, b" ", line, word, address.text().as_bytes(), b"\n"],
    )
}

// The told line of a line that was refused, by its cause.
fn put_refused<'a, O: Sink>(
    out: &mut O,
    backend: &'a [u8],
    line: &'a [u8],
    cause: &Cause,
    reserved: &Option<Lsn>,
) -> Result<(), SinkFault>
    ensures { Puts (O.taken out.old) (O.taken out.new) (O.faults out.old) (O.faults out.new)
        (joined (backend.now ∷ codes " " ∷ line.now ∷ cause_text cause.now reserved.now)) result }
{
    let mut digits = itoa::Buffer::new();
    match cause {
        Cause::Full { free } => put_all(
            out,
            &[
                backend,
                b" ",
                line,
                b" full ",
                digits.format(*free).as_bytes(),
                b"\n",
            ],
        ),
        Cause::Disk { faults } => put_fault(out, backend, line, b" disk ", *faults, reserved),
        Cause::Down { faults } => put_fault(out, backend, line, b" down ", *faults, reserved),
    }
}

// The told line of a line that a fault of the disk refused, with the start that was reserved
// nevertheless, if one was.
fn put_fault<'a, O: Sink>(
    out: &mut O,
    backend: &'a [u8],
    line: &'a [u8],
    word: &'a [u8],
    faults: u64,
    reserved: &Option<Lsn>,
) -> Result<(), SinkFault>
    ensures { Puts (O.taken out.old) (O.taken out.new) (O.faults out.old) (O.faults out.new)
        (joined (backend.now ∷ codes " " ∷ line.now ∷ word.now ∷ decimal faults ∷
        reserved_text reserved.now)) result }
{
    let mut digits = itoa::Buffer::new();
    let faults = digits.format(faults).as_bytes();
    match reserved {
        None => put_all(out, &[backend, b" ", line, word, faults, b"\n"]),
        Some(start) => put_all(
            out,
            &[
                backend,
                b" ",
                line,
                word,
                faults,
                b" reserved ",
                start.text().as_bytes(),
                b"\n",
            ],
        ),
    }
}

/// Puts the told lines of a backend's lines, in order.
pub(crate) fn put_told_lines<O: Sink>(
    out: &mut O,
    backend: u32,
    lines: &[Line],
    told: &[KeptTold],
) -> Result<(), SinkFault>
    requires { length lines.now ≡ length told.now }
    ensures { Puts (O.taken out.old) (O.taken out.new) (O.faults out.old) (O.faults out.new)
        (told_lines backend lines.now told.now) result }
{
    for (line, answer) in lines.iter().zip(told) {
        put_told(out, backend, line.number, answer)?;
    }
    Ok(())
}

/// Puts the told lines of all backends, in order.
pub(crate) fn put_told_lists<O: Sink>(
    out: &mut O,
    backends: &[AnsweredLines],
) -> Result<(), SinkFault>
    requires answered { All HasAnswers backends.now }
    requires few { length backends.now ≤ most_backends }
    ensures { Puts (O.taken out.old) (O.taken out.new) (O.faults out.old) (O.faults out.new)
        (told_lines_upward 0 backends.now) result }
{
    for (number, backend) in backends.iter().enumerate() {
        put_told_lines(out, number as u32, &backend.lines, &backend.told)?;
    }
    Ok(())
}

/// Puts what was found of a log.
pub(crate) fn put_found<O: Sink>(out: &mut O, found: Found) -> Result<(), SinkFault>
    ensures { Puts (O.taken out.old) (O.taken out.new) (O.faults out.old) (O.faults out.new)
        (found_line found) result }
{
    let mut count = itoa::Buffer::new();
    put_all(
        out,
        &[
            b"found ",
            count.format(found.count).as_bytes(),
            b" end ",
            found.end.text().as_bytes(),
            b"\n",
        ],
    )
}

/// What a summary says.
#[derive(Clone, Copy)]
pub(crate) struct Summary {
    pub records: u64,
    pub commits: u64,
    pub bytes: u64,
    pub end: Lsn,
    pub segments: u64,
}

impl Summary {
    pub(crate) fn put<O: Sink>(&self, out: &mut O) -> Result<(), SinkFault>
        ensures { Puts (O.taken out.old) (O.taken out.new) (O.faults out.old) (O.faults out.new)
            (summary_line self.now) result }
    {
        let mut records = itoa::Buffer::new();
        let mut commits = itoa::Buffer::new();
        let mut bytes = itoa::Buffer::new();
        let mut segments = itoa::Buffer::new();
        put_all(
            out,
            &[
                b"records ",
                records.format(self.records).as_bytes(),
                b" commits ",
                commits.format(self.commits).as_bytes(),
                b" bytes ",
                bytes.format(self.bytes).as_bytes(),
                b" end ",
                self.end.text().as_bytes(),
                b" segments ",
                segments.format(self.segments).as_bytes(),
                b"\n",
            ],
        )
    }
}
