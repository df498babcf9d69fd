ghost use Rattle.std.specs.Prelude.{◌≡◌, ◌+◌, ◌≤◌, ◌++◌, length, replicate};
ghost use Rattle.std.specs.Fmt.{decimal};

use crate::putting::{SinkFault, put};
use itoa::{Buffer, write_digits};
use segment_disk::Sink;
use std::marker::Model;
use wal_types::Lsn;

/// How many bytes are held back at most; a usual line has fewer.
pub(crate) const ROOM: usize = 4096;

/// What of a line has not gone to its sink yet, in room of its own.
#[derive(Drop)]
pub(crate) struct LineBuffer {
    bytes: [u8; ROOM],
    used: usize,
}

impl Model for LineBuffer {
    ghost use Rattle.std.specs.Prelude.{ℕ, ◌≤◌, List, take};
    ghost use Rattle.waldump_text.specs.declared.line_buffer.TheConstants.{ROOM};

    ghost Value = { List ℕ };

    ghost view = { λ buffer. take buffer.used buffer.bytes };

    ghost invariant = { λ buffer. buffer.used ≤ ROOM };
}

impl LineBuffer {
    ghost use Rattle.std.specs.Prelude.{◌≡◌, ◌+◌, ◌-◌, ◌≤◌, [], ◌++◌, length, max, take, OnOk};
    ghost use Rattle.std.specs.Fmt.{decimal};
    ghost use Rattle.wal_types.specs.LsnText.{lsn_text};
    ghost use Rattle.waldump_text.specs.Put.{Puts, PutsBut, padded_left, padded_right};

    pub(crate) fn new() -> LineBuffer
        ensures { result ≡ [] }
    {
        LineBuffer {
            bytes: [b' '; ROOM],
            used: 0,
        }
    }

    fn as_bytes(&self) -> &[u8]
        ensures { result.now ≡ self.now }
    {
        &self.bytes[..self.used]
    }

    pub(crate) fn push(&mut self, text: &[u8])
        requires { length self.old + length text.now ≤ ROOM }
        ensures text { self.new ≡ self.old ++ text.now }
        ensures length { length self.new ≡ length self.old + length text.now }
    {
        let end = self.used + text.len();
        self.bytes[self.used..end].copy_from_slice(text);
        self.used = end;
    }

    /// A text of a length that is known, which is copied without a call. It is taken by value, so
    /// that it can be no part of the buffer, and is not looked at again.
    #[inline(always)]
    pub(crate) fn push_piece<const N: usize>(&mut self, piece: [u8; N])
        requires { length self.old + N ≤ ROOM }
        ensures text { self.new ≡ self.old ++ piece.entry }
        ensures length { length self.new ≡ length self.old + N }
    {
        self.push(&piece);
    }

    /// Takes so many bytes off the back again.
    #[inline(always)]
    pub(crate) fn drop_back(&mut self, count: usize)
        requires { count ≤ length self.old }
        ensures text { self.new ≡ take (length self.old - count) self.old }
        ensures length { length self.new + count ≡ length self.old }
    {
        self.used -= count;
    }

    /// A text and blanks behind it. Sixteen blanks are copied, whatever the text's length, so there
    /// has to be room for them.
    pub(crate) fn push_left_aligned(&mut self, text: &[u8], width: usize)
        requires width { width ≤ 16 }
        requires room { length self.old + length text.now + 16 ≤ ROOM }
        ensures text { self.new ≡ self.old ++ padded_right width text.now }
        ensures length { length self.new ≡ length self.old + max width (length text.now) }
    {
        self.push(text);
        self.push_piece([b' '; 16]);
        self.drop_back(16 - width.saturating_sub(text.len()));
    }

    /// A number in decimal.
    pub(crate) fn push_number(&mut self, n: u32)
        requires { length self.old + 10 ≤ ROOM }
        ensures text { self.new ≡ self.old ++ decimal n }
        ensures length { length self.new ≤ length self.old + 10 }
    {
        let mut buffer = Buffer::new();
        self.push(buffer.format(n).as_bytes());
    }

    /// A sum in decimal.
    pub(crate) fn push_sum(&mut self, n: u128)
        requires { length self.old + 40 ≤ ROOM }
        ensures text { self.new ≡ self.old ++ decimal n }
        ensures length { length self.new ≤ length self.old + 40 }
    {
        let mut buffer = Buffer::new();
        self.push(buffer.format(n).as_bytes());
    }

    /// A number in decimal, behind blanks.
    #[inline(always)]
    pub(crate) fn push_right_aligned(&mut self, n: u32, width: usize)
        requires width { width ≤ 10 }
        requires room { length self.old + 10 ≤ ROOM }
        ensures text { self.new ≡ self.old ++ padded_left width (decimal n) }
        ensures length { length self.new ≤ length self.old + 10 }
    {
        let (text, start) = right_aligned(n);
        // The first is of a length that is known where the width is.
        if start + width >= 16 {
            self.push(&text[16 - width..]);
        } else {
            self.push(&text[start..]);
        }
    }

    pub(crate) fn push_position(&mut self, at: Lsn)
        requires { length self.old + 17 ≤ ROOM }
        ensures text { self.new ≡ self.old ++ lsn_text at.0 }
        ensures length { length self.new ≤ length self.old + 17 }
    {
        let text = at.text();
        // So long is each in a log's first 64 GiB.
        match text.as_bytes().split_first_chunk::<10>() {
            Some((front, [])) => self.push(front),
            _ => self.push(text.as_bytes()),
        }
    }

    /// Lets all that is held back go to the sink.
    pub(crate) fn flush<O: Sink>(&mut self, out: &mut O) -> Result<(), SinkFault>
        ensures put { Puts (O.taken out.old) (O.taken out.new) (O.faults out.old)
            (O.faults out.new) self.old result }
        ensures empty { OnOk result (self.new ≡ []) }
    {
        put(out, self.as_bytes())?;
        self.used = 0;
        Ok(())
    }

    /// Makes room for so many bytes more.
    pub(crate) fn make_room<O: Sink>(&mut self, count: usize, out: &mut O) -> Result<(), SinkFault>
        requires { count ≤ ROOM }
        ensures put { PutsBut (O.taken out.old) (O.taken out.new) (O.faults out.old)
            (O.faults out.new) self.old self.new result }
        ensures room { OnOk result (length self.new + count ≤ ROOM) }
    {
        if ROOM - self.used < count {
            self.flush(out)?;
        }
        Ok(())
    }

    /// A text that may have to wait for room. Inlined, since most callers give a text of a length
    /// that is known, which is then copied without a call.
    #[inline(always)]
    pub(crate) fn append<O: Sink>(&mut self, text: &[u8], out: &mut O) -> Result<(), SinkFault>
        requires { length text.now ≤ ROOM }
        ensures { PutsBut (O.taken out.old) (O.taken out.new) (O.faults out.old) (O.faults out.new)
            (self.old ++ text.now) self.new result }
    {
        self.make_room(text.len(), out)?;
        self.push(text);
        Ok(())
    }
}

// A number in decimal at the end of blanks, and where it starts.
#[inline(never)]
fn right_aligned(n: u32) -> ([u8; 16], usize)
    ensures text { result.0 ≡ replicate result.1 32 ++ decimal n }
    ensures start { result.1 + length (decimal n) ≡ 16 }
    ensures short { length (decimal n) ≤ 10 }
{
    let mut text = [b' '; 16];
    let start = write_digits(u64::from(n), &mut text, 16);
    (text, start)
}
