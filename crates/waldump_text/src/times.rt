ghost use Rattle.std.specs.Prelude.{◌≡◌, ◌+◌, ◌*◌, ◌/◌, ◌%◌, ◌<◌, ◌≤◌, ◌++◌, length};
ghost use Rattle.waldump_text.specs.Calendar.{dated_days, days_after, first_day};
ghost use Rattle.waldump_text.specs.TimeText.{date_text, day_length, day_text, microseconds_text, time_of_day_text, time_text};
ghost use Rattle.waldump_text.specs.declared.times.TheConstants.{ROOM};

use crate::calendar::{Day, day_of};
use crate::time_digits::{four_digits, six_digits, two_digits};
use itoa::Buffer;
use std::marker::Model;

// The first and the last microsecond that have a date, counted from 2000-01-01: those of the years
// 1 to 9998.
const FIRST: i64 = -63_082_281_600_000_000;

const LAST: i64 = 252_424_079_999_999_999;

// The microseconds of a day.
const DAY_LENGTH: u64 = 86_400_000_000;

// As many bytes as a date's text has; a number's has fewer.
const ROOM: usize = 34;

/// The text of a commit's time, seen by contracts as its bytes: at most 34 of them, in ASCII.
#[derive(Clone, Debug, Drop)]
pub struct TimeText {
    bytes: [u8; ROOM],
    used: usize,
}

impl Model for TimeText {
    ghost use Rattle.std.specs.Prelude.{ℕ, ◌≤◌, List, take};
    ghost use Rattle.waldump_text.specs.declared.times.TheConstants.{ROOM};

    ghost Value = { List ℕ };

    ghost view = { λ text. take text.used text.bytes };

    ghost invariant = { λ text. text.used ≤ ROOM };
}

impl TimeText {
    ghost use Rattle.std.specs.Prelude.{◌≡◌, ◌+◌, ◌≤◌, [], ◌++◌, length};

    fn new() -> TimeText
        ensures { result ≡ [] }
    {
        TimeText {
            bytes: [b' '; ROOM],
            used: 0,
        }
    }

    pub fn as_bytes(&self) -> &[u8]
        ensures text { result.now ≡ self.now }
        ensures short { length result.now ≤ ROOM }
    {
        &self.bytes[..self.used]
    }

    fn push(&mut self, piece: &[u8])
        requires { length self.old + length piece.now ≤ ROOM }
        ensures text { self.new ≡ self.old ++ piece.now }
        ensures length { length self.new ≡ length self.old + length piece.now }
    {
        let end = self.used + piece.len();
        self.bytes[self.used..end].copy_from_slice(piece);
        self.used = end;
    }
}

/// What a commit's time says: the date and the time of day in UTC where the year has a number from
/// 1 to 9998, else the number itself. The time is in microseconds since 2000-01-01 (PostgreSQL's
/// TimestampTz, datatype/timestamp.h).
pub fn time_text(time: i64) -> TimeText
    ensures { result ≡ time_text time }
{
    if FIRST <= time && time <= LAST {
        date_text((time - FIRST) as u64)
    } else {
        microseconds_text(time)
    }
}

fn microseconds_text(time: i64) -> TimeText
    ensures { result ≡ microseconds_text time }
{
    let mut text = TimeText::new();
    let mut buffer = Buffer::new();
    text.push(b" at ");
    text.push(buffer.format(time).as_bytes());
    text.push(b" us");
    text
}

// The text of a date and a time of day, by the microseconds since 0001-01-01.
fn date_text(since: u64) -> TimeText
    requires { since < dated_days * day_length }
    ensures { result ≡ date_text (days_after (since / day_length) first_day)
        (since % day_length) }
{
    let mut text = TimeText::new();
    text.push(b" at ");
    push_day(&mut text, day_of((since / DAY_LENGTH) as u32));
    text.push(b" ");
    push_time_of_day(&mut text, since % DAY_LENGTH);
    text.push(b" UTC");
    text
}

fn push_day(text: &mut TimeText, day: Day)
    requires year { day.year ≤ 9999 }
    requires month { day.month ≤ 12 }
    requires day_of_month { day.day ≤ 31 }
    requires room { length text.old + 10 ≤ ROOM }
    ensures text { text.new ≡ text.old ++ day_text day }
    ensures length { length text.new ≡ length text.old + 10 }
{
    text.push(&four_digits(day.year));
    text.push(b"-");
    text.push(&two_digits(day.month));
    text.push(b"-");
    text.push(&two_digits(day.day));
}

// The time of day by the microseconds since midnight.
fn push_time_of_day(text: &mut TimeText, since: u64)
    requires within { since < day_length }
    requires room { length text.old + 15 ≤ ROOM }
    ensures text { text.new ≡ text.old ++ time_of_day_text since }
    ensures length { length text.new ≡ length text.old + 15 }
{
    text.push(&two_digits((since / 3_600_000_000) as u8));
    text.push(b":");
    text.push(&two_digits((since / 60_000_000 % 60) as u8));
    text.push(b":");
    text.push(&two_digits((since / 1_000_000 % 60) as u8));
    text.push(b".");
    text.push(&six_digits((since % 1_000_000) as u32));
}
