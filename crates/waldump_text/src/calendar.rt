ghost use Rattle.std.specs.Prelude.{◌≡◌, ◌<◌, ◌≤◌};
ghost use Rattle.waldump_text.specs.Calendar.{dated_days, days_after, first_day};

use jiff_core::civil::Date;

/// A day of the Gregorian calendar: a year from 1 on, a month from 1 on, and a day of that month,
/// from 1 on.
#[derive(Clone, Copy, Debug, PartialEq, Eq)]
pub struct Day {
    pub year: u16,
    pub month: u8,
    pub day: u8,
}

// How many days lie between the first date that `jiff_core` has, -9999-01-01, and 0001-01-01.
const DAYS_BEFORE_YEAR_1: u32 = 3_652_425;

/// The day that lies so many days after 1 January of the year 1, up to the end of the year 9998.
pub(crate) fn day_of(days: u32) -> Day
    requires { days < dated_days }
    ensures day { result ≡ days_after days first_day }
    ensures year { result.year ≤ 9999 }
    ensures month { result.month ≤ 12 }
    ensures day_of_month { result.day ≤ 31 }
{
    let date = Date::from_days_since_min(days + DAYS_BEFORE_YEAR_1);
    Day {
        year: date.year as u16,
        month: date.month,
        day: date.day,
    }
}
