//! The time at the head of a line.

ghost use Rattle.std.specs.Prelude.{pos, ◌%◌, ◌++◌, ◌+◌, ◌∷◌, ◌≡◌, ◌≤◌, []};
ghost use Rattle.jiff_core.specs.Date.{epoch_day};
ghost use Rattle.zq_log.specs.Stamp.{IsStamp, clock_text, date_text};

use jiff_core::civil::Date;

/// The last millisecond since 1970 that has a year of four digits.
const LAST_MILLI: u64 = 253_402_300_799_999;

/// The milliseconds of a day.
const DAY: u64 = 86_400_000;

/// The text of a time.
pub type Stamp = [u8; 24];

/// The text of a time in milliseconds since the beginning of 1970, by RFC 3339 in UTC:
/// `2026-11-28T19:20:35.123Z`. A time past the year 9999 has the text of that year's last one.
pub fn stamp_of(milli: u64) -> Stamp
    ensures { IsStamp milli result }
{
    let milli = milli.min(LAST_MILLI);
    let date = date_of(milli / DAY);
    text_of(date, milli % DAY)
}

/// The date so many days after the first of 1970.
fn date_of(days: u64) -> Date
    requires { days ≤ 2932896 }
    ensures { epoch_day result ≡ pos days }
{
    match Date::from_unix_epoch_day(days as i64) {
        Ok(date) => date,
        Err(_) => unreachable!(),
    }
}

/// The text of a date and a millisecond of it.
fn text_of(date: Date, milli: u64) -> Stamp
    ensures { result ≡ date_text date ++ 84 ∷ clock_text milli ++ 90 ∷ [] }
{
    let Date { year, month, day } = date;
    let year = year.unsigned_abs() as u64;
    let (month, day) = (month as u64, day as u64);
    let (hours, minutes) = (milli / 3_600_000, milli / 60_000 % 60);
    let (seconds, millis) = (milli / 1_000 % 60, milli % 1_000);
    [
        digit(year / 1_000),
        digit(year / 100),
        digit(year / 10),
        digit(year),
        b'-',
        digit(month / 10),
        digit(month),
        b'-',
        digit(day / 10),
        digit(day),
        b'T',
        digit(hours / 10),
        digit(hours),
        b':',
        digit(minutes / 10),
        digit(minutes),
        b':',
        digit(seconds / 10),
        digit(seconds),
        b'.',
        digit(millis / 100),
        digit(millis / 10),
        digit(millis),
        b'Z',
    ]
}

/// The last digit of a number.
fn digit(number: u64) -> u8
    ensures { result ≡ 48 + number % 10 }
{
    b'0' + (number % 10) as u8
}
