//! Times as they are printed.

ghost use Rattle.std.specs.Prelude.{◌≡◌, ◌<◌, ◌≤◌, ◌++◌, pos, OnOk};
ghost use Rattle.osm_text.specs.Dates.{day_number, two_digits, three_digits, four_digits, day_text, clock_text, utc_text, time_text};
ghost use Rattle.jiff.specs.Words.{epoch_day};

use crate::number::put_signed;
use jiff::civil::Date;
use jiff::{ToSpan, civil};
use std::alloc::AllocError;

/// The last millisecond that is printed as a date: the last one of the year 2099.
const LAST_DATED: i128 = 4_102_444_799_999;

/// The milliseconds of a day.
const DAY: u64 = 86_400_000;

/// Appends a number below 100 in two digits.
fn put_two_digits(out: &mut Vec<u8>, number: u64) -> Result<(), AllocError>
    requires { number < 100 }
    ensures { OnOk result (out.new.items ≡ out.old.items ++ two_digits number) }
{
    out.extend_from_slice(&[b'0' + (number / 10) as u8, b'0' + (number % 10) as u8])?;
    Ok(())
}

/// Appends a number below 1,000 in three digits.
fn put_three_digits(out: &mut Vec<u8>, number: u64) -> Result<(), AllocError>
    requires { number < 1000 }
    ensures { OnOk result (out.new.items ≡ out.old.items ++ three_digits number) }
{
    out.push(b'0' + (number / 100) as u8)?;
    put_two_digits(out, number % 100)
}

/// Appends a number below 10,000 in four digits.
fn put_four_digits(out: &mut Vec<u8>, number: u64) -> Result<(), AllocError>
    requires { number < 10000 }
    ensures { OnOk result (out.new.items ≡ out.old.items ++ four_digits number) }
{
    put_two_digits(out, number / 100)?;
    put_two_digits(out, number % 100)
}

/// A day of the calendar.
#[derive(Clone, Copy)]
struct Day {
    year: u64,
    month: u64,
    day: u64,
}

/// The date with this day number.
fn date_on(days: u64) -> Date
    requires { days < 47482 }
    ensures { epoch_day result ≡ pos days }
{
    let first = civil::date(1970, 1, 1);
    let Ok(date) = first.checked_add((days as i64).days()) else {
        unreachable!()
    };
    date
}

/// The day that comes so many days after 1970-01-01.
fn day_number(days: u64) -> Day
    requires { days < 47482 }
    ensures day { result ≡ day_number days }
    ensures year { result.year < 10000 }
    ensures month { result.month < 100 }
    ensures day_of_month { result.day < 100 }
{
    let date = date_on(days);
    Day {
        year: date.year() as u64,
        month: date.month() as u64,
        day: date.day() as u64,
    }
}

/// Appends year, month and day.
fn put_day(out: &mut Vec<u8>, day: Day) -> Result<(), AllocError>
    requires year { day.year < 10000 }
    requires month { day.month < 100 }
    requires day_of_month { day.day < 100 }
    ensures { OnOk result (out.new.items ≡ out.old.items ++ day_text day) }
{
    put_four_digits(out, day.year)?;
    out.push(b'-')?;
    put_two_digits(out, day.month)?;
    out.push(b'-')?;
    put_two_digits(out, day.day)
}

/// Appends a time of day, given in milliseconds since midnight.
fn put_clock(out: &mut Vec<u8>, millis: u64) -> Result<(), AllocError>
    requires { millis < 86400000 }
    ensures { OnOk result (out.new.items ≡ out.old.items ++ clock_text millis) }
{
    put_two_digits(out, millis / 3_600_000)?;
    out.push(b':')?;
    put_two_digits(out, millis / 60_000 % 60)?;
    out.push(b':')?;
    put_two_digits(out, millis / 1_000 % 60)?;
    out.push(b'.')?;
    put_three_digits(out, millis % 1_000)
}

/// Appends date and time of day in UTC, given in milliseconds since 1970.
fn put_utc(out: &mut Vec<u8>, millis: u64) -> Result<(), AllocError>
    requires { millis ≤ 4102444799999 }
    ensures { OnOk result (out.new.items ≡ out.old.items ++ utc_text millis) }
{
    put_day(out, day_number(millis / DAY))?;
    out.push(b'T')?;
    put_clock(out, millis % DAY)?;
    out.push(b'Z')?;
    Ok(())
}

/// Appends a time, given in milliseconds since 1970: if dates are wanted and it lies in the years from 1970 to 2099 as
/// date and time of day in UTC, otherwise as the number that it is. The day is the one that comes so many days after 1970-01-01.
/// After an `Err` the output is unspecified.
pub(crate) fn put_time(out: &mut Vec<u8>, millis: i128, dates: bool) -> Result<(), AllocError>
    ensures { OnOk result (out.new.items ≡ out.old.items ++ time_text dates millis) }
{
    if dates && 0 <= millis && millis <= LAST_DATED {
        put_utc(out, millis as u64)
    } else {
        put_signed(out, millis)
    }
}
