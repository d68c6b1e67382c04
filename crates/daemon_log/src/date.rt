//! Dates of moments, in UTC.

ghost use Rattle.std.specs.Prelude.{◌<◌, ◌≤◌};

/// The days in 400, 100 and 4 years, and in a year that is no leap year.
const DAYS_400: u64 = 146_097;

const DAYS_100: u64 = 36_524;

const DAYS_4: u64 = 1_461;

const DAYS_1: u64 = 365;

/// The days before each month, in a year that is no leap year.
const BEFORE: [u64; 12] = [0, 31, 59, 90, 120, 151, 181, 212, 243, 273, 304, 334];

/// A second of the calendar.
#[derive(Clone, Copy, Debug, PartialEq, Eq)]
pub struct Date {
    pub year: u64,
    pub month: u64,
    pub day: u64,
    pub hour: u64,
    pub minute: u64,
    pub second: u64,
}

/// The date of a moment in 100 ns since 1 January 1601.
pub fn date_of(moment: u64) -> Date {
    let seconds = moment / 10_000_000;
    let days = seconds / 86_400;
    let within = seconds % 86_400;
    // 1601 is the first year of a round of 400 years: its last is the leap year.
    let rounds = days / DAYS_400;
    let left = days % DAYS_400;
    let hundreds = (left / DAYS_100).min(3);
    let left = left - hundreds * DAYS_100;
    let fours = left / DAYS_4;
    let left = left % DAYS_4;
    let ones = (left / DAYS_1).min(3);
    let day = left - ones * DAYS_1;
    let leap = ones == 3 && (fours != 24 || hundreds == 3);
    let (month, day) = month_and_day(day, leap);
    Date {
        year: 1601 + 400 * rounds + 100 * hundreds + 4 * fours + ones,
        month,
        day,
        hour: within / 3_600,
        minute: within / 60 % 60,
        second: within % 60,
    }
}

// The month and the day in it, both from 1, of a day of a year from 0.
fn month_and_day(day: u64, leap: bool) -> (u64, u64)
    requires { day < 366 }
{
    let mut month = 12u64;
    for before in BEFORE.iter().rev() {
        let before = days_before(*before, leap);
        if before <= day {
            return (month, day - before + 1);
        }
        month = month.saturating_sub(1);
    }
    (1, day + 1)
}

// The days before a month with so many before it in another year.
fn days_before(before: u64, leap: bool) -> u64 {
    if leap && 59 <= before {
        before.saturating_add(1)
    } else {
        before
    }
}
