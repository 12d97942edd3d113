//! Dates and times of day.
use crate::parts::{header_of, integer};
use crate::shows::Labels;
use cbor_diag::whole_part;
use ciborium_ll::Header;
use std::fmt;

/// The seconds of a day.
const DAY: u64 = 86_400;

/// The days of 400 years.
const ERA: u64 = 146_097;

/// The seconds from the first of March of the year 0 to the first of January 1970, in the calendar
/// of ISO 8601.
const TO_1970: i64 = 62_162_035_200;

/// The last second of the year 9999, counted from 1970 on.
const LAST: i64 = 253_402_300_799;

/// A date and a time of day, in UTC.
#[derive(Debug, Clone, Copy, PartialEq, Eq)]
pub struct Time {
    year: u64,
    /// 1 to 12.
    month: u64,
    /// 1 to 31.
    day: u64,
    /// The seconds since midnight.
    second: u64,
}

impl fmt::Display for Time {
    fn fmt<W: fmt::Write>(&self, f: &mut fmt::Formatter<W>) -> fmt::Result {
        let (year, month, day) = (self.year, self.month, self.day);
        let hour = self.second / 3600;
        let minute = self.second / 60 % 60;
        let second = self.second % 60;
        write!(
            f,
            "{year:04}-{month:02}-{day:02}T{hour:02}:{minute:02}:{second:02}Z"
        )
    }
}

/// The time that a claim is: `exp`, `nbf` or `iat`, a number of seconds from 1970 on (RFC 8392,
/// section 2); a fraction is left out.
pub fn claim_time(labels: Labels, label: Option<i64>, value: &[u8]) -> Option<Time> {
    match (labels, label) {
        (Labels::Claims, Some(4..=6)) => time_of(seconds(value)?),
        _ => None,
    }
}

fn seconds(value: &[u8]) -> Option<i64> {
    match header_of(value) {
        Some(Header::Float(float)) => i64::try_from(whole_part(float)?).ok(),
        _ => integer(value),
    }
}

/// The time so many seconds after 1970 begins; none before March of the year 0 and after the year
/// 9999.
fn time_of(seconds: i64) -> Option<Time> {
    if seconds > LAST {
        return None;
    }
    let total = seconds.checked_add(TO_1970)?;
    match u64::try_from(total) {
        Ok(total) => Some(time_after(total)),
        Err(_) => None,
    }
}

/// The time so many seconds after the first of March of the year 0. Years begin with March here, so
/// that a leap day is the last one.
fn time_after(total: u64) -> Time {
    let days = total / DAY;
    let day_of_era = days % ERA;
    let year_of_era = year_of_era(day_of_era);
    let day_of_year = day_of_era.saturating_sub(days_before(year_of_era));
    let month_of_year = day_of_year.wrapping_mul(5).wrapping_add(2) / 153;
    let days_of_months = month_of_year.wrapping_mul(153).wrapping_add(2) / 5;
    let year = (days / ERA).wrapping_mul(400).wrapping_add(year_of_era);
    let is_next_year = month_of_year >= 10;
    Time {
        year: year.wrapping_add(u64::from(is_next_year)),
        month: if is_next_year {
            month_of_year.saturating_sub(9)
        } else {
            month_of_year.wrapping_add(3)
        },
        day: day_of_year.saturating_sub(days_of_months).wrapping_add(1),
        second: total % DAY,
    }
}

/// Which of 400 years this day is in.
fn year_of_era(day: u64) -> u64 {
    let days = day
        .saturating_sub(day / 1460)
        .wrapping_add(day / 36_524)
        .saturating_sub(day / 146_096);
    days / 365
}

/// How many days are before a year of 400 years.
fn days_before(year: u64) -> u64 {
    year.wrapping_mul(365)
        .wrapping_add(year / 4)
        .saturating_sub(year / 100)
}
