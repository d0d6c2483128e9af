//! Dates: their form, the calendar, and the day on which a book begins.

use crate::fault::Fault;
use rp_book::Act;

/// Returns whether `word` has the form of a date, as 2026-11-30.
fn has_form(word: &str) -> bool {
    let [y0, y1, y2, y3, b'-', m0, m1, b'-', d0, d1] = word.as_bytes() else {
        return false;
    };
    [y0, y1, y2, y3, m0, m1, d0, d1]
        .iter()
        .all(|byte| byte.is_ascii_digit())
}

/// Reads the year, the month and the day of a word that has the form of a date.
fn numbers_of(word: &str) -> Option<(u32, u32, u32)> {
    let (year, rest) = word.split_once('-')?;
    let (month, day) = rest.split_once('-')?;
    let year = year.parse().ok()?;
    let month = month.parse().ok()?;
    let day = day.parse().ok()?;
    Some((year, month, day))
}

/// Returns whether `year` has a 29 February.
fn is_leap(year: u32) -> bool {
    year % 4 == 0 && (year % 100 != 0 || year % 400 == 0)
}

/// Returns how many days `month` of `year` has: 0 unless `month` is one of 1 to 12.
fn days_of(year: u32, month: u32) -> u32 {
    match month {
        2 if is_leap(year) => 29,
        2 => 28,
        4 | 6 | 9 | 11 => 30,
        1..=12 => 31,
        _ => 0,
    }
}

/// Returns whether the calendar has the day that `word` names.
fn is_in_calendar(word: &str) -> bool {
    match numbers_of(word) {
        Some((year, month, day)) => 1 <= day && day <= days_of(year, month),
        None => false,
    }
}

/// Returns `word`, which is to be a date.
///
/// # Errors
/// `NoDate` if `word` does not have the form of a date; `NoDay` if the calendar does not have the date.
pub fn date_of(word: &str) -> Result<&str, Fault> {
    if !has_form(word) {
        Err(Fault::NoDate)
    } else if !is_in_calendar(word) {
        Err(Fault::NoDay)
    } else {
        Ok(word)
    }
}

/// Returns the day of an act, in UTC.
fn day_of(act: &Act) -> &str {
    let added = act.added.as_str();
    match added.split_once(' ') {
        Some((day, _)) => day,
        None => added,
    }
}

/// Returns whether the day `a` is before the day `b`.
fn is_before(a: &str, b: &str) -> bool {
    a.as_bytes().cmp(b.as_bytes()).is_lt()
}

/// Returns the first day on which one of `acts` was added. A clock that was set back may have put it after later acts.
fn first_day(acts: &[Act]) -> Option<&str> {
    let (first, more) = acts.split_first()?;
    let mut first = day_of(first);
    for act in more {
        if is_before(day_of(act), first) {
            first = day_of(act);
        }
    }
    Some(first)
}

/// Returns the first day of a book with these acts. `None` unless it is after `date`.
pub fn beginning_after<'a>(acts: &'a [Act], date: &str) -> Option<&'a str> {
    let first = first_day(acts)?;
    if is_before(date, first) {
        Some(first)
    } else {
        None
    }
}
