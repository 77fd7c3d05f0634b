// Dates and day numbers, each from the other.
ghost use Rattle.std.specs.Prelude.{◌≡◌};
ghost use Rattle.calendar.specs.Gregorian.{is_day, is_date, day_of, date_of};
ghost use Rattle.calendar.specs.Laws.{DayByDay, Undo, EveryDay, EveryDate};

use crate::months::{FIRST_YEAR, Month};

#[derive(Clone, Copy, PartialEq, Eq, Debug)]
pub struct Date {
    pub year: u32,
    pub month: u32,
    pub day: u32,
}

const LAST_DAY: u32 = 36_524;

pub fn is_day(day: u32) -> bool
    ensures { result ≡ is_day day }
{
    day <= LAST_DAY
}

pub(crate) fn is_date(date: Date) -> bool
    ensures { result ≡ is_date date }
{
    day_of(date).is_some()
}

#[tactic(auto, using(crate::proofs::Promises::of_days), unfolding(crate::specs::Gregorian::day_number))]
pub fn day_of(date: Date) -> Option<u32>
    ensures value { result ≡ day_of date }
    ensures undo { Undo }
    ensures every { EveryDate }
{
    let month = Month::new(date.year, date.month)?;
    if !(1..=month.length()).contains(&date.day) {
        return None;
    }
    Some(month.first_day() + (date.day - 1))
}

#[tactic(auto, using(crate::proofs::Promises::of_dates))]
pub fn date_of(day: u32) -> Option<Date>
    ensures value { result ≡ date_of day }
    ensures days { DayByDay }
    ensures undo { Undo }
    ensures every { EveryDay }
{
    if !is_day(day) {
        return None;
    }
    // A year has at most 366 days, so the day is in this month or in one of the next.
    let mut month = Month {
        year: FIRST_YEAR + day / 366,
        month: 1,
    };
    let mut first = month.first_day();
    let mut after = first + month.length();
    while after <= day {
        month = month.next();
        first = after;
        after += month.length();
    }
    Some(Date {
        year: month.year,
        month: month.month,
        day: day - first + 1,
    })
}
