// The words of a line: numbers, days, quarters of a day and directions.
ghost use Rattle.std.specs.Prelude.{◌≡◌, ◌<◌, IfSome};
ghost use Rattle.std.specs.Option.{ok_or};
ghost use Rattle.lifefile.specs.declared.flaw.Flaw.TheVariants.{Number as NumberFlaw, Day as DayFlaw, Quarter as QuarterFlaw};
ghost use Rattle.lifefile.specs.Words.{number_in, day_in, two_digits_in, in_day, time_in, quarter_in, Directs};

use crate::flaw::Flaw;
use calendar::{day_of, parse_date};

// Digits alone: `parse` would also take a plus sign.
pub(crate) fn number_in(word: &str) -> Option<u32>
    ensures { result ≡ number_in word.now }
{
    if word.starts_with('+') {
        return None;
    }
    word.parse().ok()
}

pub fn number(word: &str) -> Result<u32, Flaw>
    ensures { result ≡ ok_or (number_in word.now) NumberFlaw }
{
    number_in(word).ok_or(Flaw::Number)
}

fn day_in(word: &str) -> Option<u32>
    ensures { result ≡ day_in word.now }
{
    match parse_date(word) {
        Some(date) => day_of(date),
        None => number_in(word),
    }
}

pub fn day(word: &str) -> Result<u32, Flaw>
    ensures { result ≡ ok_or (day_in word.now) DayFlaw }
{
    day_in(word).ok_or(Flaw::Day)
}

// An hour or a minute.
fn two_digits(word: &str) -> Option<u32>
    ensures value { result ≡ two_digits_in word.now }
    ensures small { IfSome result (λ n. n < 100) }
{
    if word.len() == 2 {
        number_in(word)
    } else {
        None
    }
}

// Where a quarter begins; 24:00 ends the last one.
fn is_in_day(hour: u32, minute: u32) -> bool
    requires { (hour < 100) × (minute < 100) }
    ensures { result ≡ in_day hour minute }
{
    minute % 15 == 0 && minute <= 45 && hour * 60 + minute <= 1440
}

fn time_in(word: &str) -> Option<u32>
    ensures { result ≡ time_in word.now }
{
    let (hour, minute) = word.split_once(':')?;
    let hour = two_digits(hour)?;
    let minute = two_digits(minute)?;
    is_in_day(hour, minute).then_some(hour * 4 + minute / 15)
}

pub fn quarter(word: &str) -> Result<u32, Flaw>
    ensures { result ≡ ok_or (quarter_in word.now) QuarterFlaw }
{
    time_in(word)
        .or_else(|| number_in(word))
        .ok_or(Flaw::Quarter)
}

// 0 upward, 1 downward: the library takes a number and refuses the others.
pub fn direction(word: &str) -> Result<u32, Flaw>
    ensures { Directs word.now result }
{
    match word {
        "up" => Ok(0),
        "down" => Ok(1),
        _ => Err(Flaw::Direction),
    }
}
