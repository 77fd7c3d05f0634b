// Dates as text, four, two and two digits: 2026-06-28.
ghost use Rattle.std.specs.Prelude.{◌≡◌, ◌+◌, ◌-◌, ◌*◌, ◌<◌, ◌&&◌, is_some, IfSome, Some};
ghost use Rattle.calendar.specs.DateText.{is_digit, date_text, date_from, ReadBack, ReadOnly};

use crate::dates::{Date, is_date};
use std::fmt;

impl fmt::Display for Date {
    ghost output = { λ x. Some (date_text x) };

    fn fmt<W: fmt::Write>(&self, f: &mut fmt::Formatter<W>) -> fmt::Result {
        let Date { year, month, day } = *self;
        write!(f, "{year:04}-{month:02}-{day:02}")
    }
}

// The number that two digits write.
fn two_digits(tens: u8, ones: u8) -> Option<u32>
    ensures digits { is_some result ≡ (is_digit tens && is_digit ones) }
    ensures value { IfSome result (λ n. n ≡ (tens - 48) * 10 + (ones - 48)) }
    ensures small { IfSome result (λ n. n < 100) }
{
    let tens = char::from(tens).to_digit(10)?;
    let ones = char::from(ones).to_digit(10)?;
    Some(tens * 10 + ones)
}

// Reads just what is written of a date that exists.
#[tactic(auto, using(crate::proofs::Reading::of_texts))]
pub fn parse_date(text: &str) -> Option<Date>
    ensures value { result ≡ date_from text.now }
    ensures back { ReadBack }
    ensures only { ReadOnly }
{
    let &[y0, y1, y2, y3, b'-', m0, m1, b'-', d0, d1] = text.as_bytes() else {
        return None;
    };
    let date = Date {
        year: two_digits(y0, y1)? * 100 + two_digits(y2, y3)?,
        month: two_digits(m0, m1)?,
        day: two_digits(d0, d1)?,
    };
    is_date(date).then_some(date)
}
