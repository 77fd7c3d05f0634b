// Day numbers and dates of the years 2000 to 2099: day 0 is Saturday 1 January 2000, day 36,524 is 31 December 2099.
#![tactic(auto)]

mod dates;
mod months;
mod text;
mod weekdays;

pub use dates::{Date, date_of, day_of, is_day};
pub use months::{first_day, last_day};
pub use text::parse_date;
pub use weekdays::{DayKind, weekday_kind};
