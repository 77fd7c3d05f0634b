// The days of a month.
ghost use Rattle.std.specs.Prelude.{◌+◌, ◌≤◌};

use calendar::{first_day, last_day};

#[derive(Clone, Copy)]
pub(crate) struct MonthDays {
    pub(crate) first: u32,
    pub(crate) last: u32,
    ghost in_turn: { first ≤ last },
    ghost few: { last ≤ first + 30 },
    ghost known: { last ≤ 36524 },
}

impl MonthDays {
    ghost use Rattle.std.specs.Prelude.{◌≡◌};
    ghost use Rattle.ledger.specs.Book.{in_month};
    ghost use Rattle.monthly.specs.Days.{AreDaysOf};

    pub(crate) fn of(year: u32, month: u32) -> Option<MonthDays>
        ensures { AreDaysOf year month result }
    {
        let first = first_day(year, month)?;
        let last = last_day(year, month)?;
        Some(MonthDays { first, last })
    }

    pub(crate) fn contains(self, day: u32) -> bool
        ensures { result ≡ in_month self.first self.last day }
    {
        (self.first..=self.last).contains(&day)
    }
}
