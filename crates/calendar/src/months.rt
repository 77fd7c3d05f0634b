// Months: how long they are, and which days they have.
ghost use Rattle.std.specs.Prelude.{◌≡◌, ◌+◌, ◌<◌, true, if◌then◌else◌, is_some, IfSome, Some, None};
ghost use Rattle.calendar.specs.Gregorian.{is_leap, month_length, first_day, last_day, is_month};
ghost use Rattle.calendar.specs.Laws.{MonthDays, MonthsInARow};

pub(crate) const FIRST_YEAR: u32 = 2000;

const LAST_YEAR: u32 = 2099;

fn is_leap(year: u32) -> bool
    ensures { result ≡ is_leap year }
{
    year % 4 == 0 && (year % 100 != 0 || year % 400 == 0)
}

fn month_length(year: u32, month: u32) -> u32
    ensures { result ≡ month_length year month }
{
    match month {
        2 if is_leap(year) => 29,
        2 => 28,
        4 | 6 | 9 | 11 => 30,
        _ => 31,
    }
}

// A month of those years.
#[derive(Clone, Copy)]
pub(crate) struct Month {
    pub(crate) year: u32,
    pub(crate) month: u32,
    ghost known: { is_month year month ≡ true },
}

impl Month {
    pub(crate) fn new(year: u32, month: u32) -> Option<Month>
        ensures known { is_some result ≡ is_month year month }
        ensures same { IfSome result (λ m. (m.year ≡ year) × (m.month ≡ month)) }
    {
        if (FIRST_YEAR..=LAST_YEAR).contains(&year) && (1..=12).contains(&month) {
            Some(Month { year, month })
        } else {
            None
        }
    }

    pub(crate) fn length(self) -> u32
        ensures { result ≡ month_length self.year self.month }
    {
        month_length(self.year, self.month)
    }

    // From the days of the years before it and of the months before it.
    pub(crate) fn first_day(self) -> u32
        ensures value { result ≡ first_day self.year self.month }
        ensures small { result < 100_000 }
    {
        let years = self.year - FIRST_YEAR;
        let mut day = years * 365 + years.div_ceil(4);
        // A loop, since the check found no bound for the `sum` of this range's lengths.
        for earlier in 1..self.month {
            day += month_length(self.year, earlier);
        }
        day
    }

    #[tactic(auto, unfolding(crate::specs::Gregorian::last_day))]
    fn last_day(self) -> u32
        ensures { result ≡ last_day self.year self.month }
    {
        self.first_day() + self.length() - 1
    }

    // The month after it, which December 2099 has not.
    #[tactic(auto, using(crate::proofs::Promises::of_next))]
    pub(crate) fn next(self) -> Month
        requires { last_day self.year self.month < 36524 }
        ensures { first_day result.year result.month ≡ last_day self.year self.month + 1 }
    {
        if self.month < 12 {
            return Month {
                year: self.year,
                month: self.month + 1,
            };
        }
        Month {
            year: self.year + 1,
            month: 1,
        }
    }
}

#[tactic(auto, using(crate::proofs::Promises::months_in_a_row))]
pub fn first_day(year: u32, month: u32) -> Option<u32>
    ensures value { result ≡ (if is_month year month then Some (first_day year month) else None) }
    ensures row { MonthsInARow }
{
    Some(Month::new(year, month)?.first_day())
}

#[tactic(auto, using(crate::proofs::Promises::of_months))]
pub fn last_day(year: u32, month: u32) -> Option<u32>
    ensures value { result ≡ (if is_month year month then Some (last_day year month) else None) }
    ensures row { MonthsInARow }
    ensures days { MonthDays }
{
    Some(Month::new(year, month)?.last_day())
}
