// The figures of a month.
ghost use Rattle.std.specs.Prelude.{◌≡◌, ℕ, ◌^◌, ◌<◌, ◌≤◌, pos, if◌then◌else◌};
ghost use Rattle.rulebooks.specs.Rounding.{rounded as rounded_of};
ghost use Rattle.ledger.specs.Words.{tally};
ghost use Rattle.ledger.specs.Days.{is_declared, in_kinds};
ghost use Rattle.ledger.specs.Settling.{positive};
ghost use Rattle.ledger.specs.Standing.{is_modest, are_modest};
ghost use Rattle.ledger.specs.Book.{window_of, days_of, percent as percent_of};
ghost use Rattle.monthly.specs.Monthly.{sums_in, plus as plus_of, of_one, Within, WithinOk, Kept, figures_from, month_in};

use crate::days::MonthDays;
use ledger::days::in_kinds;
use ledger::fault::BookFault;
use ledger::records::{Booked, Declaration, Month, Outcome};
use ledger::terms::Terms;
use rulebooks::round_div;

// The most energy of an order that a month takes, in Wh.
const MOST: u64 = 70_000_000_000;

// A quotient, rounded.
fn quotient(num: u64, den: u64) -> u64
    requires num { num ≤ 1_000_000_000_000_000_000 }
    requires some { 1 ≤ den }
    requires den { den ≤ 1_000_000_000_000_000_000 }
    ensures value { result ≡ positive (rounded_of (pos num) (pos den)) }
    ensures size { result < 2 ^ 63 }
{
    round_div(num as i64, den as i64).map_or(0, |z| z.max(0) as u64)
}

// Part of whole, in hundredths of a percent; all of nothing is 100 percent.
pub(crate) fn percent(part: u64, whole: u64) -> u64
    requires part { part ≤ 100_000_000_000_000 }
    requires whole { whole ≤ 1_000_000_000_000_000_000 }
    ensures { result ≡ percent_of part whole }
{
    if whole == 0 {
        return 10_000;
    }
    quotient(10_000 * part, whole)
}

fn is_declared(declarations: &[Declaration], day: u32, quarter: u32) -> bool
    ensures { result ≡ is_declared declarations.now day quarter }
{
    declarations
        .iter()
        .any(|x| x.day == day && (x.q0..x.q1).contains(&quarter))
}

// The quarters of the window that a day has left.
fn offered_on(terms: &Terms, declarations: &[Declaration], day: u32) -> u32
    ensures count { result ≡ tally (λ q. (if is_declared declarations.now day q then 0 else 1)) (window_of terms.now) }
    ensures most { result ≤ 96 }
{
    (terms.w0..terms.w1)
        .filter(|&quarter| !is_declared(declarations, day, quarter))
        .count() as u32
}

// The quarters of those days of a month that have the terms' kinds, each day with as many as `on_day` answers.
fn quarters_in<F: Fn(u32) -> u32>(terms: &Terms, days: MonthDays, on_day: F) -> u32
    requires callable { F.IsAlwaysCallable on_day }
    requires few { (day quarters : ℕ) → F.post on_day day quarters → quarters ≤ 96 }
    ensures count { (count : ℕ → ℕ) → ((day quarters : ℕ) → F.post on_day day quarters → quarters ≡ count day)
        → result ≡ tally (λ day. (if in_kinds terms.now day then count day else 0)) (days_of days.first days.last) }
    ensures most { result ≤ 2976 }
{
    let mut quarters = 0;
    // At `..=` the last day's step is left to prove once more after the loop.
    for day in days.first..days.last + 1 {
        if in_kinds(terms, day) {
            quarters += on_day(day);
        }
    }
    quarters
}

// What the orders of a month sum to, in Wh.
#[derive(Clone, Copy, Default)]
pub(crate) struct Sums {
    pub(crate) eda: u64,
    pub(crate) pta: u64,
    pub(crate) seta: u64,
    pub(crate) paid: u64,
}

impl Sums {
    fn with(self, outcome: Outcome) -> Sums
        requires sums { Within 127 self }
        requires outcome { Within 1 (of_one outcome) }
        ensures { result ≡ plus_of self (of_one outcome) }
    {
        Sums {
            eda: self.eda + outcome.eda,
            pta: self.pta + outcome.pta,
            seta: self.seta + outcome.seta,
            paid: self.paid + outcome.paid,
        }
    }
}

// Stops at the first order of these days that is not settled.
fn sums_in(orders: &[Booked], days: MonthDays) -> Result<Sums, BookFault>
    requires { Kept orders.now }
    ensures value { result ≡ sums_in days.first days.last orders.now }
    ensures size { WithinOk result }
{
    let mut sums = Sums::default();
    for (i, booked) in orders.iter().enumerate() {
        if days.contains(booked.order.day) {
            let outcome = booked
                .result
                .ok_or(BookFault::Unsettled { order: i as u32 })?;
            sums = sums.with(outcome);
        }
    }
    Ok(sums)
}

fn figures(terms: &Terms, av: u32, di: u32, sums: Sums) -> Month
    requires di { di ≤ 2976 }
    requires sums { Within 128 sums }
    ensures { result ≡ figures_from terms.now av di sums }
{
    let apm = quotient(
        u64::from(di) * u64::from(terms.qc) * u64::from(terms.af),
        400,
    );
    let upm = quotient(sums.paid * u64::from(terms.uf), 100_000);
    Month {
        av,
        di,
        edm: sums.eda,
        ptm: sums.pta,
        setm: sums.seta,
        dpm: percent(sums.pta, sums.eda),
        apm,
        upm,
        pay: apm + upm,
    }
}

fn is_modest(res: Option<Outcome>) -> bool
    ensures { result ≡ is_modest res }
{
    res.is_none_or(|x| x.eda <= MOST && x.pta <= MOST && x.seta <= MOST && x.paid <= MOST)
}

fn are_modest(orders: &[Booked]) -> bool
    ensures { result ≡ are_modest orders.now }
{
    orders.iter().all(|booked| is_modest(booked.result))
}

// Refused with 14 where no book has such orders.
pub fn month_in(
    terms: &Terms,
    orders: &[Booked],
    declarations: &[Declaration],
    year: u32,
    month: u32,
) -> Result<Month, BookFault>
    ensures { result ≡ month_in terms.now orders.now declarations.now year month }
{
    if orders.len() > 128 || !are_modest(orders) {
        return Err(BookFault::Number);
    }
    let days = MonthDays::of(year, month).ok_or(BookFault::NoMonth)?;
    let sums = sums_in(orders, days)?;
    let av = quarters_in(terms, days, |_| terms.w1 - terms.w0);
    let di = quarters_in(terms, days, |day| offered_on(terms, declarations, day));
    Ok(figures(terms, av, di, sums))
}
