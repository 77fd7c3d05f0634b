// The sums that a rulebook is asked about, and what a resource contributes to an order.
ghost use Rattle.std.specs.Prelude.{◌≡◌, ℕ, ◌<◌, ℤ};
ghost use Rattle.ledger.specs.Words.{at as quarter_of, worth, toward as toward_of, lead, ordered, total, total_of};
ghost use Rattle.rulebooks.specs.Rules.{answered};
ghost use Rattle.ledger.specs.Settling.{ruled_at, direction_number};
ghost use Rattle.settling.specs.History.{Near, NearOf, summed_in, quarter_with};

use crate::context::OrderContext;
use crate::history_day::History;
use crate::numbered::NumberedResource;
use ledger::fault::BookFault;
use ledger::records::Direction;
use metering::curve::Curve;
use metering::reading::Reading;
use rulebooks::{Question, Rulebook};

// What a resource is settled by where its history settles it: the day's curve, the history days, the lead sums of both.
#[derive(Clone, Copy)]
pub(crate) struct Measured<'a> {
    pub one: NumberedResource,
    pub today: &'a Curve,
    pub history: &'a History,
    pub lead_now: i64,
    pub lead_then: i64,
}

fn worth_at(curve: &Curve, quarter: u32) -> i64
    ensures value { result ≡ worth (quarter_of curve.now quarter) }
    ensures within { Near 1000000 result }
{
    i64::from(curve.reading(quarter).map_or(0, Reading::counted))
}

// S: a quarter over the history days. A loop, since nothing bounds what an iterator of signed numbers sums to.
// Not one generic sum with `lead_sum`: each caller would have to prove what its iterator yields, for two loops of three lines.
fn sum_over(history: &History, quarter: u32) -> i64
    ensures value { result ≡ summed_in history.now.items quarter }
    ensures within { Near 15000000 result }
{
    let mut sum = 0;
    for day in history.as_slice() {
        sum += worth_at(&day.curve, quarter);
    }
    sum
}

fn toward(direction: Direction, z: i64) -> i64
    requires { Near 11000000 z }
    ensures value { result ≡ toward_of direction z }
    ensures within { Near 11000000 result }
{
    match direction {
        Direction::Up => z,
        Direction::Down => -z,
    }
}

impl<S, R> OrderContext<'_, S, R> {
    // The sum of what each of the eight lead quarters counts; a loop for the same reason.
    fn lead_sum<F: Fn(u32) -> i64>(&self, counted: F) -> i64
        requires callable { F.IsAlwaysCallable counted }
        requires near { (q : ℕ) (z : ℤ) → q < 96 → F.post counted q z → Near 15000000 z }
        ensures value { (of : ℕ → ℤ) → ((q : ℕ) (z : ℤ) → q < 96 → F.post counted q z → z ≡ of q) → result ≡ total of (lead self.now.order) }
        ensures within { Near 120000000 result }
    {
        let mut sum = 0;
        for quarter in self.order.q0 - 8..self.order.q0 {
            sum += counted(quarter);
        }
        sum
    }

    // L: the lead quarters over the history days.
    pub(crate) fn lead_over(&self, history: &History) -> i64
        ensures value { result ≡ total (summed_in history.now.items) (lead self.now.order) }
        ensures within { Near 120000000 result }
    {
        self.lead_sum(|quarter| sum_over(history, quarter))
    }

    // C: the lead quarters on the order's day.
    pub(crate) fn lead_on(&self, curve: &Curve) -> i64
        ensures value { result ≡ total (λ q. worth (quarter_of curve.now q)) (lead self.now.order) }
        ensures within { Near 120000000 result }
    {
        self.lead_sum(|quarter| worth_at(curve, quarter))
    }
}

impl<S, R: Rulebook> OrderContext<'_, S, R> {
    // The baseline of a quarter; a refusal of the rulebook tells the resource and the quarter.
    fn baseline(&self, measured: &Measured, quarter: u32) -> Result<i64, BookFault>
        ensures value { result ≡ ruled_at measured.now.one.number quarter (answered (R.Rulebook.rules self.now.rules.now) measured.now.one.resource.choice (direction_number self.now.order.direction) (summed_in measured.now.history.now.items quarter) measured.now.lead_then measured.now.lead_now) }
        ensures within { NearOf 10000000 result }
    {
        let asked = Question {
            choice: measured.one.resource.choice,
            direction: self.order.direction.into(),
            s: sum_over(measured.history, quarter),
            l: measured.lead_then,
            c: measured.lead_now,
        };
        let resource = measured.one.number;
        self.rules.baseline(asked).map_err(|fault| BookFault::Rule {
            resource,
            quarter,
            fault,
        })
    }

    // One quarter: how far its reading lies from its baseline, in the ordered direction.
    fn quarter_of(&self, measured: &Measured, quarter: u32) -> Result<i64, BookFault>
        ensures value { result ≡ quarter_with (R.Rulebook.rules self.now.rules.now) (summed_in measured.now.history.now.items) self.now.order measured.now.one.number measured.now.one.resource measured.now.today.now measured.now.lead_then measured.now.lead_now quarter }
        ensures within { NearOf 11000000 result }
    {
        let distance = worth_at(measured.today, quarter) - self.baseline(measured, quarter)?;
        Ok(toward(self.order.direction, distance))
    }

    // The quarters of the order; the first that the rulebook refuses ends it: a loop, since its body has a `?`.
    pub(crate) fn contribution(&self, measured: &Measured) -> Result<i64, BookFault>
        ensures value { result ≡ total_of (quarter_with (R.Rulebook.rules self.now.rules.now) (summed_in measured.now.history.now.items) self.now.order measured.now.one.number measured.now.one.resource measured.now.today.now measured.now.lead_then measured.now.lead_now) (ordered self.now.order) }
        ensures within { NearOf 1056000000 result }
    {
        let mut sum = 0;
        for quarter in self.order.q0..self.order.q1 {
            sum += self.quarter_of(measured, quarter)?;
        }
        Ok(sum)
    }
}
