// What each resource brings to an order, and what the order settles at.
ghost use Rattle.std.specs.Prelude.{◌≡◌, ◌*◌, ◌≤◌, true, length, IfOk, Some};
ghost use Rattle.ledger.specs.Book.{orders_in, busy_on};
ghost use Rattle.ledger.specs.Settling.{part, parts};
ghost use Rattle.ledger.specs.Standing.{is_placed, is_modest, are_powered};
ghost use Rattle.settling.specs.History.{Near, days_of, summed_in, by_sums};
ghost use Rattle.settling.specs.Sheets.{settled_at, sheet_of, can_settle, order_parts};
ghost use Rattle.settling.specs.Evidence.{power_settled, given, NearSettled};

use crate::context::OrderContext;
use crate::evidence::history_row;
use crate::history_day::History;
use crate::numbered::NumberedResource;
use crate::settled::Settled;
use crate::sums::Measured;
use arrayvec::ArrayVec;
use ledger::fault::BookFault;
use ledger::records::{Booked, Order, Outcome, Resource};
use ledger::terms::Terms;
use metering::curve::Curve;
use rulebooks::Rulebook;
use stores::store::{LAST_DAY, Store};

impl<S: Store, R: Rulebook> OrderContext<'_, S, R> {
    // An estimated resource counts with its available power.
    fn by_power(&self, one: NumberedResource) -> Settled
        ensures value { result ≡ power_settled one.resource self.now.order }
        ensures within { Near 1056000000 result.amount }
    {
        let energy = one.resource.power * (self.order.q1 - self.order.q0) * 250;
        Settled {
            amount: i64::from(energy),
            evidence: None,
        }
    }

    fn by_history(
        &self,
        one: NumberedResource,
        today: &Curve,
        history: &History,
    ) -> Result<Settled, BookFault>
        ensures value { result ≡ given (by_sums (R.Rulebook.rules self.now.rules.now) (summed_in history.now.items) self.now.order one.number one.resource today.now (days_of history.now.items)) }
        ensures within { NearSettled 1056000000 result }
    {
        let lead_now = self.lead_on(today);
        let lead_then = self.lead_over(history);
        let amount = self.contribution(&Measured {
            one,
            today,
            history,
            lead_now,
            lead_then,
        })?;
        Ok(Settled {
            amount,
            evidence: Some(history_row(history, lead_now as i32, lead_then as i32)),
        })
    }

    // By its history, or by its power where a quarter of the day is estimated. The vector is lent and made but once, when the first
    // is asked for, since making one fills it.
    fn settle_one(
        &self,
        one: NumberedResource,
        lent: &mut Option<History>,
    ) -> Result<Settled, BookFault>
        ensures value { result ≡ given (part self.now.terms.now (R.Rulebook.rules self.now.rules.now) ((S.Store.model self.now.store.now).look one.number) (busy_on (orders_in self.now.booked.now)) self.now.order one.number one.resource) }
        ensures within { NearSettled 1056000000 result }
    {
        let day = self.order.day;
        // Read first, since a missing curve is refused before all else; a curve is held exactly if it has a reading.
        let Some(_) = self.store.reading(one.number, day, self.order.q0) else {
            return Err(BookFault::NoCurve {
                resource: one.number,
                day,
            });
        };
        let Some(today) = self.clean_curve(one.number, day) else {
            return Ok(self.by_power(one));
        };
        let history = lent.get_or_insert_with(History::new);
        self.latest(one, history)?;
        self.by_history(one, &today, history)
    }

    // Every resource in rising number; the first refusal ends it and leaves the sheet as it was.
    fn settle_all(&self, resources: &[Resource], sheet: &mut [i32]) -> Result<Outcome, BookFault>
        requires many { length resources.now ≤ 32 }
        requires powered { are_powered resources.now ≡ true }
        requires room { 19 * length resources.now ≤ length sheet.old }
        ensures answer { result ≡ settled_at self.now.terms.now self.now.order (parts self.now.terms.now (R.Rulebook.rules self.now.rules.now) (S.Store.model self.now.store.now).look (busy_on (orders_in self.now.booked.now)) resources.now self.now.order) }
        ensures rows { sheet.new ≡ sheet_of (parts self.now.terms.now (R.Rulebook.rules self.now.rules.now) (S.Store.model self.now.store.now).look (busy_on (orders_in self.now.booked.now)) resources.now self.now.order) sheet.old }
        ensures size { IfOk result (λ x. is_modest (Some x) ≡ true) }
    {
        let mut rows = ArrayVec::<i32, 608>::new();
        let mut history = None;
        let mut sum = 0;
        let mut estimated = false;
        for (number, resource) in resources.iter().enumerate() {
            let one = self.settle_one(
                NumberedResource {
                    number: number as u32,
                    resource: *resource,
                },
                &mut history,
            )?;
            let row = one.evidence.unwrap_or([0; 19]);
            rows.try_extend_from_slice(&row).unwrap();
            sum += one.amount;
            estimated |= one.evidence.is_none();
        }
        sheet[..rows.len()].copy_from_slice(rows.as_slice());
        Ok(self.outcome(sum, estimated))
    }
}

fn is_placed(order: Order) -> bool
    ensures { result ≡ is_placed order }
{
    8 <= order.q0
        && order.q0 < order.q1
        && order.q1 <= 96
        && order.day <= LAST_DAY
        && order.qr <= 128_000
}

fn are_powered(resources: &[Resource]) -> bool
    ensures { result ≡ are_powered resources.now }
{
    resources.iter().all(|resource| resource.power <= 4_000)
}

fn can_settle(resources: &[Resource], order: Order) -> bool
    ensures { result ≡ can_settle resources.now order }
{
    resources.len() <= 32 && is_placed(order) && are_powered(resources)
}

// Settles an order among those booked. Refused with 14 where no book has such an order and resources.
pub fn settle_order<S: Store, R: Rulebook>(
    terms: &Terms,
    store: &S,
    rules: &R,
    resources: &[Resource],
    orders: &[Booked],
    order: Order,
    sheet: &mut [i32],
) -> Result<Outcome, BookFault>
    ensures answer { result ≡ settled_at terms.now order (order_parts terms.now (R.Rulebook.rules rules.now) (S.Store.model store.now).look orders.now resources.now order (length sheet.old)) }
    ensures rows { sheet.new ≡ sheet_of (order_parts terms.now (R.Rulebook.rules rules.now) (S.Store.model store.now).look orders.now resources.now order (length sheet.old)) sheet.old }
    ensures size { IfOk result (λ x. is_modest (Some x) ≡ true) }
{
    if !can_settle(resources, order) {
        return Err(BookFault::Number);
    }
    if sheet.len() < 19 * resources.len() {
        return Err(BookFault::ShortMemory);
    }
    OrderContext {
        terms,
        store,
        rules,
        booked: orders,
        order,
    }
    .settle_all(resources, sheet)
}
