// Booking an order, and declaring quarters in which the aggregate is not available.
ghost use Rattle.std.specs.Prelude.{◌≡◌, ◌&&◌, nat_le};
ghost use Rattle.ledger.specs.Days.{are_quarters, in_window, in_kinds, rests_before, shares};
ghost use Rattle.ledger.specs.Book.{in_time, orders_in, may_declare};
ghost use Rattle.settlement.specs.Meant.{meaning, book_answer, after_book, after_declare};

use crate::book::Book;
use ledger::days::in_kinds;
use ledger::fault::BookFault;
use ledger::records::{Booked, Declaration, Direction, Order};
use ledger::terms::Terms;
use rulebooks::Rulebook;
use stores::store::{LAST_DAY, Store};

// Quarters q0 to q1 of a day, q1 excluded, as an order or a declaration asks for them.
#[derive(Clone, Copy)]
struct Span {
    day: u32,
    q0: u32,
    q1: u32,
}

impl Span {
    fn is_of_a_day(self) -> bool
        ensures { result ≡ (nat_le self.day 36524 && are_quarters self.q0 self.q1) }
    {
        self.day <= LAST_DAY && self.q0 < self.q1 && self.q1 <= 96
    }

    // Quarters of the window on a day of the kinds.
    fn is_inside(self, terms: &Terms) -> bool
        ensures { result ≡ (in_window terms.now self.q0 self.q1 && in_kinds terms.now self.day) }
    {
        terms.w0 <= self.q0 && self.q1 <= terms.w1 && in_kinds(terms, self.day)
    }

    fn shares_quarter(self, declarations: &[Declaration]) -> bool
        ensures { result ≡ shares declarations.now self.day self.q0 self.q1 }
    {
        declarations
            .iter()
            .any(|x| x.day == self.day && x.q0 < self.q1 && self.q0 < x.q1)
    }
}

fn order_fits(span: Span, qr: u32) -> bool
    ensures { result ≡ ((nat_le span.day 36524 && are_quarters span.q0 span.q1) && (nat_le 1 qr && nat_le qr 128000)) }
{
    span.is_of_a_day() && (1..=128_000).contains(&qr)
}

fn rests_before(a: Order, b: Order) -> bool
    ensures { result ≡ rests_before a b }
{
    96 * u64::from(a.day) + u64::from(a.q1) + 8 <= 96 * u64::from(b.day) + u64::from(b.q0)
}

fn in_time(orders: &[Booked], order: Order) -> bool
    ensures { result ≡ in_time (orders_in orders.now) order }
{
    orders
        .last()
        .is_none_or(|last| rests_before(last.order, order))
}

impl<S: Store + Drop, R: Rulebook + Drop> Book<S, R> {
    // The number of the new order.
    pub fn book(
        &mut self,
        day: u32,
        q0: u32,
        q1: u32,
        direction: u32,
        qr: u32,
    ) -> Result<u32, BookFault>
        ensures answer { result ≡ book_answer (meaning S.Store.model R.Rulebook.rules self.old) day q0 q1 direction qr }
        ensures after { meaning S.Store.model R.Rulebook.rules self.new ≡ after_book (meaning S.Store.model R.Rulebook.rules self.old) day q0 q1 direction qr }
    {
        let span = Span { day, q0, q1 };
        let direction = Direction::try_from(direction)?;
        if !order_fits(span, qr) {
            return Err(BookFault::Number);
        }
        if !span.is_inside(&self.terms) {
            return Err(BookFault::Outside);
        }
        let order = Order {
            day,
            q0,
            q1,
            direction,
            qr,
        };
        if !in_time(self.orders.as_slice(), order) {
            return Err(BookFault::TooSoon);
        }
        if self.orders.is_full() {
            return Err(BookFault::ManyOrders);
        }
        let number = self.orders.as_slice().len() as u32;
        self.orders.push(Booked {
            order,
            result: None,
        });
        Ok(number)
    }

    pub fn declare(&mut self, day: u32, q0: u32, q1: u32) -> Result<(), BookFault>
        ensures answer { result ≡ may_declare (meaning S.Store.model R.Rulebook.rules self.old) day q0 q1 }
        ensures after { meaning S.Store.model R.Rulebook.rules self.new ≡ after_declare (meaning S.Store.model R.Rulebook.rules self.old) day q0 q1 }
    {
        let span = Span { day, q0, q1 };
        if !span.is_of_a_day() {
            return Err(BookFault::Number);
        }
        if !span.is_inside(&self.terms) {
            return Err(BookFault::Outside);
        }
        if span.shares_quarter(&self.declarations) {
            return Err(BookFault::Declared);
        }
        if self.declarations.is_full() {
            return Err(BookFault::ManyDeclarations);
        }
        self.declarations.push(Declaration { day, q0, q1 });
        Ok(())
    }
}
