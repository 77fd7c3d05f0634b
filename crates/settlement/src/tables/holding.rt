// Making the table of orders, adding to it, reading it, and writing the result of one order.
ghost use Rattle.std.specs.Prelude.{◌≡◌, ◌≤◌, ◌<◌, ◌==◌, true, [], ◌∷◌, ◌++◌, length, IfOk};
ghost use Rattle.ledger.specs.Book.{recorded};
ghost use Rattle.ledger.specs.Standing.{is_placed, are_standing};
ghost use Rattle.settlement.specs.Tables.{orders_held, unsettled_in};

use crate::tables::OrderTable;
use arrayvec::ArrayVec;
use ledger::fault::BookFault;
use ledger::records::{Booked, Order, Outcome};

impl OrderTable {
    pub(crate) fn new() -> OrderTable
        ensures { orders_held result ≡ [] }
    {
        OrderTable {
            orders: ArrayVec::new(),
        }
    }

    pub(crate) fn as_slice(&self) -> &[Booked]
        ensures held { result.now ≡ orders_held self.now }
        ensures room { length result.now ≤ 128 }
    {
        self.orders.as_slice()
    }

    pub(crate) fn is_full(&self) -> bool
        ensures full { result ≡ (length (orders_held self.now) == 128) }
        ensures room { length (orders_held self.now) ≤ 128 }
    {
        self.orders.is_full()
    }

    // The order of a number, still to be settled.
    pub(crate) fn to_settle(&self, number: usize) -> Result<Order, BookFault>
        requires { are_standing (orders_held self.now) ≡ true }
        ensures order { result ≡ unsettled_in (orders_held self.now) number }
        ensures placed { IfOk result (λ o. is_placed o ≡ true) }
    {
        // Each arm hands its refusal in turn: of no such order, then of one settled before.
        let Some(booked) = self.orders.get(number) else {
            return Err(BookFault::NoOrder);
        };
        match booked.result {
            Some(_) => Err(BookFault::Settled),
            None => Ok(booked.order),
        }
    }

    pub(crate) fn push(&mut self, booked: Booked)
        requires { length (orders_held self.old) < 128 }
        ensures { orders_held self.new ≡ orders_held self.old ++ booked ∷ [] }
    {
        self.orders.push(booked);
    }

    // The outcome of an order; nothing where there is no such order.
    pub(crate) fn record(&mut self, number: usize, outcome: Outcome)
        ensures { orders_held self.new ≡ recorded number outcome (orders_held self.old) }
    {
        if let Some(booked) = self.orders.get_mut(number) {
            booked.result = Some(outcome);
        }
    }
}
