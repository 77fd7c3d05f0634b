// The book: terms, a store of curves and a rulebook, with the tables of resources, orders and declarations.
ghost use Rattle.std.specs.Prelude.{◌≡◌, true};
ghost use Rattle.ledger.specs.Standing.{are_powered, are_standing};

use crate::tables::OrderTable;
use arrayvec::ArrayVec;
use ledger::records::{Declaration, Resource};
use ledger::terms::Terms;

mod booking;
mod entering;
mod months;
mod questions;
mod registering;
mod settlement;

// Its resources have at most 4,000 kW each. Its orders stand: each has its lead quarters on its own day, and a result, if any, of a bounded energy.
// No `Model`: what a store and a rulebook mean are functions, which no `Value` holds, so each clause would speak of `meaning` all the same.
#[derive(Drop)]
pub struct Book<S: Drop, R: Drop> {
    terms: Terms,
    store: S,
    rules: R,
    resources: ArrayVec<Resource, 32>,
    orders: OrderTable,
    declarations: ArrayVec<Declaration, 64>,
    ghost powered: { are_powered resources.items ≡ true },
    ghost standing: { are_standing orders.orders.items ≡ true },
}
