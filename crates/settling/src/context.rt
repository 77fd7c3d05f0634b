// An order that is being settled, with what it is settled by.
ghost use Rattle.settling.specs.Placed.{Placed};

use ledger::records::{Booked, Order};
use ledger::terms::Terms;

#[derive(Drop)]
pub(crate) struct OrderContext<'a, S, R> {
    pub terms: &'a Terms,
    pub store: &'a S,
    pub rules: &'a R,
    pub booked: &'a [Booked],
    pub order: Order,
    ghost placed: { Placed order },
}
