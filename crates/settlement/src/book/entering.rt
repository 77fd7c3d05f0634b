// A new book; entering curves and dropping them.
ghost use Rattle.std.specs.Prelude.{◌≡◌};
ghost use Rattle.ledger.specs.Book.{fresh, may_enter, may_drop};
ghost use Rattle.settlement.specs.Meant.{meaning, after_enter, after_drop};

use crate::book::Book;
use crate::tables::OrderTable;
use arrayvec::ArrayVec;
use ledger::fault::BookFault;
use ledger::terms::Terms;
use metering::curve::Curve;
use rulebooks::Rulebook;
use stores::store::{LAST_DAY, Store};

impl<S: Store + Drop, R: Rulebook + Drop> Book<S, R> {
    pub fn new(terms: Terms, store: S, rules: R) -> Book<S, R>
        ensures { meaning S.Store.model R.Rulebook.rules result ≡ fresh terms (S.Store.model store) (R.Rulebook.rules rules) }
    {
        Book {
            terms,
            store,
            rules,
            resources: ArrayVec::new(),
            orders: OrderTable::new(),
            declarations: ArrayVec::new(),
        }
    }

    pub fn enter(&mut self, resource: u32, day: u32, curve: &Curve) -> Result<(), BookFault>
        ensures answer { result ≡ may_enter (meaning S.Store.model R.Rulebook.rules self.old) resource day }
        ensures after { meaning S.Store.model R.Rulebook.rules self.new ≡ after_enter (meaning S.Store.model R.Rulebook.rules self.old) resource day curve.now }
    {
        if day > LAST_DAY {
            return Err(BookFault::Number);
        }
        if resource as usize >= self.resources.len() {
            return Err(BookFault::NotRegistered { resource, day });
        }
        self.store
            .put(resource, day, curve)
            .map_err(BookFault::Store)
    }

    pub fn drop_before(&mut self, day: u32) -> Result<(), BookFault>
        ensures answer { result ≡ may_drop day }
        ensures after { meaning S.Store.model R.Rulebook.rules self.new ≡ after_drop (meaning S.Store.model R.Rulebook.rules self.old) day }
    {
        self.store.drop_before(day).map_err(BookFault::Store)
    }
}
