// What a book keeps, to be read; and its store given back.
ghost use Rattle.std.specs.Prelude.{◌≡◌};
ghost use Rattle.settlement.specs.Meant.{meaning};

use crate::book::Book;
use ledger::records::{Booked, Declaration, Resource};
use ledger::terms::Terms;
use rulebooks::Rulebook;
use stores::store::Store;

impl<S: Store + Drop, R: Rulebook + Drop> Book<S, R> {
    pub fn terms(&self) -> Terms
        ensures { result ≡ self.now.terms }
    {
        self.terms
    }

    pub fn resources(&self) -> &[Resource]
        ensures { result.now ≡ (meaning S.Store.model R.Rulebook.rules self.now).resources }
    {
        self.resources.as_slice()
    }

    // In the order of booking, each with what it was settled at.
    pub fn orders(&self) -> &[Booked]
        ensures { result.now ≡ (meaning S.Store.model R.Rulebook.rules self.now).orders }
    {
        self.orders.as_slice()
    }

    pub fn declarations(&self) -> &[Declaration]
        ensures { result.now ≡ (meaning S.Store.model R.Rulebook.rules self.now).declarations }
    {
        self.declarations.as_slice()
    }

    pub fn into_store(self) -> S
        ensures { result ≡ self.store }
    {
        let Book { store, .. } = self;
        store
    }
}
