// Settling an order.
ghost use Rattle.std.specs.Prelude.{◌≡◌, length};
ghost use Rattle.ledger.specs.Book.{settlement as settlement_of};
ghost use Rattle.settlement.specs.Meant.{meaning, outcome_in, after_settle, sheet_after};

use crate::book::Book;
use ledger::fault::BookFault;
use ledger::records::Outcome;
use rulebooks::Rulebook;
use settling::parts::settle_order;
use stores::store::Store;

impl<S: Store + Drop, R: Rulebook + Drop> Book<S, R> {
    // What the order settles at, kept with it; nineteen words of evidence a resource go to the sheet.
    pub fn settle(&mut self, number: u32, sheet: &mut [i32]) -> Result<Outcome, BookFault>
        ensures answer { result ≡ outcome_in (settlement_of (meaning S.Store.model R.Rulebook.rules self.old) number (length sheet.old)) }
        ensures after { meaning S.Store.model R.Rulebook.rules self.new ≡ after_settle (meaning S.Store.model R.Rulebook.rules self.old) number (settlement_of (meaning S.Store.model R.Rulebook.rules self.old) number (length sheet.old)) }
        ensures rows { sheet.new ≡ sheet_after (settlement_of (meaning S.Store.model R.Rulebook.rules self.old) number (length sheet.old)) sheet.old }
    {
        let order = self.orders.to_settle(number as usize)?;
        let outcome = settle_order(
            &self.terms,
            &self.store,
            &self.rules,
            &self.resources,
            self.orders.as_slice(),
            order,
            sheet,
        )?;
        self.orders.record(number as usize, outcome);
        Ok(outcome)
    }
}
