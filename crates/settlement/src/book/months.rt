// The figures of a month and their line.
ghost use Rattle.std.specs.Prelude.{◌≡◌};
ghost use Rattle.ledger.specs.Book.{month_of};
ghost use Rattle.settlement.specs.Meant.{meaning, line_length, line_after};

use crate::book::Book;
use ledger::fault::BookFault;
use ledger::records::Month;
use monthly::line::write_line;
use monthly::month::month_in;
use rulebooks::Rulebook;
use stores::store::Store;

impl<S: Store + Drop, R: Rulebook + Drop> Book<S, R> {
    pub fn month(&self, year: u32, month: u32) -> Result<Month, BookFault>
        ensures { result ≡ month_of (meaning S.Store.model R.Rulebook.rules self.now) year month }
    {
        month_in(
            &self.terms,
            self.orders.as_slice(),
            &self.declarations,
            year,
            month,
        )
    }

    // The line goes to the start of `out`; its length is answered.
    pub fn line(&self, year: u32, month: u32, out: &mut [u8]) -> Result<u32, BookFault>
        ensures length { result ≡ line_length self.now.terms (month_of (meaning S.Store.model R.Rulebook.rules self.now) year month) out.old }
        ensures bytes { out.new ≡ line_after self.now.terms (month_of (meaning S.Store.model R.Rulebook.rules self.now) year month) out.old }
    {
        let figures = self.month(year, month)?;
        write_line(&self.terms, &figures, out)
    }
}
