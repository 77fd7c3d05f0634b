// A whole life: a list of calls on a fresh book, and what each answers.
ghost use Rattle.std.specs.Prelude.{◌≡◌, ◌≤◌, ◌++◌, length, take, drop};
ghost use Rattle.ledger.specs.Book.{fresh};
ghost use Rattle.ledger.specs.Run.{step, run, final};
ghost use Rattle.ledger.specs.Evident.{History, PayBounded, MonthApart};
ghost use Rattle.ledger.specs.Lives.{TwoLives, Bounds, MeanGuaranteed, Second};
ghost use Rattle.settlement.specs.Meant.{meaning};
ghost use Rattle.settlement.specs.Living.{room_for, answers_after, book_after};

use crate::book::Book;
use ledger::fault::BookFault;
use ledger::life::{Answer, Call};
use ledger::terms::Terms;
use rulebooks::Rulebook;
use stores::store::Store;

// A book that has lived; where there was no room for the answers it is fresh, and says so.
// No `Result`: the book, with its store, is handed back in either case.
#[derive(Drop)]
pub struct Life<S: Drop, R: Drop> {
    pub book: Book<S, R>,
    pub refused: Option<BookFault>,
}

impl<S: Store + Drop, R: Rulebook + Drop> Book<S, R> {
    fn answer_settle(&mut self, order: u32) -> Answer
        ensures answer { result ≡ (step (meaning S.Store.model R.Rulebook.rules self.old) (Call.Settle order)).answer }
        ensures after { meaning S.Store.model R.Rulebook.rules self.new ≡ (step (meaning S.Store.model R.Rulebook.rules self.old) (Call.Settle order)).book }
    {
        let mut sheet = [0i32; 608];
        // A `match`, since of `map_or_else` with the sheet captured the check left the answer open.
        match self.settle(order, &mut sheet) {
            Ok(outcome) => Answer::Settled { outcome, sheet },
            Err(fault) => Answer::Refused(fault),
        }
    }

    // Any call, by its name.
    pub fn answer(&mut self, call: &Call) -> Answer
        ensures answer { result ≡ (step (meaning S.Store.model R.Rulebook.rules self.old) call.now).answer }
        ensures after { meaning S.Store.model R.Rulebook.rules self.new ≡ (step (meaning S.Store.model R.Rulebook.rules self.old) call.now).book }
    {
        match call {
            Call::Register { pod, choice, power } => self
                .register(pod, *choice, *power)
                .map_or_else(Answer::Refused, Answer::Registered),
            Call::Enter {
                resource,
                day,
                curve,
            } => self
                .enter(*resource, *day, curve)
                .map_or_else(Answer::Refused, |_| Answer::Entered),
            Call::Drop { day } => self
                .drop_before(*day)
                .map_or_else(Answer::Refused, |_| Answer::Dropped),
            Call::Book {
                day,
                q0,
                q1,
                direction,
                qr,
            } => self
                .book(*day, *q0, *q1, *direction, *qr)
                .map_or_else(Answer::Refused, Answer::Booked),
            Call::Declare { day, q0, q1 } => self
                .declare(*day, *q0, *q1)
                .map_or_else(Answer::Refused, |_| Answer::Declared),
            Call::Settle { order } => self.answer_settle(*order),
            Call::Month { year, month } => self
                .month(*year, *month)
                .map_or_else(Answer::Refused, Answer::Month),
        }
    }
}

// The calls one after the other, each answer at its place.
fn run_calls<S: Store + Drop, R: Rulebook + Drop>(
    book: &mut Book<S, R>,
    calls: &[Call],
    answers: &mut [Answer],
)
    requires { length calls.now ≤ length answers.old }
    ensures answers { answers.new ≡ run (meaning S.Store.model R.Rulebook.rules book.old) calls.now ++ drop (length calls.now) answers.old }
    ensures book { meaning S.Store.model R.Rulebook.rules book.new ≡ final (meaning S.Store.model R.Rulebook.rules book.old) calls.now }
{
    // not `answers.iter_mut().zip(calls)`: an invariant cannot name what was written through those borrows
    for (i, call) in calls.iter().enumerate() {
        answers[i] = book.answer(call);
    }
}

// Runs a life from a fresh book. Answer i is that of call i; the answers beyond stay.
pub fn live<S: Store + Drop, R: Rulebook + Drop>(
    terms: Terms,
    store: S,
    rules: R,
    calls: &[Call],
    answers: &mut [Answer],
) -> Life<S, R>
    ensures refused { result.refused ≡ room_for calls.now answers.old }
    ensures answers { answers.new ≡ answers_after (fresh terms (S.Store.model store) (R.Rulebook.rules rules)) calls.now answers.old }
    ensures book { meaning S.Store.model R.Rulebook.rules result.book ≡ book_after (fresh terms (S.Store.model store) (R.Rulebook.rules rules)) calls.now answers.old }
    ensures second { length calls.now ≤ length answers.old → Second (fresh terms (S.Store.model store) (R.Rulebook.rules rules)) calls.now (take (length calls.now) answers.new) }
    ensures lives { TwoLives }
    ensures bounds { Bounds }
    ensures mean { MeanGuaranteed }
    ensures history { History }
    ensures pay { PayBounded }
    ensures months { MonthApart }
{
    let mut book = Book::new(terms, store, rules);
    if calls.len() > answers.len() {
        return Life {
            book,
            refused: Some(BookFault::ShortMemory),
        };
    }
    run_calls(&mut book, calls, answers);
    Life {
        book,
        refused: None,
    }
}
