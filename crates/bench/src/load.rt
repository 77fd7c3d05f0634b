// What is settled: 32 resources, 400 days of curves that vary, 128 orders on the last 26 days.
use ledger::fault::BookFault;
use ledger::terms::{Asked, Terms};
use metering::curve::Curve;
use metering::reading::Reading;
use rulebooks::SuppliedRulebook;
use settlement::book::Book;
use stores::store::Store;

pub const RESOURCES: u32 = 32;

pub const DAYS: u32 = 400;

pub const ORDERS: u32 = 128;

// The first day with orders; from it on each day has five, the last three.
pub const FIRST: u32 = 374;

// The day of an order, and its quarters q0 to q1.
#[derive(Clone, Copy)]
pub struct Place {
    pub day: u32,
    pub q0: u32,
    pub q1: u32,
}

pub fn place_of(number: u32) -> Place {
    let n = number % ORDERS;
    let q0 = 8 + 16 * (n % 5);
    Place {
        day: FIRST + n / 5,
        q0,
        q1: q0 + 8,
    }
}

fn is_ordered(day: u32, quarter: usize) -> bool {
    day >= FIRST && quarter / 8 % 2 == 1
}

fn next_state(state: u32) -> u32 {
    state.wrapping_mul(1_664_525).wrapping_add(1_013_904_223)
}

// Drawn energy of 2,000 to 2,999 Wh a quarter, some 1,500 Wh less where an order stands.
fn reading_of(state: u32, ordered: bool) -> Reading {
    let drawn = ((state / 65_536) % 1_000) as i32;
    if ordered {
        Reading::Measured(-500 - drawn)
    } else {
        Reading::Measured(-2_000 - drawn)
    }
}

pub fn curve_of(resource: u32, day: u32) -> Curve {
    let mut state = resource.wrapping_mul(40_503).wrapping_add(day);
    Curve::from_fn(|quarter| {
        state = next_state(state);
        reading_of(state, is_ordered(day, quarter))
    })
}

// The last digits by hand: a formatted text would need the heap, and an error of its own.
fn pod_of(number: u8) -> [u8; 14] {
    let mut pod = *b"IT001E00000000";
    pod[12] = b'0' + number / 10 % 10;
    pod[13] = b'0' + number % 10;
    pod
}

// All days, from quarter 8 to the end, 250 kW.
fn terms_of() -> Result<Terms, BookFault> {
    let mut terms = Terms::new();
    terms.fill(&Asked {
        kinds: 7,
        w0: 8,
        w1: 96,
        qc: 250,
        uf: 2_000,
        af: 50,
        feasts: &[],
    })?;
    Ok(terms)
}

fn register_all<S: Store + Drop>(book: &mut Book<S, SuppliedRulebook>) -> Result<(), BookFault> {
    for number in 0..RESOURCES as u8 {
        book.register(&pod_of(number), 1, 8)?;
    }
    Ok(())
}

fn book_all<S: Store + Drop>(book: &mut Book<S, SuppliedRulebook>) -> Result<(), BookFault> {
    for number in 0..ORDERS {
        let at = place_of(number);
        book.book(at.day, at.q0, at.q1, 0, 250)?;
    }
    Ok(())
}

// A book with its resources registered and its orders booked.
pub fn ready<S: Store + Drop>(store: S) -> Result<Book<S, SuppliedRulebook>, BookFault> {
    let terms = terms_of()?;
    let mut book = Book::new(terms, store, SuppliedRulebook::new());
    register_all(&mut book)?;
    book_all(&mut book)?;
    Ok(book)
}

fn enter_day<S: Store + Drop>(
    book: &mut Book<S, SuppliedRulebook>,
    day: u32,
) -> Result<(), BookFault> {
    for resource in 0..RESOURCES {
        book.enter(resource, day, &curve_of(resource, day))?;
    }
    Ok(())
}

pub fn enter_all<S: Store + Drop>(book: &mut Book<S, SuppliedRulebook>) -> Result<(), BookFault> {
    for day in 0..DAYS {
        enter_day(book, day)?;
    }
    Ok(())
}

// The remunerated energy of all orders, in Wh.
pub fn settle_all<S: Store + Drop>(
    book: &mut Book<S, SuppliedRulebook>,
    sheet: &mut [i32],
) -> Result<u64, BookFault> {
    let mut energy = 0u64;
    for number in 0..ORDERS {
        let outcome = book.settle(number, sheet)?;
        energy = energy.saturating_add(outcome.seta);
    }
    Ok(energy)
}
