// The lines of refusals: what was refused, in plain words, and whose matter it is.
use calendar::date_of;
use ledger::fault::BookFault;
use metering::fault::Fault;
use refusals::{Layer, Refusal, matter_of};
use rulebooks::RuleFault;
use std::alloc::AllocError;
use std::fmt;
use stores::fault::StoreFault;

// Of the store, the rulebook and the book alike.
const OUT_OF_RANGE: &str = "a day, a quarter, a direction or a power is out of range";

const UNKNOWN_CHOICE: &str = "the rulebook does not know this choice";

// A day as its date; one beyond the calendar as its number.
#[derive(Clone, Copy)]
struct Day(u32);

impl fmt::Display for Day {
    fn fmt<W: fmt::Write>(&self, f: &mut fmt::Formatter<W>) -> fmt::Result {
        let day = self.0;
        match date_of(day) {
            Some(date) => write!(f, "{date}"),
            None => write!(f, "day {day}"),
        }
    }
}

// What a store refuses, in plain words.
#[derive(Clone, Copy)]
struct StoreWords(StoreFault);

impl fmt::Display for StoreWords {
    fn fmt<W: fmt::Write>(&self, f: &mut fmt::Formatter<W>) -> fmt::Result {
        match self.0 {
            StoreFault::Unfit => write!(f, "no store can be made with this memory, width or span"),
            StoreFault::Day => write!(f, "{OUT_OF_RANGE}"),
            StoreFault::Resource { resource, .. } => {
                write!(f, "the store is too narrow for resource {resource}")
            }
            StoreFault::UnderFloor { resource, day } => write!(
                f,
                "the store keeps no day so early: resource {resource} on {}",
                Day(day)
            ),
            StoreFault::Held { resource, day } => write!(
                f,
                "a curve is held already for resource {resource} on {}",
                Day(day)
            ),
            StoreFault::Full { resource, day } => write!(
                f,
                "the store is full: no room for resource {resource} on {}",
                Day(day)
            ),
        }
    }
}

// What a book refuses or passes on, in plain words.
#[derive(Clone, Copy)]
struct Words(BookFault);

impl fmt::Display for Words {
    fn fmt<W: fmt::Write>(&self, f: &mut fmt::Formatter<W>) -> fmt::Result {
        match self.0 {
            BookFault::Terms => write!(f, "the terms break a limit and stay as they were"),
            BookFault::Fields => write!(
                f,
                "the metering point is malformed or in use, or the power is not 1 to 4000 kW"
            ),
            BookFault::OrdersBooked => write!(
                f,
                "an order is booked, so no resource can be registered any more"
            ),
            BookFault::NoRoom => write!(f, "the store has no room for another resource"),
            BookFault::UnknownChoice => write!(f, "{UNKNOWN_CHOICE}"),
            BookFault::NotRegistered { resource, .. } => {
                write!(f, "no resource {resource} is registered")
            }
            BookFault::Number => write!(f, "{OUT_OF_RANGE}"),
            BookFault::Outside => write!(
                f,
                "this lies outside the window or the kinds of day of the terms"
            ),
            BookFault::TooSoon => write!(
                f,
                "it starts less than eight quarters after the end of the order before"
            ),
            BookFault::ManyOrders => write!(f, "128 orders are booked already"),
            BookFault::Declared => write!(f, "it shares a quarter with an earlier declaration"),
            BookFault::ManyDeclarations => write!(f, "64 declarations are made already"),
            BookFault::NoOrder => write!(f, "no order of this number is booked"),
            BookFault::Settled => write!(f, "this order is settled already"),
            BookFault::NoCurve { resource, day } => write!(
                f,
                "the order's day has no curve of resource {resource}: {}",
                Day(day)
            ),
            BookFault::ShortHistory { resource, found } => write!(
                f,
                "only {found} of the history days that the choice of resource {resource} needs are held"
            ),
            BookFault::NoMonth => write!(f, "there is no such month from 2000 to 2099"),
            BookFault::Unsettled { order } => {
                write!(f, "order {order} of this month is not settled")
            }
            BookFault::ShortMemory => {
                write!(f, "the memory for the evidence or the line is too short")
            }
            BookFault::Store(fault) => write!(f, "{}", StoreWords(fault)),
            BookFault::Rule {
                resource,
                quarter,
                fault,
            } => match fault {
                RuleFault::OutOfRange => write!(f, "{OUT_OF_RANGE}"),
                RuleFault::UnknownChoice => write!(f, "{UNKNOWN_CHOICE}"),
                RuleFault::NoBaseline => write!(
                    f,
                    "the rule of resource {resource} gives no baseline for quarter {quarter}"
                ),
            },
        }
    }
}

// The reply to one line of a life: the text that it goes to, and the line's number, which it begins with.
#[derive(Drop)]
pub struct Reply<'a> {
    pub out: &'a mut String,
    pub line: usize,
}

impl Reply<'_> {
    fn refusal<W: fmt::Display>(&mut self, refusal: Refusal, words: &W) -> Result<(), AllocError> {
        let line = self.line;
        let Refusal {
            number,
            layer,
            first,
            second,
        } = refusal;
        let matter = matter_of(number);
        writeln!(
            self.out,
            "{line} refused {number} {layer} {first} {second} {words}: {matter}"
        )
    }

    pub fn refused(&mut self, fault: BookFault) -> Result<(), AllocError> {
        self.refusal(fault.refusal(), &Words(fault))
    }

    // A curve that could not be formed or imported.
    pub fn unformed(&mut self, fault: Fault) -> Result<(), AllocError> {
        match fault {
            Fault::Lists => self.refusal(
                fault.refusal(),
                &"the values do not come to 96, or one is beyond 1000000 Wh either way",
            ),
            Fault::Header { .. } | Fault::Row { .. } => self.refusal(fault.refusal(), &fault),
        }
    }
}

// What a refusal from anywhere tells, by its number and its layer; nothing where a book has none of that number.
fn fault_of(refusal: Refusal) -> Option<BookFault> {
    let Refusal {
        number,
        layer,
        first,
        second,
    } = refusal;
    let (resource, day) = (first, second);
    let fault = match number {
        1 => BookFault::Terms,
        2 => BookFault::Fields,
        3 => BookFault::OrdersBooked,
        4 => BookFault::NoRoom,
        5 => BookFault::UnknownChoice,
        6 => BookFault::Store(StoreFault::Unfit),
        10 if layer == Layer::Store => BookFault::Store(StoreFault::Resource { resource, day }),
        10 => BookFault::NotRegistered { resource, day },
        11 => BookFault::Store(StoreFault::UnderFloor { resource, day }),
        12 => BookFault::Store(StoreFault::Held { resource, day }),
        13 => BookFault::Store(StoreFault::Full { resource, day }),
        14 => BookFault::Number,
        15 => BookFault::Outside,
        16 => BookFault::TooSoon,
        17 => BookFault::ManyOrders,
        18 => BookFault::Declared,
        19 => BookFault::ManyDeclarations,
        20 => BookFault::NoOrder,
        21 => BookFault::Settled,
        22 => BookFault::NoCurve { resource, day },
        23 => BookFault::ShortHistory {
            resource,
            found: second,
        },
        24 => BookFault::Rule {
            resource,
            quarter: second,
            fault: RuleFault::NoBaseline,
        },
        25 => BookFault::NoMonth,
        26 => BookFault::Unsettled { order: first },
        27 => BookFault::ShortMemory,
        _ => return None,
    };
    Some(fault)
}

// For a caller that has the refusal alone, as a record of it: its line, with the words of its number.
pub fn write_refused(out: &mut String, line: usize, refusal: Refusal) -> Result<(), AllocError> {
    let mut reply = Reply { out, line };
    match fault_of(refusal) {
        Some(fault) => reply.refusal(refusal, &Words(fault)),
        None => reply.refusal(refusal, &"this cannot be granted"),
    }
}
