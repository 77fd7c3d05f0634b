// What the book refuses, and what it passes on from the store and the rulebook below it.
ghost use Rattle.std.specs.Prelude.{◌≡◌};
ghost use Rattle.ledger.specs.declared.fault.BookFault.TheVariants.{Store};
ghost use Rattle.ledger.specs.Refusals.{own as own_refusal, ruled as ruled_refusal, refusal_of};

use refusals::{Layer, Refusal};
use rulebooks::RuleFault;
use stores::fault::StoreFault;

#[derive(Clone, Copy, PartialEq, Eq, Debug)]
pub enum BookFault {
    Terms,
    Fields,
    OrdersBooked,
    NoRoom,
    UnknownChoice,
    NotRegistered {
        resource: u32,
        day: u32,
    },
    Number,
    Outside,
    TooSoon,
    ManyOrders,
    Declared,
    ManyDeclarations,
    NoOrder,
    Settled,
    NoCurve {
        resource: u32,
        day: u32,
    },
    ShortHistory {
        resource: u32,
        found: u32,
    },
    NoMonth,
    Unsettled {
        order: u32,
    },
    ShortMemory,
    Store(StoreFault),
    Rule {
        resource: u32,
        quarter: u32,
        fault: RuleFault,
    },
}

impl From<StoreFault> for BookFault {
    ghost from_gives = { λ e r. r ≡ Store e };

    fn from(e: StoreFault) -> BookFault {
        BookFault::Store(e)
    }
}

// A refusal that the book itself raises.
fn own(number: u8, first: u32, second: u32) -> Refusal
    ensures { result ≡ own_refusal number first second }
{
    Refusal::new(number, Layer::Book, first, second)
}

// A refusal of the rulebook; where a rule gives no baseline, at the resource and quarter that it was asked for.
fn ruled(resource: u32, quarter: u32, fault: RuleFault) -> Refusal
    ensures { result ≡ ruled_refusal resource quarter fault }
{
    let below = fault.refusal();
    match fault {
        RuleFault::OutOfRange | RuleFault::UnknownChoice => below,
        RuleFault::NoBaseline => Refusal {
            first: resource,
            second: quarter,
            ..below
        },
    }
}

impl BookFault {
    pub fn refusal(self) -> Refusal
        ensures { result ≡ refusal_of self }
    {
        match self {
            BookFault::Terms => own(1, 0, 0),
            BookFault::Fields => own(2, 0, 0),
            BookFault::OrdersBooked => own(3, 0, 0),
            BookFault::NoRoom => own(4, 0, 0),
            BookFault::UnknownChoice => own(5, 0, 0),
            BookFault::NotRegistered { resource, day } => own(10, resource, day),
            BookFault::Number => own(14, 0, 0),
            BookFault::Outside => own(15, 0, 0),
            BookFault::TooSoon => own(16, 0, 0),
            BookFault::ManyOrders => own(17, 0, 0),
            BookFault::Declared => own(18, 0, 0),
            BookFault::ManyDeclarations => own(19, 0, 0),
            BookFault::NoOrder => own(20, 0, 0),
            BookFault::Settled => own(21, 0, 0),
            BookFault::NoCurve { resource, day } => own(22, resource, day),
            BookFault::ShortHistory { resource, found } => own(23, resource, found),
            BookFault::NoMonth => own(25, 0, 0),
            BookFault::Unsettled { order } => own(26, order, 0),
            BookFault::ShortMemory => own(27, 0, 0),
            BookFault::Store(fault) => fault.refusal(),
            BookFault::Rule {
                resource,
                quarter,
                fault,
            } => ruled(resource, quarter, fault),
        }
    }
}
