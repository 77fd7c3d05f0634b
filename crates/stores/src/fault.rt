// What a store refuses.
ghost use Rattle.std.specs.Prelude.{◌≡◌};
ghost use Rattle.stores.specs.Making.{fit_answer};
ghost use Rattle.stores.specs.Refusals.{refusal_of};

use refusals::{Layer, Refusal};
use std::fmt;

#[derive(Clone, Copy, PartialEq, Eq, Debug)]
pub enum StoreFault {
    // memory, width or span that no store can be made of
    Unfit,
    Day,
    Resource { resource: u32, day: u32 },
    UnderFloor { resource: u32, day: u32 },
    Held { resource: u32, day: u32 },
    Full { resource: u32, day: u32 },
}

// What the tests of making answer.
pub(crate) fn fit_answer(fits: bool) -> Result<(), StoreFault>
    ensures { result ≡ fit_answer fits }
{
    if fits { Ok(()) } else { Err(StoreFault::Unfit) }
}

impl StoreFault {
    pub fn refusal(self) -> Refusal
        ensures { result ≡ refusal_of self }
    {
        let (number, first, second) = match self {
            StoreFault::Unfit => (6, 0, 0),
            StoreFault::Day => (14, 0, 0),
            StoreFault::Resource { resource, day } => (10, resource, day),
            StoreFault::UnderFloor { resource, day } => (11, resource, day),
            StoreFault::Held { resource, day } => (12, resource, day),
            StoreFault::Full { resource, day } => (13, resource, day),
        };
        Refusal::new(number, Layer::Store, first, second)
    }
}
