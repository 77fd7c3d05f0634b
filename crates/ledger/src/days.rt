// Which days the terms speak of, and which have an order.
ghost use Rattle.std.specs.Prelude.{◌≡◌};
ghost use Rattle.calendar.specs.Weekdays.{number_of};
ghost use Rattle.ledger.specs.Days.{kind_of, has_kind, in_kinds};
ghost use Rattle.ledger.specs.Book.{orders_in, busy_on};

use crate::records::Booked;
use crate::terms::Terms;
use calendar::{DayKind, weekday_kind};

// A feast counts as a Sunday.
fn kind_of(terms: &Terms, day: u32) -> DayKind
    ensures { number_of result ≡ kind_of terms.now day }
{
    if terms.feasts.contains(day) {
        DayKind::Sunday
    } else {
        weekday_kind(day)
    }
}

fn has_kind(kinds: u8, kind: DayKind) -> bool
    ensures { result ≡ has_kind kinds (number_of kind) }
{
    kinds & kind.number() != 0
}

pub fn in_kinds(terms: &Terms, day: u32) -> bool
    ensures { result ≡ in_kinds terms.now day }
{
    has_kind(terms.kinds, kind_of(terms, day))
}

pub fn is_busy(orders: &[Booked], day: u32) -> bool
    ensures { result ≡ busy_on (orders_in orders.now) day }
{
    orders.iter().any(|booked| booked.order.day == day)
}
