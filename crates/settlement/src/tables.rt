// The orders of a book: at most 128, in the order of booking.
use arrayvec::ArrayVec;
use ledger::records::Booked;

mod holding;

// A plain table, with nothing that it keeps to by itself: what its orders keep to is the book's to say.
#[derive(Drop)]
pub(crate) struct OrderTable {
    orders: ArrayVec<Booked, 128>,
}
