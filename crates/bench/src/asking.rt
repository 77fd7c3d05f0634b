// The questions that settling may put to a store, and nothing else.
use crate::load::{FIRST, ORDERS, Place, RESOURCES, place_of};
use metering::reading::Reading;
use stores::store::Store;

fn size_of(reading: Option<Reading>) -> u64 {
    reading.map_or(0, |reading| u64::from(reading.counted().unsigned_abs()))
}

// A quarter of a curve; nothing where no curve is held.
fn asked_curve<S: Store>(store: &S, resource: u32, day: u32, quarter: u32) -> Option<u64> {
    let curve = store.curve(resource, day)?;
    Some(size_of(curve.reading(quarter)))
}

// The fifteen latest curves of days without an order.
fn ask_history<S: Store>(store: &S, resource: u32, before: u32, quarter: u32) -> u64 {
    (0..before.min(FIRST))
        .rev()
        .filter_map(|day| asked_curve(store, resource, day, quarter))
        .take(15)
        .fold(0, u64::saturating_add)
}

fn ask_one<S: Store>(store: &S, resource: u32, at: Place) -> u64 {
    let one = size_of(store.reading(resource, at.day, at.q0));
    let whole = asked_curve(store, resource, at.day, at.q0).unwrap_or(0);
    let past = ask_history(store, resource, at.day, at.q0);
    one.saturating_add(whole).saturating_add(past)
}

fn ask_order<S: Store>(store: &S, at: Place) -> u64 {
    (0..RESOURCES)
        .map(|resource| ask_one(store, resource, at))
        .fold(0, u64::saturating_add)
}

// A sum of readings, so that no question can be left out.
pub fn ask_all<S: Store>(store: &S) -> u64 {
    (0..ORDERS)
        .map(|number| ask_order(store, place_of(number)))
        .fold(0, u64::saturating_add)
}
