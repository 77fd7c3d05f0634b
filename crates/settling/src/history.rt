// The history of an order at one resource: which days can stand in it, and the latest of them.
ghost use Rattle.std.specs.Prelude.{◌≡◌, ℕ, ◌<◌, ◌≤◌, ◌++◌, OnOk, MatchOption};
ghost use Rattle.arrayvec.specs.ArrayVec.{array_vec_len};
ghost use Rattle.ledger.specs.Words.{measured_in, lead, ordered};
ghost use Rattle.ledger.specs.Settling.{is_whole, needs, latest as latest_of};
ghost use Rattle.settling.specs.History.{FoundOn, Tried, NoDay, NextDay, Kept, fits, days_in};

use crate::context::OrderContext;
use crate::history_day::{History, HistoryDay};
use crate::numbered::NumberedResource;
use ledger::days::{in_kinds, is_busy};
use ledger::fault::BookFault;
use metering::curve::Curve;
use metering::reading::Reading;
use rulebooks::Rulebook;
use stores::store::Store;

// How many days before an order are searched.
const REACH: u32 = 400;

impl<S: Store, R: Rulebook> OrderContext<'_, S, R> {
    // No quarter of the order, nor of the lead before it, is estimated.
    pub(crate) fn is_clean(&self, curve: &Curve) -> bool
        ensures { result ≡ measured_in curve.now (lead self.now.order ++ ordered self.now.order) }
    {
        (self.order.q0 - 8..self.order.q1).all(|quarter| matches!(
            curve.reading(quarter),
            Some(Reading::Measured(_))
        ))
    }

    // The curve of a day, where it is held and clean.
    pub(crate) fn clean_curve(&self, resource: u32, day: u32) -> Option<Curve>
        ensures { FoundOn (is_whole ((S.Store.model self.now.store.now).look resource day) (lead self.now.order ++ ordered self.now.order)) ((S.Store.model self.now.store.now).look resource day) result }
    {
        let curve = self.store.curve(resource, day)?;
        self.is_clean(&curve).then_some(curve)
    }

    // Adds a day with its curve, where one is held and clean; apart from the tests of the day, since a call clears room for a curve.
    fn add_clean(&self, resource: u32, day: u32, history: &mut History) -> bool
        requires { array_vec_len history.old < 15 }
        ensures { Tried (is_whole ((S.Store.model self.now.store.now).look resource day) (lead self.now.order ++ ordered self.now.order)) ((S.Store.model self.now.store.now).look resource) day history.old.items history.new.items result }
    {
        let Some(curve) = self.clean_curve(resource, day) else {
            return false;
        };
        history.push(HistoryDay { day, curve });
        true
    }

    // Adds a day that can stand in the history; the store is asked last, since a look-up can be a pass over a whole journal.
    fn add_qualifying(&self, resource: u32, day: u32, history: &mut History) -> bool
        requires { array_vec_len history.old < 15 }
        ensures { Tried (fits self.now.terms.now ((S.Store.model self.now.store.now).look resource) self.now.booked.now self.now.order day) ((S.Store.model self.now.store.now).look resource) day history.old.items history.new.items result }
    {
        in_kinds(self.terms, day)
            && !is_busy(self.booked, day)
            && self.add_clean(resource, day, history)
    }

    // The latest day that qualifies, before one day and not before another: added with its curve, and answered.
    // A loop, since it adds to the history: of a closure that changes what it captures, nothing would be known.
    fn next_day(&self, resource: u32, low: u32, before: u32, history: &mut History) -> Option<u32>
        requires { array_vec_len history.old < 15 }
        ensures { MatchOption result (NoDay (fits self.now.terms.now ((S.Store.model self.now.store.now).look resource) self.now.booked.now self.now.order) low before history.old.items history.new.items) (NextDay (fits self.now.terms.now ((S.Store.model self.now.store.now).look resource) self.now.booked.now self.now.order) ((S.Store.model self.now.store.now).look resource) low before history.old.items history.new.items) }
    {
        for day in (low..before).rev() {
            if self.add_qualifying(resource, day, history) {
                return Some(day);
            }
        }
        None
    }

    // The days that a registered choice needs.
    fn days_needed(&self, one: NumberedResource) -> usize
        ensures days { result ≡ needs (R.Rulebook.rules self.now.rules.now) one.resource }
        ensures few { result ≤ 15 }
    {
        self.rules.days(one.resource.choice).map_or(0, usize::from)
    }

    // The latest days that qualify, as many as are needed, of the 400 before the order's, in place of those of the vector lent;
    // refused with the number found where there are fewer.
    pub(crate) fn latest(
        &self,
        one: NumberedResource,
        history: &mut History,
    ) -> Result<(), BookFault>
        ensures days { days_in result history.new.items ≡ latest_of one.number (needs (R.Rulebook.rules self.now.rules.now) one.resource) (fits self.now.terms.now ((S.Store.model self.now.store.now).look one.number) self.now.booked.now self.now.order) self.now.order.day }
        ensures curves { OnOk result (Kept ((S.Store.model self.now.store.now).look one.number) history.new.items) }
    {
        let low = self.order.day.saturating_sub(REACH);
        let n = self.days_needed(one);
        let mut before = self.order.day;
        history.clear();
        for _ in 0..n {
            let Some(next) = self.next_day(one.number, low, before, history) else {
                return Err(BookFault::ShortHistory {
                    resource: one.number,
                    found: history.len() as u32,
                });
            };
            before = next;
        }
        Ok(())
    }
}
