// The slots of a ring in its words: for each resource, one for each remainder of a day by the span.
ghost use Rattle.std.specs.Prelude.{◌≡◌, ℕ, ◌+◌, ◌*◌, ◌%◌, ◌<◌, ◌≤◌, true, length, vec_len, if◌then◌else◌, None, MatchOption, nat_le};
ghost use Rattle.stores.specs.Model.{cut_under, sum_below, one};
ghost use Rattle.stores.specs.Words.{reading_from, curve_from};
ghost use Rattle.stores.specs.Slots.{Found, slot_at, head_at, word_at, is_day, ring_look, words_fit, HeadsFit, SlotWritten, SlotCleared, DayCleared, Means};

use crate::word::{reading_from, word_of};
use metering::curve::Curve;
use metering::reading::Reading;

// A slot: the day plus 1, then the readings.
pub(super) const SLOT: usize = 97;

fn write_slot(words: &mut [i32], base: usize, day: u32, curve: &Curve)
    requires room { base + 97 ≤ length words.old }
    requires day { day ≤ 36524 }
    ensures { SlotWritten words.old words.new base day curve.now }
{
    words[base] = day as i32 + 1;
    // not `iter_mut().zip(..)`: an invariant cannot name what was written through those borrows
    for (q, reading) in curve.readings().iter().enumerate() {
        words[base + 1 + q] = word_of(*reading);
    }
}

fn empty_slot(words: &mut [i32], base: usize)
    requires { base + 97 ≤ length words.old }
    ensures { SlotCleared words.old words.new base }
{
    words[base..base + SLOT].fill(0);
}

// One row of slots for each resource; no rows where making was refused.
#[derive(Drop)]
pub(super) struct Grid {
    pub(super) words: Vec<i32>,
    pub(super) rows: u32,
    pub(super) span: u32,
    ghost few: { rows ≤ 32 },
    ghost spans: { (1 ≤ span) × (span ≤ 400) },
    ghost room: { 97 * (rows * span) ≤ vec_len words },
    ghost exact: { 0 < rows → vec_len words ≡ 97 * (rows * span) },
    ghost readings: { words_fit rows span words.items ≡ true },
}

impl Grid {
    // Where the slot of a resource and a day starts.
    fn slot(&self, resource: u32, day: u32) -> usize
        requires { resource < self.now.rows }
        ensures is { result ≡ slot_at self.now.span resource (day % self.now.span) }
        ensures within { result + 97 ≤ length self.now.words.items }
    {
        SLOT * (resource as usize * self.span as usize + (day % self.span) as usize)
    }

    // Whether the slot that starts here holds this day.
    fn is_day(&self, base: usize, day: u32) -> bool
        requires { base < length self.now.words.items }
        ensures { result ≡ is_day (head_at self.now.words.items base) day }
    {
        i64::from(self.words[base]) == i64::from(day) + 1
    }

    // Where the slot of a resource and a day starts, if it holds that day.
    pub(super) fn find(&self, resource: u32, day: u32) -> Option<usize>
        ensures { MatchOption result (ring_look self.now.rows self.now.span self.now.words.items resource day ≡ None) (λ base. Found self.now.rows self.now.span self.now.words.items resource day base) }
    {
        if resource >= self.rows {
            return None;
        }
        let base = self.slot(resource, day);
        self.is_day(base, day).then_some(base)
    }

    // The curve of the slot that starts here.
    pub(super) fn curve_at(&self, base: usize) -> Curve
        requires { base + 97 ≤ length self.now.words.items }
        ensures { result ≡ curve_from (word_at self.now.words.items base) }
    {
        Curve::from_fn(|q| self.reading_at(base, q))
    }

    pub(super) fn reading_at(&self, base: usize, quarter: usize) -> Reading
        requires room { base + 97 ≤ length self.now.words.items }
        requires quarter { quarter < 96 }
        ensures { result ≡ reading_from (word_at self.now.words.items base quarter) }
    {
        reading_from(self.words[base + 1 + quarter])
    }

    // How many days from `first` on and before `end` a resource holds.
    fn count_row(&self, resource: u32, first: u32, end: u32) -> u32
        requires resource { resource < self.now.rows }
        requires end { end ≤ 36525 }
        ensures is { result ≡ sum_below (λ k. (if nat_le first k then one (ring_look self.now.rows self.now.span self.now.words.items resource k) else 0)) end }
        ensures few { result ≤ end }
    {
        let held = (first..end).filter(|&day| self.is_day(self.slot(resource, day), day));
        held.count() as u32
    }

    pub(super) fn count(&self, first: u32, end: u32) -> u32
        requires { end ≤ 36525 }
        ensures { result ≡ sum_below (λ r. sum_below (λ k. (if nat_le first k then one (ring_look self.now.rows self.now.span self.now.words.items r k) else 0)) end) self.now.rows }
    {
        (0..self.rows)
            .map(|resource| self.count_row(resource, first, end))
            .sum()
    }

    fn clear(&mut self, resource: u32, day: u32)
        requires { resource < self.old.rows }
        ensures cleared { SlotCleared self.old.words.items self.new.words.items (slot_at self.old.span resource (day % self.old.span)) }
        ensures same { (self.new.rows ≡ self.old.rows) × (self.new.span ≡ self.old.span) }
    {
        let base = self.slot(resource, day);
        empty_slot(self.words.as_mut_slice(), base);
    }

    // Empties the slots of one day.
    fn clear_day(&mut self, day: u32)
        ensures cleared { DayCleared self.old.rows self.old.rows self.old.span day self.old.words.items self.new.words.items }
        ensures idle { self.old.rows ≡ 0 → self.new.words.items ≡ self.old.words.items }
        ensures same { (self.new.rows ≡ self.old.rows) × (self.new.span ≡ self.old.span) }
    {
        // A loop, since each turn is a call that writes: nothing is counted or collected.
        for resource in 0..self.rows {
            self.clear(resource, day);
        }
    }

    // Empties the slots of all days before `to`; of those that are held none is before `floor` or a span later.
    pub(super) fn clear_days(&mut self, floor: u32, to: u32)
        requires rises { floor ≤ to }
        requires last { to ≤ 36524 }
        requires heads { HeadsFit self.old.rows self.old.span floor (floor + self.old.span) self.old.words.items }
        ensures means { Means self.old.rows self.old.span to (to + self.old.span) self.new.words.items (cut_under to (ring_look self.old.rows self.old.span self.old.words.items)) }
        ensures idle { self.old.rows ≡ 0 → self.new.words.items ≡ self.old.words.items }
        ensures same { (self.new.rows ≡ self.old.rows) × (self.new.span ≡ self.old.span) }
    {
        let end = to.min(floor + self.span);
        // A loop, as in `clear_day`.
        for day in floor..end {
            self.clear_day(day);
        }
    }

    // Writes a curve over its slot.
    pub(super) fn write(&mut self, resource: u32, day: u32, curve: &Curve)
        requires resource { resource < self.old.rows }
        requires day { day ≤ 36524 }
        ensures written { SlotWritten self.old.words.items self.new.words.items (slot_at self.old.span resource (day % self.old.span)) day curve.now }
        ensures same { (self.new.rows ≡ self.old.rows) × (self.new.span ≡ self.old.span) }
    {
        let base = self.slot(resource, day);
        write_slot(self.words.as_mut_slice(), base, day, curve);
    }
}
