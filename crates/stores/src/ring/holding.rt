// A ring as a store of curves.
ghost use Rattle.std.specs.Prelude.{◌≡◌, ◌+◌, ◌≤◌, false, is_ok};
ghost use Rattle.stores.specs.Model.{put_answer, after_put, drop_answer, after_drop, cut_under};
ghost use Rattle.stores.specs.Slots.{ring_look, Means};
ghost use Rattle.stores.specs.Ring.{words_of, model_of};
ghost use Rattle.stores.specs.Holding.{ring_bounded};
ghost use Rattle.stores.specs.Tested.{heads_each};

use crate::fault::StoreFault;
use crate::ring::Ring;
use crate::store::{LAST_DAY, Store, admit, check_day};
use metering::curve::Curve;
use metering::reading::Reading;

impl Ring {
    // The floor rises to this day, and the slots of the days under it are emptied.
    fn raise_to(&mut self, to: u32)
        requires rises { self.old.floor ≤ to }
        requires last { to ≤ 36524 }
        ensures floor { self.new.floor ≡ to }
        ensures means { Means self.old.grid.rows self.old.grid.span to (to + self.old.grid.span) (words_of self.new) (cut_under to (ring_look self.old.grid.rows self.old.grid.span (words_of self.old))) }
        ensures idle { self.old.grid.rows ≡ 0 → words_of self.new ≡ words_of self.old }
        ensures same { (self.new.grid.rows ≡ self.old.grid.rows) × (self.new.grid.span ≡ self.old.grid.span) }
    {
        self.grid.clear_days(self.floor, to);
        self.floor = to;
    }
}

impl Store for Ring {
    ghost model = { model_of };

    ghost bounded = { λ s.
        ring_bounded s.grid.rows s.grid.span s.floor (words_of s) s.grid.spans.0 (heads_each s.grid.rows s.grid.span s.floor (s.floor + s.grid.span) (words_of s) s.heads)
        s.grid.few s.grid.spans.1 s.low };

    fn width(&self) -> u32 {
        self.grid.rows.max(1)
    }

    fn capacity(&self) -> u32 {
        self.grid.rows * self.grid.span
    }

    fn span(&self) -> u32 {
        self.grid.span
    }

    fn floor(&self) -> u32 {
        self.floor
    }

    fn held_from(&self, day: u32) -> u32 {
        let end = (self.floor + self.grid.span).min(LAST_DAY + 1);
        self.grid.count(day.max(self.floor), end)
    }

    fn holds(&self, resource: u32, day: u32) -> bool {
        self.grid.find(resource, day).is_some()
    }

    fn reading(&self, resource: u32, day: u32, quarter: u32) -> Option<Reading> {
        if quarter >= 96 {
            return None;
        }
        let base = self.grid.find(resource, day)?;
        Some(self.grid.reading_at(base, quarter as usize))
    }

    fn curve(&self, resource: u32, day: u32) -> Option<Curve> {
        let base = self.grid.find(resource, day)?;
        Some(self.grid.curve_at(base))
    }

    fn put(&mut self, resource: u32, day: u32, curve: &Curve) -> Result<(), StoreFault>
        ensures answer { result ≡ put_answer (model_of self.old) resource day }
        ensures after { model_of self.new ≡ after_put (model_of self.old) resource day curve.now }
        ensures refused { is_ok result ≡ false → words_of self.new ≡ words_of self.old }
    {
        admit(
            self.width(),
            self.floor,
            || self.holds(resource, day),
            resource,
            day,
        )?;
        if self.grid.rows == 0 {
            return Err(StoreFault::Full { resource, day });
        }
        let floor = self.floor.max((day + 1).saturating_sub(self.grid.span));
        self.raise_to(floor);
        self.grid.write(resource, day, curve);
        Ok(())
    }

    fn drop_before(&mut self, day: u32) -> Result<(), StoreFault>
        ensures answer { result ≡ drop_answer day }
        ensures after { model_of self.new ≡ after_drop (model_of self.old) day }
        ensures refused { is_ok result ≡ false → words_of self.new ≡ words_of self.old }
        ensures idle { (model_of self.old).capacity ≡ 0 → words_of self.new ≡ words_of self.old }
    {
        check_day(day)?;
        self.raise_to(self.floor.max(day));
        Ok(())
    }
}
