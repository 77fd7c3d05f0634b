// A layer over any store, with the lower of two spans.
ghost use Rattle.std.specs.Prelude.{◌≡◌, ◌≤◌, false, is_ok, if◌then◌else◌};
ghost use Rattle.stores.specs.Model.{put_answer, after_put, drop_answer, after_drop};
ghost use Rattle.stores.specs.Making.{fit_answer};
ghost use Rattle.stores.specs.Keeper.{keeper_fits, kept};
ghost use Rattle.stores.specs.Keeping.{kept_bounded};

use crate::fault::{StoreFault, fit_answer};
use crate::store::{LAST_DAY, Store, admit, check_day};
use metering::curve::Curve;
use metering::reading::Reading;

#[derive(Drop)]
pub struct Keeper<S: Drop> {
    below: S,
    span: u32,
    ghost spans: { (1 ≤ span) × (span ≤ 36525) },
}

// Whether a keeper can have this span.
pub fn keeper_fits(span: u32) -> Result<(), StoreFault>
    ensures { result ≡ fit_answer (keeper_fits span) }
{
    fit_answer((1..=LAST_DAY + 1).contains(&span))
}

impl<S: Drop> Keeper<S> {
    // A span that does not fit gives a keeper of one day.
    pub fn over(below: S, span: u32) -> Keeper<S>
        ensures below { result.below ≡ below }
        ensures span { result.span ≡ (if keeper_fits span then span else 1) }
    {
        let span = if keeper_fits(span).is_ok() { span } else { 1 };
        Keeper { below, span }
    }

    // Gives the store below back.
    pub fn into_below(self) -> S
        ensures { result ≡ self.below }
    {
        let Keeper { below, span: _ } = self;
        below
    }
}

impl<S: Store + Drop> Store for Keeper<S> {
    ghost model = { λ k. kept k.span (S.Store.model k.below) };

    ghost bounded = { λ s. kept_bounded s.span (S.Store.model s.below) s.spans.0 (S.Store.bounded s.below) };

    fn width(&self) -> u32 {
        self.below.width()
    }

    fn capacity(&self) -> u32 {
        self.below.capacity()
    }

    fn span(&self) -> u32 {
        self.span.min(self.below.span())
    }

    fn floor(&self) -> u32 {
        self.below.floor()
    }

    fn held_from(&self, day: u32) -> u32 {
        self.below.held_from(day)
    }

    fn holds(&self, resource: u32, day: u32) -> bool {
        self.below.holds(resource, day)
    }

    fn reading(&self, resource: u32, day: u32, quarter: u32) -> Option<Reading> {
        self.below.reading(resource, day, quarter)
    }

    fn curve(&self, resource: u32, day: u32) -> Option<Curve> {
        self.below.curve(resource, day)
    }

    // All tests come before the drop, so that a refused put changes nothing below.
    fn put(&mut self, resource: u32, day: u32, curve: &Curve) -> Result<(), StoreFault>
        ensures answer { result ≡ put_answer (kept self.old.span (S.Store.model self.old.below)) resource day }
        ensures after { kept self.new.span (S.Store.model self.new.below) ≡ after_put (kept self.old.span (S.Store.model self.old.below)) resource day curve.now }
        ensures refused { is_ok result ≡ false → self.new.below ≡ self.old.below }
        ensures spans { (self.new.span ≡ self.old.span) × ((S.Store.model self.new.below).span ≡ (S.Store.model self.old.below).span) }
    {
        admit(
            self.below.width(),
            self.below.floor(),
            || self.below.holds(resource, day),
            resource,
            day,
        )?;
        let span = self.span.min(self.below.span());
        let floor = self.below.floor().max((day + 1).saturating_sub(span));
        if self.below.held_from(floor) >= self.below.capacity() {
            return Err(StoreFault::Full { resource, day });
        }
        self.below.drop_before(floor)?;
        self.below.put(resource, day, curve)
    }

    fn drop_before(&mut self, day: u32) -> Result<(), StoreFault>
        ensures answer { result ≡ drop_answer day }
        ensures after { kept self.new.span (S.Store.model self.new.below) ≡ after_drop (kept self.old.span (S.Store.model self.old.below)) day }
        ensures refused { is_ok result ≡ false → self.new.below ≡ self.old.below }
        ensures spans { (self.new.span ≡ self.old.span) × ((S.Store.model self.new.below).span ≡ (S.Store.model self.old.below).span) }
    {
        check_day(day)?;
        self.below.drop_before(day)
    }
}
