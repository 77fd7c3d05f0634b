// What every store of curves does, said by its meaning alone.
ghost use Rattle.std.specs.Prelude.{◌≡◌, ℕ, Bool, false, is_some, Ok};
ghost use Rattle.stores.specs.Model.{StoreModel, Bounded, held_from, put_answer, after_put, drop_answer, after_drop, reading_held};
ghost use Rattle.stores.specs.Verdicts.{admission};

use crate::fault::StoreFault;
use metering::curve::Curve;
use metering::reading::Reading;

// The last day that a store can hold.
pub const LAST_DAY: u32 = 36_524;

pub trait Store {
    ghost model: { Self → StoreModel };

    fn width(&self) -> u32
        ensures { result ≡ (model self.now).width };

    fn capacity(&self) -> u32
        ensures { result ≡ (model self.now).capacity };

    fn span(&self) -> u32
        ensures { result ≡ (model self.now).span };

    fn floor(&self) -> u32
        ensures { result ≡ (model self.now).floor };

    // How many curves are held for this day and later ones.
    fn held_from(&self, day: u32) -> u32
        ensures { result ≡ held_from (model self.now) day };

    fn holds(&self, resource: u32, day: u32) -> bool
        ensures { result ≡ is_some ((model self.now).look resource day) };

    // Nothing where no curve is held or the day has no such quarter.
    fn reading(&self, resource: u32, day: u32, quarter: u32) -> Option<Reading>
        ensures { result ≡ reading_held ((model self.now).look resource day) quarter };

    // The whole curve at once: one look-up for all the readings of a day.
    fn curve(&self, resource: u32, day: u32) -> Option<Curve>
        ensures { result ≡ (model self.now).look resource day };

    fn put(&mut self, resource: u32, day: u32, curve: &Curve) -> Result<(), StoreFault>
        ensures answer { result ≡ put_answer (model self.old) resource day }
        ensures after { model self.new ≡ after_put (model self.old) resource day curve.now };

    // The floor rises to this day, if it was lower; curves under it go.
    fn drop_before(&mut self, day: u32) -> Result<(), StoreFault>
        ensures answer { result ≡ drop_answer day }
        ensures after { model self.new ≡ after_drop (model self.old) day };

    ghost bounded: { (s : Self) → Bounded (model s) };
}

// The calendar's test alone.
pub(crate) fn check_day(day: u32) -> Result<(), StoreFault>
    ensures { result ≡ drop_answer day }
{
    if day > LAST_DAY {
        return Err(StoreFault::Day);
    }
    Ok(())
}

// What every store tests before a put; whether there is room is for each to say. Numbers and a closure but no store, since a put that
// handed its own store on would be called by itself. Whether the curve is held is asked last, and only where nothing else refuses, since the
// answer may take a search of the whole store.
pub(crate) fn admit<F: FnOnce() -> bool>(
    width: u32,
    floor: u32,
    is_held: F,
    resource: u32,
    day: u32,
) -> Result<(), StoreFault>
    requires { F.pre is_held }
    ensures { (held : Bool) × (admission width floor false resource day ≡ Ok tt → F.post is_held held) × (result ≡ admission width floor held resource day) }
{
    check_day(day)?;
    if resource >= width {
        return Err(StoreFault::Resource { resource, day });
    }
    if day < floor {
        return Err(StoreFault::UnderFloor { resource, day });
    }
    if is_held() {
        return Err(StoreFault::Held { resource, day });
    }
    Ok(())
}
