// A journal as a store of curves.
ghost use Rattle.std.specs.Prelude.{◌≡◌, ℕ, true, false, [], ◌∷◌, ◌++◌, length, is_some, is_ok, if◌then◌else◌, filter};
ghost use Rattle.stores.specs.Model.{held_from, put_answer, after_put, drop_answer, after_drop, reading_held};
ghost use Rattle.stores.specs.Rows.{layout, since};
ghost use Rattle.stores.specs.Journals.{memory_of, rows_of, model_of, row_of, rewritten};
ghost use Rattle.stores.specs.Meant;

use crate::fault::StoreFault;
use crate::journal::Journal;
use crate::journal::rows::{ROW, append_row, curve_at, drop_rows, reading_at};
use crate::store::{LAST_DAY, Store, admit, check_day};
use metering::curve::Curve;
use metering::reading::Reading;

impl Store for Journal {
    ghost model = { model_of };

    ghost bounded = { λ s. Meant.bounded s };

    fn width(&self) -> u32 {
        self.width
    }

    fn capacity(&self) -> u32 {
        self.capacity
    }

    fn span(&self) -> u32 {
        if self.capacity == 0 { 1 } else { LAST_DAY + 1 }
    }

    fn floor(&self) -> u32 {
        self.floor
    }

    fn held_from(&self, day: u32) -> u32 {
        self.count_from(day)
    }

    fn holds(&self, resource: u32, day: u32) -> bool {
        self.find_row(resource, day).is_some()
    }

    fn reading(&self, resource: u32, day: u32, quarter: u32) -> Option<Reading> {
        let i = self.find_row(resource, day)?;
        if quarter >= 96 {
            return None;
        }
        Some(reading_at(self.bytes.as_slice(), ROW * i + 3 + 4 * quarter as usize))
    }

    fn curve(&self, resource: u32, day: u32) -> Option<Curve> {
        let i = self.find_row(resource, day)?;
        Some(curve_at(self.bytes.as_slice(), ROW * i))
    }

    // A put never raises the floor, since the span is the whole calendar: so all rows count against the capacity.
    fn put(&mut self, resource: u32, day: u32, curve: &Curve) -> Result<(), StoreFault>
        ensures answer { result ≡ put_answer (model_of self.old) resource day }
        ensures after { model_of self.new ≡ after_put (model_of self.old) resource day curve.now }
        ensures rows { rows_of self.new ≡ (if is_ok result then rows_of self.old ++ (row_of resource day curve.now ∷ []) else rows_of self.old) }
        ensures memory { memory_of self.new ≡ (if is_ok result then layout (rows_of self.old ++ (row_of resource day curve.now ∷ [])) (length (memory_of self.old)) else memory_of self.old) }
    {
        admit(
            self.width,
            self.floor,
            || self.holds(resource, day),
            resource,
            day,
        )?;
        let rows = self.rows;
        if rows >= self.capacity as usize {
            return Err(StoreFault::Full { resource, day });
        }
        append_row(
            self.bytes.as_mut_slice(),
            ROW * rows,
            resource as u8,
            day as u16,
            curve,
        );
        self.rows = rows + 1;
        Ok(())
    }

    fn drop_before(&mut self, day: u32) -> Result<(), StoreFault>
        ensures answer { result ≡ drop_answer day }
        ensures after { model_of self.new ≡ after_drop (model_of self.old) day }
        ensures rows { rows_of self.new ≡ (if is_ok result then filter (since day) (rows_of self.old) else rows_of self.old) }
        ensures memory { memory_of self.new ≡ (if is_ok result then rewritten self.old.capacity (memory_of self.old) (filter (since day) (rows_of self.old)) else memory_of self.old) }
    {
        check_day(day)?;
        let floor = self.floor.max(day);
        self.rows = drop_rows(self.bytes.as_mut_slice(), self.rows, day);
        self.floor = floor;
        Ok(())
    }
}
