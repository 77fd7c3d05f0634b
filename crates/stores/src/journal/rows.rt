// Rows of a journal in its bytes.
ghost use Rattle.std.specs.Prelude.{◌≡◌, ℕ, ◌+◌, ◌-◌, ◌*◌, ◌<◌, ◌≤◌, List, ◌∷◌, ◌++◌, length, take, drop, replicate, Some, None, filter, MatchOption};
ghost use Rattle.metering.specs.Curves.{curve_of};
ghost use Rattle.stores.specs.Journals.{memory_of, rows_of, row_of};
ghost use Rattle.stores.specs.Rows.{two, reading_bytes, row_bytes, written, word_at, reading_from, day_from, row_at, rows_in, is_of, held_in, since};

use crate::journal::Journal;
use crate::word::{reading_from, word_of};
use metering::curve::Curve;
use metering::reading::Reading;

// The bytes of a row: resource, day, 96 readings of 4 bytes.
pub(super) const ROW: usize = 387;

fn day_at(bytes: &[u8], at: usize) -> u32
    requires { at + 387 ≤ length bytes.now }
    ensures { result ≡ day_from bytes.now at }
{
    u32::from(u16::from_be_bytes([bytes[at + 1], bytes[at + 2]]))
}

fn resource_at(bytes: &[u8], at: usize) -> u32
    requires { at + 387 ≤ length bytes.now }
    ensures { result ≡ (row_at bytes.now at).resource }
{
    u32::from(bytes[at])
}

// Whether the row that begins here has this resource and day.
fn is_of(bytes: &[u8], at: usize, resource: u32, day: u32) -> bool
    requires { at + 387 ≤ length bytes.now }
    ensures { result ≡ is_of resource day (row_at bytes.now at) }
{
    resource_at(bytes, at) == resource && day_at(bytes, at) == day
}

pub(super) fn reading_at(bytes: &[u8], at: usize) -> Reading
    requires { at + 4 ≤ length bytes.now }
    ensures { result ≡ reading_from (word_at bytes.now at) }
{
    reading_from(i32::from_be_bytes([bytes[at], bytes[at + 1], bytes[at + 2], bytes[at + 3]]))
}

// The whole curve of the row that begins here.
pub(super) fn curve_at(bytes: &[u8], at: usize) -> Curve
    requires { at + 387 ≤ length bytes.now }
    ensures { result ≡ curve_of (row_at bytes.now at).readings }
{
    Curve::from_fn(|q| reading_at(bytes, at + 3 + 4 * q))
}

// Rows by their number and not by `chunks_exact(ROW)`: what the bytes mean is said of the row of a number.
impl Journal {
    // Which row has this resource and day: looked for from both ends in turn, since curves are put in either direction of time,
    // and what was put first or last is to be found soon.
    pub(super) fn find_row(&self, resource: u32, day: u32) -> Option<usize>
        ensures { MatchOption result (held_in (rows_of self.now) resource day ≡ None) (λ i. (i < self.now.rows) × (held_in (rows_of self.now) resource day ≡ Some (curve_of (row_at (memory_of self.now) (387 * i)).readings))) }
    {
        let bytes = self.bytes.as_slice();
        for first in 0..self.rows.div_ceil(2) {
            let last = self.rows - 1 - first;
            // With `|` and not `||`: most rows are of other resources, and so one jump passes two of them.
            let either = (resource_at(bytes, ROW * last) == resource)
                | (resource_at(bytes, ROW * first) == resource);
            if either {
                if is_of(bytes, ROW * last, resource, day) {
                    return Some(last);
                }
                if is_of(bytes, ROW * first, resource, day) {
                    return Some(first);
                }
            }
        }
        None
    }

    // How many rows are for this day or a later one.
    pub(super) fn count_from(&self, day: u32) -> u32
        ensures { result ≡ length (filter (since day) (rows_of self.now)) }
    {
        let bytes = self.bytes.as_slice();
        // A sum and no count of those that pass: a build then takes several rows at once.
        (0..self.rows)
            .map(|i| u32::from(day_at(bytes, ROW * i) >= day))
            .sum()
    }
}

fn put_reading(row: &mut [u8], at: usize, reading: Reading)
    requires { at + 4 ≤ length row.old }
    ensures { row.new ≡ take at row.old ++ (reading_bytes reading ++ drop (at + 4) row.old) }
{
    row[at..at + 4].copy_from_slice(&word_of(reading).to_be_bytes());
}

fn put_head(row: &mut [u8], resource: u8, day: u16)
    requires { 3 ≤ length row.old }
    ensures { row.new ≡ (resource ∷ two day) ++ drop 3 row.old }
{
    row[0] = resource;
    row[1..3].copy_from_slice(&day.to_be_bytes());
}

fn write_row(row: &mut [u8], resource: u8, day: u16, curve: &Curve)
    requires { length row.old ≡ 387 }
    ensures { row.new ≡ row_bytes (row_of resource day curve.now) }
{
    put_head(row, resource, day);
    // not `chunks_exact_mut(4)`: an invariant cannot name what was written through those borrows
    for (i, reading) in curve.readings().iter().enumerate() {
        put_reading(row, 3 + 4 * i, *reading);
    }
}

// A row into the middle of the memory; the bytes before and after stay.
pub(super) fn append_row(bytes: &mut [u8], at: usize, resource: u8, day: u16, curve: &Curve)
    requires { at + 387 ≤ length bytes.old }
    ensures { bytes.new ≡ take at bytes.old ++ (row_bytes (row_of resource day curve.now) ++ drop (at + 387) bytes.old) }
{
    write_row(&mut bytes[at..at + ROW], resource, day, curve);
}

// Removes the rows under this day: the others move together in unchanged order, and what is freed is zeroed. How many are left.
pub(super) fn drop_rows(bytes: &mut [u8], rows: usize, day: u32) -> usize
    requires room { 387 * rows ≤ length bytes.old }
    requires laid { take (387 * rows) bytes.old ≡ written (rows_in bytes.old rows) }
    ensures count { result ≡ length (filter (since day) (rows_in bytes.old rows)) }
    ensures few { result ≤ rows }
    ensures memory { bytes.new ≡ written (filter (since day) (rows_in bytes.old rows)) ++ (replicate (387 * rows - 387 * result) 0 ++ drop (387 * rows) bytes.old) }
{
    // A loop by index, since a chain over the rows would borrow the bytes that they move in.
    let mut left = 0;
    for i in 0..rows {
        if day_at(bytes, ROW * i) >= day {
            bytes.copy_within(ROW * i..ROW * i + ROW, ROW * left);
            left += 1;
        }
    }
    bytes[ROW * left..ROW * rows].fill(0);
    left
}
