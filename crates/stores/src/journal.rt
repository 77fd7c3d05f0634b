// A journal: curves as rows of bytes, one after another in the order of their putting, in a memory of its own.
ghost use Rattle.std.specs.Prelude.{◌≡◌, ◌-◌, ◌*◌, ◌<◌, ◌≤◌, true, length, take, drop, replicate};
ghost use Rattle.std.specs.List.{list_all};
ghost use Rattle.stores.specs.Rows.{written, rows_in, apart, fine};

mod holding;
mod making;
mod rows;

pub use self::making::journal_fits;

// The first `rows` rows stand at the start of the bytes. A journal of capacity 0 has no rows, and leaves its bytes alone;
// in any other the bytes after the rows are 0.
#[derive(Drop)]
pub struct Journal {
    bytes: Vec<u8>,
    width: u32,
    capacity: u32,
    floor: u32,
    rows: usize,
    ghost wide: { 1 ≤ width },
    ghost narrow: { width ≤ 32 },
    ghost most: { capacity ≤ 12800 },
    ghost low: { floor ≤ 36524 },
    ghost few: { rows ≤ capacity },
    ghost room: { 387 * capacity ≤ length bytes.items },
    ghost laid: { take (387 * rows) bytes.items ≡ written (rows_in bytes.items rows) },
    ghost blank: { 0 < capacity → drop (387 * rows) bytes.items ≡ replicate (length bytes.items - 387 * rows) 0 },
    ghost single: { apart (rows_in bytes.items rows) ≡ true },
    ghost good: { list_all (fine width floor) (rows_in bytes.items rows) ≡ true },
}
