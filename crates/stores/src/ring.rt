// A ring of curves: for each resource the days of one span, each in the slot of its remainder.
ghost use Rattle.std.specs.Prelude.{◌≡◌, ◌+◌, ◌≤◌, true};
ghost use Rattle.stores.specs.Slots.{heads_fit};

mod grid;
mod holding;
mod making;

use self::grid::Grid;
pub use self::making::ring_fits;

// No slot holds a day before the floor, or one that is a span after it.
#[derive(Drop)]
pub struct Ring {
    grid: Grid,
    floor: u32,
    ghost low: { floor ≤ 36524 },
    ghost heads: { heads_fit grid.rows grid.span floor (floor + grid.span) grid.words.items ≡ true },
}
