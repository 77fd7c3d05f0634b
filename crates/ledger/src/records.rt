// What a book keeps: resources, orders with their results, declarations.
ghost use Rattle.std.specs.Prelude.{◌≡◌, ◌<◌, ◌≤◌, MatchResult};
ghost use Rattle.ledger.specs.declared.fault.BookFault.TheVariants.{Number};
ghost use Rattle.ledger.specs.Book.{direction_of};
ghost use Rattle.ledger.specs.Settling.{direction_number};

use crate::fault::BookFault;

// One hotel's pools: its metering point, its choice of rule and its available power in kW.
#[derive(Clone, Copy, PartialEq, Eq, Debug, Default)]
pub struct Resource {
    pub pod: [u8; 14],
    pub choice: u8,
    pub power: u32,
}

#[derive(Clone, Copy, PartialEq, Eq, Debug, Default)]
pub enum Direction {
    #[default]
    Up,
    Down,
}

// A direction is told to a book as 0, upward, or 1, downward.
impl TryFrom<u32> for Direction {
    type Error = BookFault;

    ghost try_from_gives = { λ n r. MatchResult r (λ d. (n ≤ 1) × (d ≡ direction_of n)) (λ e. (1 < n) × (e ≡ Number)) };

    fn try_from(number: u32) -> Result<Direction, BookFault> {
        match number {
            0 => Ok(Direction::Up),
            1 => Ok(Direction::Down),
            _ => Err(BookFault::Number),
        }
    }
}

impl From<Direction> for u8 {
    ghost from_gives = { λ d n. n ≡ direction_number d };

    fn from(direction: Direction) -> u8 {
        match direction {
            Direction::Up => 0,
            Direction::Down => 1,
        }
    }
}

// Quarters q0 to q1 of a day, q1 excluded; ordered power in kW.
#[derive(Clone, Copy, PartialEq, Eq, Debug, Default)]
pub struct Order {
    pub day: u32,
    pub q0: u32,
    pub q1: u32,
    pub direction: Direction,
    pub qr: u32,
}

// What settling an order gives: the sum of the contributions, then, in Wh, delivered, ordered, remunerated and
// paid energy, and the line pay in cents.
#[derive(Clone, Copy, PartialEq, Eq, Debug)]
pub struct Outcome {
    pub sum: i64,
    pub pta: u64,
    pub eda: u64,
    pub seta: u64,
    pub paid: u64,
    pub pay: u64,
}

#[derive(Clone, Copy, PartialEq, Eq, Debug, Default)]
pub struct Booked {
    pub order: Order,
    pub result: Option<Outcome>,
}

// Quarters in which the aggregate is not available.
#[derive(Clone, Copy, PartialEq, Eq, Debug, Default)]
pub struct Declaration {
    pub day: u32,
    pub q0: u32,
    pub q1: u32,
}

// A month: available and offered quarters; energies in Wh; delivery in hundredths of a percent; pay in cents.
#[derive(Clone, Copy, PartialEq, Eq, Debug)]
pub struct Month {
    pub av: u32,
    pub di: u32,
    pub edm: u64,
    pub ptm: u64,
    pub setm: u64,
    pub dpm: u64,
    pub apm: u64,
    pub upm: u64,
    pub pay: u64,
}
