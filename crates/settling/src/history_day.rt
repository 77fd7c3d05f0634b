// A day of a history, with the curve held for it.
ghost use Rattle.std.specs.Prelude.{◌≤◌};

use arrayvec::ArrayVec;
use metering::curve::Curve;

#[derive(Clone, Copy)]
pub(crate) struct HistoryDay {
    pub day: u32,
    pub curve: Curve,
    ghost known: { day ≤ 36524 },
}

// A vector of fixed capacity is made of defaults.
impl Default for HistoryDay {
    fn default() -> HistoryDay {
        HistoryDay {
            day: 0,
            curve: Curve::blank(),
        }
    }
}

// Latest first; no rulebook asks for more than fifteen.
pub(crate) type History = ArrayVec<HistoryDay, 15>;
