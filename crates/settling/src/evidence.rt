// The evidence of one resource: nineteen words.
ghost use Rattle.std.specs.Prelude.{◌≡◌, pos, slice_index_or};
ghost use Rattle.settling.specs.History.{days_of};
ghost use Rattle.settling.specs.Evidence.{history_row};

use crate::history_day::History;
use std::array;

// 1, the number of days, the days latest first in fifteen words, the lead sums on the day and over the history.
fn word(history: &History, lead_now: i32, lead_then: i32, place: usize) -> i32
    ensures { result ≡ slice_index_or (history_row (days_of history.now.items) lead_now lead_then) place (pos 0) }
{
    match place {
        0 => 1,
        1 => history.len() as i32,
        17 => lead_now,
        18 => lead_then,
        _ => history
            .as_slice()
            .get(place - 2)
            .map_or(0, |day| day.day as i32),
    }
}

pub(crate) fn history_row(history: &History, lead_now: i32, lead_then: i32) -> [i32; 19]
    ensures { result ≡ history_row (days_of history.now.items) lead_now lead_then }
{
    array::from_fn(|place| word(history, lead_now, lead_then, place))
}
