// Making feasts of days, and asking whether a day is one.
ghost use Rattle.std.specs.Prelude.{◌≡◌, ◌≤◌, [], length, take, is_some, IfSome};
ghost use Rattle.ledger.specs.Feasts.{is_among, days_of};
ghost use Rattle.ledger.specs.Filling.{are_feasts, rise_from};

use crate::feasts::Feasts;
use stores::store::LAST_DAY;

// In one pass: each day against the limit and the day before.
fn are_rising(days: &[u32]) -> bool
    ensures { result ≡ rise_from 0 days.now }
{
    let mut first = 0;
    for day in days {
        if *day < first || *day > LAST_DAY {
            return false;
        }
        first = *day + 1;
    }
    true
}

// The days at the front of a table.
fn table_of(days: &[u32]) -> [u32; 32]
    requires { length days.now ≤ 32 }
    ensures held { take (length days.now) result ≡ days.now }
    ensures places { length result ≡ 32 }
{
    let mut table = [0; 32];
    table[..days.len()].copy_from_slice(days);
    table
}

impl Feasts {
    pub(crate) fn none() -> Feasts
        ensures { days_of result ≡ [] }
    {
        Feasts {
            days: [0; 32],
            count: 0,
        }
    }

    pub(crate) fn new(days: &[u32]) -> Option<Feasts>
        ensures fit { is_some result ≡ are_feasts days.now }
        ensures held { IfSome result (λ feasts. days_of feasts ≡ days.now) }
    {
        if days.len() > 32 || !are_rising(days) {
            return None;
        }
        Some(Feasts {
            days: table_of(days),
            count: days.len(),
        })
    }

    pub(crate) fn contains(&self, day: u32) -> bool
        ensures { result ≡ is_among (days_of self.now) day }
    {
        self.days[..self.count].contains(&day)
    }
}
