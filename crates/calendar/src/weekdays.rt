// The kind that a day has by its weekday.
ghost use Rattle.std.specs.Prelude.{◌≡◌};
ghost use Rattle.calendar.specs.Weekdays.{number_of, weekday_kind, Week};

// Kinds have numbers that can be added.
#[derive(Clone, Copy, PartialEq, Eq, Debug)]
pub enum DayKind {
    Working = 1,
    Saturday = 2,
    Sunday = 4,
}

impl DayKind {
    pub fn number(self) -> u8
        ensures { result ≡ number_of self }
    {
        self as u8
    }
}

#[tactic(auto, using(crate::proofs::Promises::week))]
pub fn weekday_kind(day: u32) -> DayKind
    ensures value { number_of result ≡ weekday_kind day }
    ensures week { Week }
{
    match day % 7 {
        0 => DayKind::Saturday,
        1 => DayKind::Sunday,
        _ => DayKind::Working,
    }
}
