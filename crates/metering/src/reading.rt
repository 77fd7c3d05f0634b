// One quarter of an hour at a meter.
ghost use Rattle.std.specs.Prelude.{◌≡◌};
ghost use Rattle.metering.specs.Readings.{reading_of, within};
ghost use Rattle.metering.specs.Summary.{measured_part};

// The most that a meter injects or draws in a quarter, in Wh.
pub const MOST: u32 = 1_000_000;

// Measured in Wh, injected minus drawn; or estimated, which counts for no number.
#[derive(Clone, Copy, PartialEq, Eq, Debug)]
pub enum Reading {
    Measured(i32),
    Estimated,
}

impl Reading {
    // Estimated, or measured within the limit either way.
    pub fn is_within(self) -> bool
        ensures { result ≡ within self }
    {
        match self {
            // By both ends, not by the absolute value: so a build drops the test where a reading is known to pass.
            Reading::Measured(wh) => (-(MOST as i32)..=MOST as i32).contains(&wh),
            Reading::Estimated => true,
        }
    }

    // What the reading adds to a sum, in Wh.
    pub fn counted(self) -> i32
        ensures { result ≡ measured_part self }
    {
        match self {
            Reading::Measured(wh) => wh,
            Reading::Estimated => 0,
        }
    }
}

// The reading of a quarter; none where an energy is beyond its limit, under either mark.
pub fn reading_of(injected: u32, drawn: u32, estimated: bool) -> Option<Reading>
    ensures { result ≡ reading_of injected drawn estimated }
{
    if injected > MOST || drawn > MOST {
        return None;
    }
    if estimated {
        return Some(Reading::Estimated);
    }
    Some(Reading::Measured(injected as i32 - drawn as i32))
}
