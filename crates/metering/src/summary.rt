// What a curve amounts to over its day.
ghost use Rattle.std.specs.Prelude.{◌≡◌};
ghost use Rattle.metering.specs.Summary.{total_of, further_by, peaked, Furthest};

use crate::curve::Curve;
use crate::reading::Reading;

// A measured reading and its quarter.
#[derive(Clone, Copy, PartialEq, Eq, Debug)]
pub struct Peak {
    pub quarter: u32,
    pub wh: i32,
}

// Further upward is larger, further downward smaller.
pub fn is_further(upward: bool, a: i32, b: i32) -> bool
    ensures { result ≡ further_by upward a b }
{
    if upward { b < a } else { a < b }
}

// The peak so far, after one more reading.
fn peak_with(best: Option<Peak>, upward: bool, quarter: u32, reading: Reading) -> Option<Peak>
    ensures { result ≡ peaked best upward quarter reading }
{
    let Reading::Measured(wh) = reading else {
        return best;
    };
    match best {
        Some(peak) if !is_further(upward, wh, peak.wh) => Some(peak),
        _ => Some(Peak { quarter, wh }),
    }
}

impl Curve {
    // The sum of the measured readings, in Wh.
    pub fn total(&self) -> i32
        ensures { result ≡ total_of self.now.readings }
    {
        // A loop, since a chain's `sum` of signed numbers leaves open that it fits.
        let mut total = 0;
        for reading in self.readings() {
            total += reading.counted();
        }
        total
    }

    // The measured reading that none is further than, the first of equals; nothing where all are estimated.
    pub fn furthest(&self, upward: bool) -> Option<Peak>
        ensures { Furthest upward self.now.readings 96 result }
    {
        let mut best = None;
        for (q, reading) in self.readings().iter().enumerate() {
            best = peak_with(best, upward, q as u32, *reading);
        }
        best
    }
}
