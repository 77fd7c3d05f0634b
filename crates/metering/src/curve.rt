// A day's readings at one resource.
ghost use Rattle.std.specs.Prelude.{◌≡◌, ℕ, ◌<◌, true, length, replicate, if◌then◌else◌};
ghost use Rattle.metering.specs.declared.reading.Reading.TheVariants.{Estimated};
ghost use Rattle.metering.specs.Readings.{within, placed, reading_in, reading_at};

use crate::reading::Reading;

// Every curve that exists has 96 readings, each estimated or within a million Wh either way.
#[derive(Clone, Copy)]
pub struct Curve {
    readings: [Reading; 96],
    ghost whole: { length readings ≡ 96 },
    ghost limited: { (k : ℕ) → k < 96 → within (reading_in readings k) ≡ true },
}

// The reading, or the other where it is beyond the limits.
fn within_or(reading: Reading, other: Reading) -> Reading
    ensures { result ≡ (if within reading then reading else other) }
{
    if reading.is_within() { reading } else { other }
}

impl Curve {
    // Every quarter estimated: what filling starts from.
    pub fn blank() -> Curve
        ensures { result.readings ≡ replicate 96 Estimated }
    {
        Curve {
            readings: [Reading::Estimated; 96],
        }
    }

    // One quarter's reading; nothing changes where it is beyond the limits or the day has no such quarter.
    pub fn place(&mut self, quarter: usize, reading: Reading)
        ensures { self.new.readings ≡ placed self.old.readings quarter reading }
    {
        if quarter < 96 {
            // Written in either case, since a write without a branch takes half the time.
            let reading = within_or(reading, self.readings[quarter]);
            self.readings[quarter] = reading;
        }
    }

    pub fn readings(&self) -> &[Reading]
        ensures { result.now ≡ self.now.readings }
    {
        &self.readings
    }

    // Nothing where the day has no such quarter.
    pub fn reading(&self, quarter: u32) -> Option<Reading>
        ensures { result ≡ reading_at self.now.readings quarter }
    {
        self.readings.get(quarter as usize).copied()
    }
}
