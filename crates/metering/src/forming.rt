// A curve from three lists.
ghost use Rattle.std.specs.Prelude.{◌≡◌};
ghost use Rattle.metering.specs.Forming.{Forms, formed_by, marked};

use crate::curve::Curve;
use crate::fault::Fault;
use crate::reading::{Reading, reading_of};

// What a mark says: 0 measured, 1 estimated; a bool, as `reading_of` takes it.
fn estimated_by(mark: u8) -> Option<bool>
    ensures { result ≡ marked mark }
{
    match mark {
        0 => Some(false),
        1 => Some(true),
        _ => None,
    }
}

// The reading of a quarter, where the three lists give one.
// Inlined, so that a build sees it within the limits, and drops the test of `place`.
#[inline(always)]
fn formed(injected: u32, drawn: u32, mark: u8) -> Option<Reading>
    ensures { result ≡ formed_by injected drawn (marked mark) }
{
    reading_of(injected, drawn, estimated_by(mark)?)
}

// The curve of 96 injected energies (A2), 96 drawn ones (A1) and 96 marks.
pub fn form(injected: &[u32], drawn: &[u32], marks: &[u8]) -> Result<Curve, Fault>
    ensures { Forms injected.now drawn.now marks.now result }
{
    if injected.len() != 96 || drawn.len() != 96 || marks.len() != 96 {
        return Err(Fault::Lists);
    }
    let mut curve = Curve::blank();
    // By number: of three lists that are zipped, the check does not see that the items stand at one quarter.
    for q in 0..96 {
        let reading = formed(injected[q], drawn[q], marks[q]).ok_or(Fault::Lists)?;
        curve.place(q, reading);
    }
    Ok(curve)
}
