// A meter export, as text, to a curve.
ghost use Rattle.std.specs.Prelude.{◌≡◌};
ghost use Rattle.metering.specs.Machine.{outcome};
ghost use Rattle.metering.specs.Meaning.{Imports};
ghost use Rattle.metering.specs.Export.{Exactly};

use crate::fault::Fault;
use crate::reader::{Imported, Reader};

// The most bytes that are read.
pub const LONGEST: usize = 65_535;

pub fn import(text: &[u8]) -> Result<Imported, Fault>
    ensures judged { Imports text.now (outcome result) }
    ensures exactly { Exactly text.now (outcome result) }
{
    if text.len() > LONGEST {
        return Err(Fault::Header { column: 0 });
    }
    Reader::new().run(text)
}
