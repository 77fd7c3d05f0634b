// What forming and importing refuse.
ghost use Rattle.std.specs.Prelude.{◌≡◌};
ghost use Rattle.metering.specs.Refusals.{refusal_of};

use refusals::{Layer, Refusal};
use std::fmt;

#[derive(Clone, Copy, PartialEq, Eq, Debug)]
pub enum Fault {
    // a list of another length than 96, an energy beyond its limit or an unknown mark
    Lists,
    // the first line, at a column; 0 where a name is missing, the text is too long or ends there: a refusal
    // tells the number, and the definitions of an import's meaning name it so
    Header { column: u32 },
    Row { line: u32, column: u32 },
}

impl Fault {
    pub fn refusal(self) -> Refusal
        ensures { result ≡ refusal_of self }
    {
        match self {
            Fault::Lists => Refusal::new(7, Layer::Import, 0, 0),
            Fault::Header { column } => Refusal::new(8, Layer::Import, 1, column),
            Fault::Row { line, column } => Refusal::new(9, Layer::Import, line, column),
        }
    }
}

impl fmt::Display for Fault {
    fn fmt<W: fmt::Write>(&self, f: &mut fmt::Formatter<W>) -> fmt::Result {
        match self {
            Fault::Lists => write!(
                f,
                "the lists are not 96 energies of at most 1000 kWh, each way, with marks 0 or 1"
            ),
            Fault::Header { column: 0 } => write!(
                f,
                "the text is longer than 65535 bytes, ends in its first line, or that line lacks one of QUARTER, A1, A2 and STATE"
            ),
            Fault::Header { column } => write!(
                f,
                "the first line repeats a name or has too many columns at column {column}"
            ),
            Fault::Row { line, column } => write!(
                f,
                "line {line} breaks the format at column {column}"
            ),
        }
    }
}
