// Making a journal of a memory, and giving the memory back.
ghost use Rattle.std.specs.Prelude.{◌≡◌, [], length};
ghost use Rattle.stores.specs.Making.{fit_answer};
ghost use Rattle.stores.specs.Journals.{memory_of, rows_of, model_of, fitting, made_of, cleared, LaidOut};

use crate::fault::{StoreFault, fit_answer};
use crate::journal::Journal;
use crate::journal::rows::ROW;

fn is_fit(bytes: usize, width: u32) -> bool
    ensures { result ≡ fitting bytes width }
{
    bytes >= ROW && (1..=32).contains(&width)
}

// Whether a journal can be made of this many bytes, for this width.
pub fn journal_fits(bytes: usize, width: u32) -> Result<(), StoreFault>
    ensures { result ≡ fit_answer (fitting bytes width) }
{
    fit_answer(is_fit(bytes, width))
}

impl Journal {
    // Of a memory or a width that does not fit, one that holds nothing and never writes.
    pub fn new(mut memory: Vec<u8>, width: u32) -> Journal
        ensures means { model_of result ≡ made_of (length memory.items) width }
        ensures rows { rows_of result ≡ [] }
        ensures memory { memory_of result ≡ cleared memory.items width }
    {
        let bytes = memory.len();
        if !is_fit(bytes, width) {
            return Journal {
                bytes: memory,
                width: 1,
                capacity: 0,
                floor: 0,
                rows: 0,
            };
        }
        memory.as_mut_slice().fill(0);
        Journal {
            bytes: memory,
            width,
            capacity: (bytes / ROW).min(12_800) as u32,
            floor: 0,
            rows: 0,
        }
    }

    // The whole memory, as it stands now.
    pub fn memory(&self) -> &[u8]
        ensures is { result.now ≡ memory_of self.now }
        ensures layout { LaidOut result.now (rows_of self.now) (model_of self.now) }
    {
        self.bytes.as_slice()
    }

    pub fn into_memory(self) -> Vec<u8>
        ensures is { result.items ≡ memory_of self }
        ensures layout { LaidOut result.items (rows_of self) (model_of self) }
    {
        self.bytes
    }
}
