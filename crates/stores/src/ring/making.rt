// Making a ring of a memory, and giving the memory back.
ghost use Rattle.std.specs.Prelude.{◌≡◌, length};
ghost use Rattle.stores.specs.Making.{fit_answer};
ghost use Rattle.stores.specs.Ring.{ring_fits, ring_made, ring_words, words_of, model_of, Pinned, LayoutOne};

use crate::fault::{StoreFault, fit_answer};
use crate::ring::Ring;
use crate::ring::grid::{Grid, SLOT};

// Whether a ring of this width and span can be made of so many words.
pub fn ring_fits(words: usize, width: u32, span: u32) -> Result<(), StoreFault>
    ensures { result ≡ fit_answer (ring_fits words width span) }
{
    let fits = (1..=32).contains(&width)
        && (1..=400).contains(&span)
        && words == SLOT * (width as usize * span as usize);
    fit_answer(fits)
}

impl Ring {
    // An empty ring in zeroed memory; where the values do not fit, one without capacity that leaves the memory alone.
    pub fn new(mut memory: Vec<i32>, width: u32, span: u32) -> Ring
        ensures meaning { model_of result ≡ ring_made (length memory.items) width span }
        ensures words { words_of result ≡ ring_words memory.items width span }
    {
        if ring_fits(memory.len(), width, span).is_err() {
            let grid = Grid {
                words: memory,
                rows: 0,
                span: 1,
            };
            return Ring { grid, floor: 0 };
        }
        memory.as_mut_slice().fill(0);
        let grid = Grid {
            words: memory,
            rows: width,
            span,
        };
        Ring { grid, floor: 0 }
    }

    pub fn memory(&self) -> &[i32]
        ensures words { result.now ≡ words_of self.now }
        ensures layout { Pinned (model_of self.now) result.now }
    {
        self.grid.words.as_slice()
    }

    // Gives the memory back.
    pub fn into_memory(self) -> Vec<i32>
        ensures words { result ≡ self.grid.words }
        ensures layout { Pinned (model_of self) result.items }
        ensures one { LayoutOne }
    {
        self.grid.words
    }
}
