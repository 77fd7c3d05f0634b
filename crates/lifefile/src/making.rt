// The stores that a life file asks for, in memory of their own.
ghost use Rattle.std.specs.Prelude.{◌≡◌, is_ok, IfOk, if◌then◌else◌};
ghost use Rattle.stores.specs.Making.{fit_answer};
ghost use Rattle.stores.specs.Ring.{ring_fits, ring_made, model_of as ring_model_of};
ghost use Rattle.stores.specs.Journals.{fitting, made_of, model_of as journal_model_of};
ghost use Rattle.lifefile.specs.Making.{asked_words};

use std::alloc::{AllocError, Global};
use stores::fault::StoreFault;
use stores::journal::{Journal, journal_fits};
use stores::ring::{Ring, ring_fits};

// A store as the library makes it, and whether its values will do: one that will not is a store too, so both are there.
#[derive(Drop)]
pub struct Made<S: Drop> {
    pub store: S,
    pub fits: Result<(), StoreFault>,
}

// The words that are asked for, or another number that fits no better.
fn ring_words(width: u32, days: u32, words: Option<u32>) -> usize
    ensures { ring_fits result width days ≡ ring_fits (asked_words width days words) width days }
{
    match words {
        Some(words) => words as usize,
        None if width <= 32 && days <= 400 => 97 * (width as usize * days as usize),
        None => 0,
    }
}

// A store that is refused never touches its memory, so it gets none.
fn memory_for(fits: Result<(), StoreFault>, size: usize) -> usize
    ensures { result ≡ (if is_ok fits then size else 0) }
{
    if fits.is_ok() { size } else { 0 }
}

// A ring and a journal share no function: memory, values and meaning all differ.
pub fn ring_of(
    heap: Global,
    width: u32,
    days: u32,
    words: Option<u32>,
) -> Result<Made<Ring>, AllocError>
    ensures store { IfOk result (λ m. ring_model_of m.store ≡ ring_made (asked_words width days words) width days) }
    ensures fits { IfOk result (λ m. m.fits ≡ fit_answer (ring_fits (asked_words width days words) width days)) }
{
    let size = ring_words(width, days, words);
    let fits = ring_fits(size, width, days);
    let memory = vec![in heap; 0i32; memory_for(fits, size)]?;
    Ok(Made {
        store: Ring::new(memory, width, days),
        fits,
    })
}

pub fn journal_of(heap: Global, width: u32, bytes: u32) -> Result<Made<Journal>, AllocError>
    ensures store { IfOk result (λ m. journal_model_of m.store ≡ made_of bytes width) }
    ensures fits { IfOk result (λ m. m.fits ≡ fit_answer (fitting bytes width)) }
{
    let size = bytes as usize;
    let fits = journal_fits(size, width);
    let memory = vec![in heap; 0u8; memory_for(fits, size)]?;
    Ok(Made {
        store: Journal::new(memory, width),
        fits,
    })
}
