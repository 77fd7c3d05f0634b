// Making terms and filling them.
ghost use Rattle.std.specs.Prelude.{◌≡◌, is_some, IfSome};
ghost use Rattle.ledger.specs.Filling.{fits, wanted, content_of, least_terms, fill_answer, filled};

use crate::fault::BookFault;
use crate::feasts::Feasts;
use crate::terms::Terms;

// What terms are to be filled with, any numbers at all.
#[derive(Clone, Copy)]
pub struct Asked<'a> {
    pub kinds: u32,
    pub w0: u32,
    pub w1: u32,
    pub qc: u32,
    pub uf: u32,
    pub af: u32,
    pub feasts: &'a [u32],
}

impl Terms {
    pub fn new() -> Terms
        ensures { content_of result ≡ least_terms }
    {
        Terms {
            kinds: 1,
            w0: 8,
            w1: 96,
            qc: 1,
            uf: 0,
            af: 0,
            feasts: Feasts::none(),
        }
    }

    // The terms that are asked for, where they keep every limit.
    fn kept(asked: &Asked<'_>) -> Option<Terms>
        ensures fit { is_some result ≡ fits asked.now }
        ensures held { IfSome result (λ terms. content_of terms ≡ wanted asked.now) }
    {
        let feasts = Feasts::new(asked.feasts)?;
        let Asked {
            kinds,
            w0,
            w1,
            qc,
            uf,
            af,
            ..
        } = *asked;
        if (1..=7).contains(&kinds)
            && 8 <= w0
            && w0 < w1
            && w1 <= 96
            && (1..=128_000).contains(&qc)
            && uf <= 100_000
            && af <= 100_000
        {
            Some(Terms {
                kinds: kinds as u8,
                w0,
                w1,
                qc,
                uf,
                af,
                feasts,
            })
        } else {
            None
        }
    }

    // Refused where a limit is broken; then nothing changes.
    pub fn fill(&mut self, asked: &Asked<'_>) -> Result<(), BookFault>
        ensures answer { result ≡ fill_answer (fits asked.now) }
        ensures after { content_of self.new ≡ filled (fits asked.now) (content_of self.old) (wanted asked.now) }
    {
        *self = Terms::kept(asked).ok_or(BookFault::Terms)?;
        Ok(())
    }
}
