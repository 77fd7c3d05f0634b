// The line of a month's figures.
ghost use Rattle.std.specs.Prelude.{◌≡◌};
ghost use Rattle.ledger.specs.LineText.{line_text, length_in, written_to};
ghost use Rattle.monthly.specs.Cells.{cells, inner as inner_cell, figures_of};

use crate::cell::{Cell, Line, Places};
use crate::month::percent;
use ledger::fault::BookFault;
use ledger::records::Month;
use ledger::terms::Terms;

fn line_of(figures: &[Cell; 14]) -> Line
    ensures { result.items ≡ cells figures.now }
{
    let mut line = Line::new();
    for figure in figures {
        figure.push_to(&mut line);
    }
    line
}

fn inner(value: u64, places: Places) -> Cell
    ensures { result ≡ inner_cell value places }
{
    Cell {
        value,
        places,
        end: b';',
    }
}

fn cells_of(terms: &Terms, figures: &Month) -> [Cell; 14]
    ensures { result ≡ figures_of terms.now figures.now }
{
    let av = u64::from(figures.av);
    let di = u64::from(figures.di);
    [
        inner(25 * av, Places::Two),
        inner(25 * av.saturating_sub(di), Places::Two),
        inner(25 * di, Places::Two),
        inner(percent(di, av), Places::Two),
        inner(u64::from(terms.qc), Places::Zero),
        inner(figures.edm, Places::Three),
        inner(figures.ptm, Places::Three),
        inner(figures.setm, Places::Three),
        inner(figures.dpm, Places::Two),
        inner(u64::from(terms.uf), Places::Four),
        inner(u64::from(terms.af), Places::Four),
        inner(figures.apm, Places::Two),
        inner(figures.upm, Places::Two),
        Cell {
            value: figures.pay,
            places: Places::Two,
            end: b'\n',
        },
    ]
}

// Written apart first, since a line too long for `out` must leave it as it was.
pub fn write_line(terms: &Terms, figures: &Month, out: &mut [u8]) -> Result<u32, BookFault>
    ensures value { result ≡ length_in out.old (line_text terms.now figures.now) }
    ensures bytes { out.new ≡ written_to out.old (line_text terms.now figures.now) }
{
    let line = line_of(&cells_of(terms, figures));
    let n = line.len();
    if n > out.len() {
        return Err(BookFault::ShortMemory);
    }
    out[..n].copy_from_slice(line.as_slice());
    Ok(n as u32)
}
