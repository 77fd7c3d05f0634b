// The machine that reads an export: its own state and the byte decide the next state.
ghost use Rattle.std.specs.Prelude.{◌≡◌, replicate};
ghost use Rattle.metering.specs.declared.reading.Reading.TheVariants.{Estimated};
ghost use Rattle.metering.specs.Progress.{filled, noted};
ghost use Rattle.metering.specs.Meaning.{ended_at};
ghost use Rattle.metering.specs.Machine.{machine_of, begin, next, ends, verdict, after, outcome, runs};

use crate::cell::Cell;
use crate::columns::{Columns, Sought};
use crate::curve::Curve;
use crate::fault::Fault;
use crate::place::{InHeader, Kind, Place, Value};
use crate::reading::reading_of;

// What has been read of a row.
#[derive(Clone, Copy, Default)]
pub struct Row {
    pub drawn: u32,
    pub injected: u32,
    // a bool, as `reading_of` takes it
    pub estimated: bool,
}

impl Row {
    // Takes in the field at this place.
    fn fill(&mut self, place: Place, value: Value)
        ensures { self.new ≡ filled place value self.old }
    {
        let Place::Row(place) = place else {
            return;
        };
        match value {
            Value::Amount(wh) if place.column == place.columns.a1 => self.drawn = wh,
            Value::Amount(wh) => self.injected = wh,
            Value::Mark(estimated) => self.estimated = estimated,
            _ => {}
        }
    }
}

// A row gives the reading of its quarter.
fn note(curve: &mut Curve, place: Place, row: Row)
    ensures { curve.new.readings ≡ noted curve.old.readings place row }
{
    let Place::Row(place) = place else {
        return;
    };
    if let Some(reading) = reading_of(row.injected, row.drawn, row.estimated) {
        curve.place(usize::from(place.quarter), reading);
    }
}

// A curve, and where in the export it came from.
#[derive(Clone, Copy)]
pub struct Imported {
    pub curve: Curve,
    pub columns: Columns,
    pub width: u8,
}

// The curve stands apart, since it is written at any quarter: a build then keeps most of this in registers.
#[derive(Clone, Copy)]
pub struct Reader {
    pub place: Place,
    pub row: Row,
    pub cell: Cell,
}

impl Reader {
    pub(crate) fn new() -> Reader
        ensures { machine_of result (replicate 96 Estimated) ≡ begin }
    {
        Reader {
            place: Place::Header(InHeader {
                column: 1,
                sought: Sought::default(),
            }),
            row: Row::default(),
            cell: Cell::start(Kind::Name),
        }
    }

    // A semicolon or a line feed ends the field.
    fn end_field(&mut self, curve: &mut Curve, separator: u8) -> Result<(), Fault>
        ensures result { result ≡ verdict (ends (machine_of self.old curve.old.readings) separator) }
        ensures state { machine_of self.new curve.new.readings ≡ after (machine_of self.old curve.old.readings) (ends (machine_of self.old curve.old.readings) separator) }
    {
        let value = self
            .cell
            .value(self.place.kind())
            .ok_or_else(|| self.place.fault())?;
        let place = self.place.after(value, separator)?;
        self.row.fill(self.place, value);
        if separator == b'\n' {
            note(curve, self.place, self.row);
        }
        self.place = place;
        self.cell = Cell::start(place.kind());
        Ok(())
    }

    pub(crate) fn step(&mut self, curve: &mut Curve, byte: u8) -> Result<(), Fault>
        ensures result { result ≡ verdict (next (machine_of self.old curve.old.readings) byte) }
        ensures state { machine_of self.new curve.new.readings ≡ after (machine_of self.old curve.old.readings) (next (machine_of self.old curve.old.readings) byte) }
    {
        match byte as char {
            ';' | '\n' => self.end_field(curve, byte),
            _ => self.cell.step(byte).ok_or_else(|| self.place.fault()),
        }
    }

    // The text may end after the row of quarter 95.
    fn end(self, curve: Curve) -> Result<Imported, Fault>
        ensures { outcome result ≡ ended_at self.place curve.readings }
    {
        match self.place {
            Place::Header(_) => Err(Fault::Header { column: 0 }),
            Place::Row(place) if place.quarter == 96 => Ok(Imported {
                curve,
                columns: place.columns,
                width: place.width,
            }),
            Place::Row(_) => Err(self.place.fault()),
        }
    }

    // The whole text, and that it ends where it should.
    pub(crate) fn run(mut self, text: &[u8]) -> Result<Imported, Fault>
        ensures { outcome result ≡ runs (machine_of self (replicate 96 Estimated)) text.now }
    {
        let mut curve = Curve::blank();
        for byte in text {
            self.step(&mut curve, *byte)?;
        }
        self.end(curve)
    }
}
