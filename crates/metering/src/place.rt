// Where the reader stands in an export, and what a field says there.
ghost use Rattle.std.specs.Prelude.{◌≡◌};
ghost use Rattle.metering.specs.Places.{header_fault, row_fault, fault_at, row_kind, kind_at, name_in, after_name, after_field, after};

use crate::columns::{Column, Columns, Sought};
use crate::fault::Fault;

// What the field at a place has to be.
#[derive(Clone, Copy)]
pub enum Kind {
    Name,
    Count(u8),
    Energy,
    Letter,
    Skipped,
    Beyond,
}

// What a field says.
#[derive(Clone, Copy)]
pub enum Value {
    Named(Column),
    Passed,
    Amount(u32),
    // whether it is estimated; a bool, as `reading_of` takes it
    Mark(bool),
}

impl Value {
    // A field that is no name says nothing of its column.
    fn name(self) -> Column
        ensures { result ≡ name_in self }
    {
        match self {
            Value::Named(name) => name,
            _ => Column::Other,
        }
    }
}

// In the first line.
#[derive(Clone, Copy)]
pub struct InHeader {
    pub column: u8,
    pub sought: Sought,
}

// In the row of a quarter, 96 after the last; the first line fixes the width and the columns.
#[derive(Clone, Copy)]
pub struct InRow {
    pub quarter: u8,
    pub column: u8,
    pub width: u8,
    pub columns: Columns,
}

// The field being read; its column is counted from 1.
#[derive(Clone, Copy)]
pub enum Place {
    Header(InHeader),
    Row(InRow),
}

impl InHeader {
    fn fault(self) -> Fault
        ensures { result ≡ header_fault self }
    {
        Fault::Header {
            column: u32::from(self.column),
        }
    }

    fn after(self, name: Column, separator: u8) -> Result<Place, Fault>
        ensures { result ≡ after_name self name separator }
    {
        let sought = self
            .sought
            .with(name, self.column)
            .ok_or_else(|| self.fault())?;
        if separator == b';' {
            if self.column >= 16 {
                return Err(Fault::Header { column: 17 });
            }
            return Ok(Place::Header(InHeader {
                column: self.column + 1,
                sought,
            }));
        }
        let columns = sought.found().ok_or(Fault::Header { column: 0 })?;
        Ok(Place::Row(InRow {
            quarter: 0,
            column: 1,
            width: self.column,
            columns,
        }))
    }
}

impl InRow {
    fn fault(self) -> Fault
        ensures { result ≡ row_fault self }
    {
        Fault::Row {
            line: u32::from(self.quarter) + 2,
            column: u32::from(self.column),
        }
    }

    fn kind(self) -> Kind
        ensures { result ≡ row_kind self }
    {
        if self.quarter >= 96 {
            Kind::Beyond
        } else if self.column == self.columns.quarter {
            Kind::Count(self.quarter)
        } else if self.column == self.columns.a1 || self.column == self.columns.a2 {
            Kind::Energy
        } else if self.column == self.columns.state {
            Kind::Letter
        } else {
            Kind::Skipped
        }
    }

    fn after(self, separator: u8) -> Result<Place, Fault>
        ensures { result ≡ after_field self separator }
    {
        if separator == b';' {
            if self.column >= self.width {
                // Not as the fault of the next place, whose column need not fit a u8.
                return Err(Fault::Row {
                    line: u32::from(self.quarter) + 2,
                    column: u32::from(self.column) + 1,
                });
            }
            return Ok(Place::Row(InRow {
                column: self.column + 1,
                ..self
            }));
        }
        if self.column != self.width || self.quarter >= 96 {
            return Err(self.fault());
        }
        Ok(Place::Row(InRow {
            quarter: self.quarter + 1,
            column: 1,
            ..self
        }))
    }
}

impl Place {
    // The refusal of what stands here.
    pub(crate) fn fault(self) -> Fault
        ensures { result ≡ fault_at self }
    {
        match self {
            Place::Header(place) => place.fault(),
            Place::Row(place) => place.fault(),
        }
    }

    pub(crate) fn kind(self) -> Kind
        ensures { result ≡ kind_at self }
    {
        match self {
            Place::Header(_) => Kind::Name,
            Place::Row(place) => place.kind(),
        }
    }

    pub(crate) fn after(self, value: Value, separator: u8) -> Result<Place, Fault>
        ensures { result ≡ after self value separator }
    {
        match self {
            Place::Header(place) => place.after(value.name(), separator),
            Place::Row(place) => place.after(separator),
        }
    }
}
