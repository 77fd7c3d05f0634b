// In which columns the four names stand.
ghost use Rattle.std.specs.Prelude.{◌≡◌};
ghost use Rattle.metering.specs.Places.{named, found};

// What a name of the first line says of its column: A1 is drawn energy, A2 injected energy.
#[derive(Clone, Copy, PartialEq, Eq, Debug)]
pub enum Column {
    Quarter,
    A1,
    A2,
    State,
    Other,
}

// The column of each name, counted from 1.
#[derive(Clone, Copy, PartialEq, Eq, Debug)]
pub struct Columns {
    pub quarter: u8,
    pub a1: u8,
    pub a2: u8,
    pub state: u8,
}

// The columns of the names that have stood so far in the first line.
#[derive(Clone, Copy, Default)]
pub struct Sought {
    pub quarter: Option<u8>,
    pub a1: Option<u8>,
    pub a2: Option<u8>,
    pub state: Option<u8>,
}

impl Sought {
    // Nothing where that name has stood before.
    pub(crate) fn with(self, name: Column, column: u8) -> Option<Sought>
        ensures { result ≡ named self name column }
    {
        match name {
            Column::Quarter if self.quarter.is_none() => Some(Sought {
                quarter: Some(column),
                ..self
            }),
            Column::A1 if self.a1.is_none() => Some(Sought {
                a1: Some(column),
                ..self
            }),
            Column::A2 if self.a2.is_none() => Some(Sought {
                a2: Some(column),
                ..self
            }),
            Column::State if self.state.is_none() => Some(Sought {
                state: Some(column),
                ..self
            }),
            Column::Other => Some(self),
            _ => None,
        }
    }

    // Nothing while one of the four is lacking.
    pub(crate) fn found(self) -> Option<Columns>
        ensures { result ≡ found self }
    {
        Some(Columns {
            quarter: self.quarter?,
            a1: self.a1?,
            a2: self.a2?,
            state: self.state?,
        })
    }
}
