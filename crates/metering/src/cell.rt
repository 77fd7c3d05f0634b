// What has been read of one field.
ghost use Rattle.std.specs.Prelude.{◌≡◌, ℕ, ◌<◌, ◌≤◌, ◌-◌, take, is_some};
ghost use Rattle.std.specs.Option.{unwrap_or};
ghost use Rattle.std.specs.Str.{bytes_eq};
ghost use Rattle.metering.specs.Cells.{column_of, pushed, start, stepped, finished};

use crate::columns::Column;
use crate::place::{Kind, Value};
use crate::reading::MOST;

// The bytes of a name, as long as it can still be one of the four; plain bytes and a length, since a state is copied.
#[derive(Clone, Copy, Default)]
pub struct Name {
    pub bytes: [u8; 8],
    pub len: usize,
}

#[derive(Clone, Copy)]
pub enum Cell {
    Spelled(Name),
    Long,
    Number,
    Whole(u32),
    Fraction(u32, u8),
    Letter,
    Measured,
    Estimated,
    Skipped,
    Beyond,
}

fn column_named(name: &[u8]) -> Column
    ensures { result ≡ column_of name.now }
{
    // One `==` after the other: of an arm of a `match` on byte strings, the check knows only the length.
    if name == b"QUARTER".as_slice() {
        Column::Quarter
    } else if name == b"A1".as_slice() {
        Column::A1
    } else if name == b"A2".as_slice() {
        Column::A2
    } else if name == b"STATE".as_slice() {
        Column::State
    } else {
        Column::Other
    }
}

// What a digit counts for.
fn digit_value(byte: u8) -> u32
    requires { 48 ≤ byte }
    ensures { result ≡ byte - 48 }
{
    u32::from(byte - b'0')
}

impl Name {
    fn push(self, byte: u8) -> Name
        requires { self.len < 8 }
        ensures { result ≡ pushed self byte }
    {
        let mut bytes = self.bytes;
        bytes[self.len] = byte;
        Name {
            bytes,
            len: self.len + 1,
        }
    }

    fn column(self) -> Column
        requires { self.len ≤ 8 }
        ensures { result ≡ column_of (take self.len self.bytes) }
    {
        column_named(&self.bytes[..self.len])
    }
}

impl Cell {
    // Before the first byte of a field of this kind.
    pub(crate) fn start(kind: Kind) -> Cell
        ensures { result ≡ start kind }
    {
        match kind {
            Kind::Name => Cell::Spelled(Name::default()),
            Kind::Count(_) | Kind::Energy => Cell::Number,
            Kind::Letter => Cell::Letter,
            Kind::Skipped => Cell::Skipped,
            Kind::Beyond => Cell::Beyond,
        }
    }

    // One byte of the field; none, and nothing changed, where no field of this kind goes on so.
    pub(crate) fn step(&mut self, byte: u8) -> Option<()>
        ensures result { is_some result ≡ is_some (stepped self.old byte) }
        ensures state { self.new ≡ unwrap_or (stepped self.old byte) self.old }
    {
        match (*self, byte as char) {
            (Cell::Skipped, _) => {}
            (Cell::Spelled(name), _) if name.len < 8 => *self = Cell::Spelled(name.push(byte)),
            (Cell::Spelled(_) | Cell::Long, _) => *self = Cell::Long,
            (Cell::Number, '0'..='9') => *self = Cell::Whole(digit_value(byte)),
            (Cell::Whole(v @ 1..=100), '0'..='9') => {
                *self = Cell::Whole(v * 10 + digit_value(byte));
            }
            (Cell::Whole(v), ',') => *self = Cell::Fraction(v, 0),
            (Cell::Fraction(v @ 0..=100_000, k @ 0..=2), '0'..='9') => {
                *self = Cell::Fraction(v * 10 + digit_value(byte), k + 1);
            }
            (Cell::Letter, 'M') => *self = Cell::Measured,
            (Cell::Letter, 'E') => *self = Cell::Estimated,
            _ => return None,
        }
        Some(())
    }

    // What the whole field says, where a field of this kind says anything with these bytes.
    pub(crate) fn value(self, kind: Kind) -> Option<Value>
        ensures { result ≡ finished kind self }
    {
        match (kind, self) {
            (Kind::Name, Cell::Spelled(name)) if name.len <= 8 => Some(Value::Named(name.column())),
            (Kind::Name, Cell::Long) => Some(Value::Named(Column::Other)),
            (Kind::Count(q), Cell::Whole(v)) if v == u32::from(q) => Some(Value::Passed),
            (Kind::Energy, Cell::Fraction(v, 3)) if v <= MOST => Some(Value::Amount(v)),
            (Kind::Letter, Cell::Measured) => Some(Value::Mark(false)),
            (Kind::Letter, Cell::Estimated) => Some(Value::Mark(true)),
            (Kind::Skipped, Cell::Skipped) => Some(Value::Passed),
            _ => None,
        }
    }
}
