// What a refusal tells, the same for every layer: its number, the layer that raised it, and two places.
#![tactic(auto)]

ghost use Rattle.std.specs.Prelude.{◌≡◌};
ghost use Rattle.refusals.specs.Matters.{matter_of};

use std::fmt;

// The layer that raised a refusal.
#[derive(Clone, Copy, PartialEq, Eq, Debug)]
pub enum Layer {
    Book,
    Store,
    Rulebook,
    Import,
}

// Who has to put it right.
#[derive(Clone, Copy, PartialEq, Eq, Debug)]
pub enum Matter {
    Office,
    Installer,
    MeterOperator,
    GridOperator,
    Settler,
}

// A place that a refusal does not name is 0.
#[derive(Clone, Copy, PartialEq, Eq, Debug)]
pub struct Refusal {
    pub number: u8,
    pub layer: Layer,
    pub first: u32,
    pub second: u32,
}

impl Refusal {
    pub fn new(number: u8, layer: Layer, first: u32, second: u32) -> Refusal
        ensures { result ≡ record { number = number; layer = layer; first = first; second = second } }
    {
        Refusal {
            number,
            layer,
            first,
            second,
        }
    }
}

// Whose matter a refusal is, by its number.
pub fn matter_of(number: u8) -> Matter
    ensures { result ≡ matter_of number }
{
    match number {
        0..=5 => Matter::Office,
        6 => Matter::Installer,
        7..=13 => Matter::MeterOperator,
        14..=19 => Matter::GridOperator,
        _ => Matter::Settler,
    }
}

impl fmt::Display for Layer {
    fn fmt<W: fmt::Write>(&self, f: &mut fmt::Formatter<W>) -> fmt::Result {
        f.write_str(match self {
            Layer::Book => "book",
            Layer::Store => "store",
            Layer::Rulebook => "rulebook",
            Layer::Import => "import",
        })
    }
}

impl fmt::Display for Matter {
    fn fmt<W: fmt::Write>(&self, f: &mut fmt::Formatter<W>) -> fmt::Result {
        f.write_str(match self {
            Matter::Office => "a matter for our office",
            Matter::Installer => "a matter for the installer",
            Matter::MeterOperator => "a matter for the meter operator",
            Matter::GridOperator => "a matter for the grid operator",
            Matter::Settler => "a matter for the settler",
        })
    }
}
