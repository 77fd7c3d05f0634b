// The terms of a contract with the operator.
ghost use Rattle.std.specs.Prelude.{◌<◌, ◌≤◌};

mod filling;

use crate::feasts::Feasts;
pub use filling::Asked;

// Every terms record keeps these limits.
#[derive(Clone, Copy)]
pub struct Terms {
    // a sum of 1 working day, 2 Saturday, 4 Sunday or feast
    pub kinds: u8,
    // the window of quarters w0 to w1
    pub w0: u32,
    pub w1: u32,
    // contracted power, in kW
    pub qc: u32,
    // price of energy and of availability, in 0.0001 EUR per kWh and per kW and hour
    pub uf: u32,
    pub af: u32,
    pub feasts: Feasts,
    ghost some_kind: { 1 ≤ kinds },
    ghost known_kinds: { kinds ≤ 7 },
    ghost leads: { 8 ≤ w0 },
    ghost window: { w0 < w1 },
    ghost day: { w1 ≤ 96 },
    ghost power_from: { 1 ≤ qc },
    ghost power_to: { qc ≤ 128000 },
    ghost energy_price: { uf ≤ 100000 },
    ghost power_price: { af ≤ 100000 },
}
