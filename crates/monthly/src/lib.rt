// What a month amounts to, and the line of its fourteen figures.
#![tactic(auto)]

mod cell;
mod days;
pub mod line;
pub mod month;
