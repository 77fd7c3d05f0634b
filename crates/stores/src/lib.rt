// Stores of curves: what a store means, and the memories that hold one.
#![tactic(auto)]

pub mod fault;
pub mod journal;
pub mod keeper;
pub mod ring;
pub mod store;
mod word;
