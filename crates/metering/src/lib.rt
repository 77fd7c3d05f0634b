// Readings, curves, and the two ways in which a curve comes to be: three lists, or a meter export.
#![tactic(auto)]

mod cell;
pub mod columns;
pub mod curve;
pub mod fault;
mod filling;
pub mod forming;
pub mod import;
pub mod place;
mod reader;
pub mod reading;
pub mod summary;

pub use reader::Imported;
