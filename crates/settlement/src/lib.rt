// The settlement book: every call on it, and whole lives of it.
#![tactic(auto)]

pub mod book;
pub mod live;
mod tables;

pub use ledger::{fault, laws, life, records, terms};
