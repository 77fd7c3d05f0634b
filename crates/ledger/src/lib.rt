// What a settlement book records and means: terms, resources, orders, declarations; calls, whole lives and their laws.
#![tactic(auto)]

pub mod days;
pub mod fault;
pub mod feasts;
pub mod laws;
pub mod life;
pub mod records;
pub mod terms;
