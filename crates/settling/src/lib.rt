// What an order settles at: the history days of each resource, the sums over them, its contribution and its evidence.
#![tactic(auto)]

mod context;
mod evidence;
mod history;
mod history_day;
mod numbered;
mod outcome;
pub mod parts;
mod settled;
mod sums;
