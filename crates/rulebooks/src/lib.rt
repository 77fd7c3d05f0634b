// Baselines by rule: rounding, what a rulebook is, three rules, the bank of two and the supplied rulebook.
#![tactic(auto)]

mod bank;
mod formula;
mod options;
mod question;
mod rounding;
mod rule;
mod supplied;

pub use bank::Bank;
pub use options::{AdditiveAdjustment, LeadMean, RatioAdjustment, unadjusted_mean};
pub use question::Question;
pub use rounding::round_div;
pub use rule::{RuleFault, Rulebook, admit};
pub use supplied::SuppliedRulebook;
