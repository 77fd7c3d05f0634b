// Life files: what their lines ask for, and the text of what is answered.
#![tactic(auto)]

pub mod flaw;
pub mod line;
pub mod making;
pub mod refused;
pub mod script;
pub mod text;
pub mod values;
pub mod words;
