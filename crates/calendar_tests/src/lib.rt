// Edges of the calendar, by running it.
#![tactic(auto)]

#[cfg(test)]
mod days;
#[cfg(test)]
mod texts;
