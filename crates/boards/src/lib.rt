// What a round says of its lots, and the laws of every list of calls on it.
#![tactic(auto)]

pub mod laws;
pub mod line;
pub mod outcome;
pub mod wishes;
