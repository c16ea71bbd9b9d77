// A day as it comes in: bytes, the words in them, and the book that they open.
#![tactic(auto)]

pub mod day;
pub mod input;
pub mod open;
