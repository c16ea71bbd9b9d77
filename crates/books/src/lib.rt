// The book of a day, and the reading of a sheet into it.
#![tactic(auto)]

pub mod book;
pub mod lane;
pub mod totals;
