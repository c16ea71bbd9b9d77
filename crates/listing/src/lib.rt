// What the programs share that show a day to a person: the reading of its bytes, and the lines of its book.
#![tactic(auto)]

pub mod book;
pub mod input;
mod lane;
mod shed;
mod totals;
