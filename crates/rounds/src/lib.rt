// A round: slips are entered, lots apply, and the round is settled. Nothing here asks for memory.
#![tactic(auto)]

mod lines;
mod lists;
mod lots;
pub mod round;
mod table;
