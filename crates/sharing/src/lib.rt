// How the lanes of a shed share its store. Nothing here knows words, lots or rounds.
#![tactic(auto)]

pub mod card;
mod line;
pub mod line_up;
pub mod longest;
pub mod make;
pub mod no_gain;
pub mod order;
pub mod rule;
pub mod shares;
pub mod turns;
