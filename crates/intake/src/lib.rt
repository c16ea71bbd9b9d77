// The slips of a day, cut from its words and entered into a round.
#![tactic(auto)]

pub mod enter;
