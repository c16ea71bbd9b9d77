// The theory of a round: what lanes choose from offers, and why the order of applications does not matter. It knows
// nothing of words or of a round's lines.
#![tactic(auto)]

pub mod theory;
