// A table of what both sharing rules answer: questions as lines of text, complaints about lines, and answers.
#![tactic(auto)]

pub mod answer;
pub mod ask;
pub mod complaint;
mod cut;
mod number;
pub mod order;
pub mod question;
pub mod read;
pub mod show;
