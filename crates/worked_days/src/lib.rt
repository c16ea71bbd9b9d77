// Worked cases as theorems, and tests of words, sheets, slips, books, rules and lines on small examples. What they
// expect is worked out by hand from docs/.
// Words are written in hexadecimal, as docs/FORMATS.md has them.
#![tactic(auto)]

pub mod answers;
#[cfg(test)]
mod faults;
#[cfg(test)]
mod first_fault;
#[cfg(test)]
mod opening;
#[cfg(test)]
mod parts;
#[cfg(test)]
mod questions;
#[cfg(test)]
mod rankings;
#[cfg(test)]
mod records;
#[cfg(test)]
mod slips;
#[cfg(test)]
mod strange_words;
#[cfg(test)]
mod targets;
#[cfg(test)]
mod two_rules;
#[cfg(test)]
mod whole_books;
