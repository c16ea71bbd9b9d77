// Words, the faults in them, and the reader that hands out records as parts of the caller's sheet.
// Nothing here knows a book or a rule.
#![tactic(auto)]

pub mod fault;
pub mod progress;
pub mod reader;
pub mod show;
pub mod slip;
pub mod word;
