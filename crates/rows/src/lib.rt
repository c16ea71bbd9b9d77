// Rows: at most so many items, which stand in the value itself. Nothing here knows what the items are.
#![tactic(auto)]

pub mod row;
