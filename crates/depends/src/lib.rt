// Which sources a logic function depends on: a table of 256 entries, and its rule.
#![tactic(auto)]

pub mod depends;
pub mod table;
pub mod types;
