// What the folder knows of the registers: each is known with its number, or not known.
#![tactic(auto)]

pub mod knowledge;
pub mod types;
