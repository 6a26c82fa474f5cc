// A line drawn: all its dots, and what it leaves in the register file.
#![tactic(auto)]

pub mod draw;
pub mod leave;
