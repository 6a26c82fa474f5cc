// Whether a blit is settled.
#![tactic(auto)]

pub mod settle;
pub mod types;
