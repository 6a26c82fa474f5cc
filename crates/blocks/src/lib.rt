// Blocks of whole rows: a blit's words fetched, finished and stored so many rows at a time, at most 64 words.
#![tactic(auto)]

pub mod all;
pub mod finals;
pub mod one;
pub mod types;
