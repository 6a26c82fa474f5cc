// A card's text read: its lines, and the job that a good card asks for.
#![tactic(auto)]

mod keys;
pub mod lines;
mod text;
pub mod types;
pub mod writes;
