// The parts of an area blit: set-up and flow; the fetches, the result, the store and the moves of one word; a row's start.
#![tactic(auto)]

pub mod fetch;
pub mod finish;
pub mod flow;
pub mod moves;
pub mod rows;
pub mod setup;
pub mod store;
pub mod types;
