// A block: whole rows of words in local arrays, at most 64 words in all, fetched, masked, shifted, mixed, filled and
// stored by loops that do one thing to every word.
#![tactic(auto)]

mod each;
pub mod fetch;
pub mod fill;
pub mod level;
pub mod mask;
pub mod mix;
pub mod needs;
pub mod place;
pub mod shift;
pub mod store;
pub mod types;
