// The output: steps copied, and the words that a settled blit becomes, laid into it.
#![tactic(auto)]

pub mod put;
pub mod words;
