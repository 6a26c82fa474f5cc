// A quiet blit, which fetches no word after it has stored one there: all its words come from the memory that it found.
#![tactic(auto)]

pub mod theorems;
