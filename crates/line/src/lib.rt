// A line: its set-up, the way from dot to dot, and one dot's word.
#![tactic(auto)]

pub mod marks;
pub mod setup;
pub mod theorems;
pub mod types;
pub mod walk;
pub mod word_of_dot;
