// One word: memory and pointers, what the control and size registers say, and the mask, shift, logic function and fill
// of a blit's word.
#![tactic(auto)]

pub mod bits;
pub mod control;
pub mod even;
pub mod fill;
pub mod laying;
pub mod logic;
pub mod mask;
pub mod memory;
pub mod pointer;
pub mod shift;
pub mod size;
pub mod theorems;
pub mod types;
