// The nineteen instructions: their numbers, and the instruction of each pair.
#![tactic(auto)]

pub mod decode;
pub mod operations;
