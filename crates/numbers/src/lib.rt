// Signed 32-bit numbers: what the operators and relations give, and how a number is printed.
#![tactic(auto)]

pub mod arith;
pub mod decimal;
