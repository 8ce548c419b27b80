// Safe integers, and the texts that stand for them.
#![tactic(auto)]

pub mod bits;
mod digits;
pub mod laws;
mod literal;
mod magnitude;
mod parts;
mod power;
pub mod safe;
#[cfg(test)]
mod tests;
mod white;
