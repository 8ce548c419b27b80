// The outside as traits (a folder, an input, a sink, a clock), and forms of them in memory.
#![tactic(auto)]

pub mod clock;
mod failing;
pub mod fault;
pub mod folder;
pub mod laws;
pub mod memory_clock;
pub mod memory_folder;
pub mod memory_sink;
pub mod memory_source;
mod names;
pub mod sink;
pub mod source;
#[cfg(test)]
mod tests;
