// Bytes and refusals as text, for the programs.
#![tactic(auto)]

pub mod hex;
pub mod words;
