// Envelopes: a sheet as one string of bytes, sent and received.
#![tactic(auto)]

pub mod number;
pub mod parts;
pub mod reader;
pub mod receive;
pub mod send;
pub mod worked;
mod writing;
