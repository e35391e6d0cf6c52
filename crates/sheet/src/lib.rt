// Sheets of text, sealed block by block into a holder.
#![tactic(auto)]

pub mod calls;
mod carried;
mod changing;
mod checking;
pub mod context;
mod editing;
mod held;
pub mod holder;
pub mod memory;
pub mod note;
mod opening;
mod reading;
pub mod received;
mod sealing;
pub mod sheet;
pub mod state;
pub mod worked;
