// Tapes of what a hub received: their commands read and written, and played on a table.
#![tactic(auto)]

pub mod command;
pub mod error;
pub mod line;
pub mod play;
pub mod read;
pub mod write;
