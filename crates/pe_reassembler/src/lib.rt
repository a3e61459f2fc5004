// From reassembler.rs, Reassembler: the calls over lent memory.
#![tactic(auto)]

pub mod calls;
pub mod feed;
pub mod open;
pub mod poll;
mod rows;
pub mod shape;
mod table;
