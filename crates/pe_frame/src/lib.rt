// From frame.rs: the chunk of a Property Exchange message, read and written; and a whole message with its CI header.
#![tactic(auto)]

pub mod chunk_ref;
pub mod frame;
mod low;
pub mod message;
