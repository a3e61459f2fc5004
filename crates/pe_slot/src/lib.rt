// From reassembler.rs, TxSlot: one slot on its own parts of the lent memory.
#![tactic(auto)]

pub mod layout;
pub mod meta;
mod records;
pub mod slot;
