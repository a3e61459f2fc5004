// The exports of codec_exports for a caller in another language, for tests alone: each calls the function of its name there.
#![tactic(auto)]

pub mod ci;
pub mod pe;
pub mod slot;
