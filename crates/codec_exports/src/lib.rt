// The codecs for a caller in another language, for tests alone: numbers and slices go in, structs of numbers come out.
#![tactic(auto)]

pub mod answer;
pub mod ci;
pub mod pe;
pub mod slot;
