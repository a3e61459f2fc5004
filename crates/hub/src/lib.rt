// What the hub's C program calls: numbers and slices go in, a struct of numbers comes out.
#![tactic(auto)]

pub mod answer;
pub mod chunks;
pub mod controller;
pub mod files;
pub mod header;
pub mod stage;
pub mod table;
