// The exports of hub for a C program: each calls hub's function of its name, and promises what that promises.
#![tactic(auto)]

pub mod chunks;
pub mod controller;
pub mod files;
pub mod header;
pub mod stage;
pub mod table;
