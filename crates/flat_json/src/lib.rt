// One flat JSON object (RFC 8259), read byte by byte by a table of next states.
#![tactic(auto)]

pub mod states;

ghost use Rattle.std.specs.Prelude.{◌≡◌};
ghost use Rattle.flat_json.specs.Table.{next, turned, reached};

use crate::states::{DEAD, STATES};

// Where a reading stands: a place of the text, and the state there.
#[derive(Clone, Copy, Debug, PartialEq, Eq)]
pub struct Spot {
    pub place: usize,
    pub state: u8,
}

// The state after one byte more.
#[tactic(auto, unfolding(crate::specs::Table::next, crate::specs::Table::entry))]
pub fn step(table: &[u8; 3840], state: u8, b: u8) -> u8
    ensures { result ≡ next table.now state b }
{
    if state < STATES && b < 128 {
        return table[state as usize * 128 + b as usize];
    }
    DEAD
}

// Reads on until the state is another: to the place behind the byte that changed it, or to the text's end.
pub fn turn(table: &[u8; 3840], text: &[u8], at: Spot) -> Spot
    ensures { result ≡ turned table.now text.now at }
{
    for i in at.place..text.len() {
        let next = step(table, at.state, text[i]);
        if next != at.state {
            return Spot {
                place: i + 1,
                state: next,
            };
        }
    }
    Spot {
        place: at.place.max(text.len()),
        state: at.state,
    }
}

// Reads on until the state is `stop`, or to the text's end.
pub fn reach(table: &[u8; 3840], text: &[u8], at: Spot, stop: u8) -> Spot
    ensures { result ≡ reached table.now text.now at stop }
{
    let mut here = at;
    while here.place < text.len() && here.state != stop {
        here = turn(table, text, here);
    }
    here
}
