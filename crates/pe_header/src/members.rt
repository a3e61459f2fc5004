// The members of an object, one after the other. The decisions are those of the table.
ghost use Rattle.std.specs.Prelude.{◌≡◌, true, cond, Some, None, List, ◌∷◌, ◌++◌, ℕ, ◌+◌, ◌<◌, ◌≤◌, leb, length, drop, set};
ghost use Rattle.flat_json.specs.Table.{RightTable, run};
ghost use Rattle.flat_json.specs.Tree.{is_digit, all, Piece, Entry, GoodEntry, Tree, Good, text as tree_text};
ghost use Rattle.pe_header.specs.Find.{units, same_units, decimal, list};
ghost use Rattle.pe_header.specs.Names.{NameAt};
ghost use Rattle.pe_header.specs.Members.{name_text, value_from, IsEnd, kind_at, found_of, first_of, ReadRight, SoFar, AllRead};

use crate::names::is_named;
use crate::{Found, Kind};
use flat_json::states::{
    AFTER_COLON, AFTER_NAME, AFTER_VALUE, IN_FALSE, IN_NAME, IN_NUMBER, IN_STRING, IN_TRUE, START,
};
use flat_json::{Spot, reach, turn};

// A value that was read: the state behind its first byte, which tells its kind, place and end of its bytes, and where the reading stands.
#[derive(Clone, Copy)]
pub(crate) struct Value {
    pub(crate) state: u8,
    pub(crate) place: usize,
    pub(crate) end: usize,
    pub(crate) at: Spot,
}

// The kind of a value by the state behind its first byte.
#[tactic(auto, unfolding(crate::specs::Members::kind_at))]
fn kind_at(state: u8) -> Kind
    ensures { result ≡ kind_at state }
{
    match state {
        IN_STRING => Kind::String,
        IN_NUMBER | AFTER_VALUE => Kind::Number,
        IN_TRUE => Kind::True,
        IN_FALSE => Kind::False,
        _ => Kind::Null,
    }
}

impl Value {
    // What is answered where its name is the one that is looked for.
    fn found(self) -> Found
        ensures { result ≡ found_of self }
    {
        Found {
            kind: kind_at(self.state),
            place: self.place as u64,
            len: self.end.saturating_sub(self.place) as u64,
        }
    }
}

// Reads a member from behind the opening quotation mark of its name.
pub(crate) fn value_of(table: &[u8; 3840], text: &[u8], name: Spot) -> Value
    requires { RightTable table.now × (1 ≤ name.place) × (name.place ≤ length text.now) }
    ensures same_run { run table.now name.state (drop name.place text.now)
        ≡ run table.now result.at.state (drop result.at.place text.now) }
    ensures within { (result.at.place ≤ length text.now) × (result.end ≤ result.at.place) }
    ensures goes_on { name.place < length text.now → name.place < result.at.place }
    ensures read_right { (e : Entry) (c : ℕ) (rest : List ℕ) → GoodEntry e → IsEnd c → name.state ≡ 2
        → drop name.place text.now ≡ name_text e (c ∷ rest)
        → ReadRight table.now text.now (value_from name.place e) e.value result }
{
    let named = reach(table, text, name, AFTER_NAME);
    let colon = reach(table, text, named, AFTER_COLON);
    let first = turn(table, text, colon);
    let state = first.state;
    let begin = first.place;
    if state == IN_NUMBER {
        let at = turn(table, text, first);
        return Value {
            state,
            place: begin - 1,
            end: at.place - 1,
            at,
        };
    }
    let at = reach(table, text, first, AFTER_VALUE);
    if state == IN_STRING {
        return Value {
            state,
            place: begin,
            end: at.place - 1,
            at,
        };
    }
    Value {
        state,
        place: begin - 1,
        end: at.place,
        at,
    }
}

// How far the members were read: where the reading stands, how many names were noted, whether no number so far is above 65,535, and the first value
// under the name that is looked for.
#[derive(Clone, Copy)]
pub(crate) struct Walk {
    pub(crate) at: Spot,
    pub(crate) names: usize,
    // A flag: a Result that ends the reading at the first large number is proved too, but took 1.11 times as long, and 1.20 with many names.
    pub(crate) small: bool,
    pub(crate) found: Option<Found>,
}

// Is the number at most 65,535? The low four bits of a digit are its value.
fn fits(text: &[u8], from: usize, to: usize) -> bool
    requires { to ≤ length text.now }
    ensures { (ds rest : List ℕ) → all is_digit ds ≡ true → drop from text.now ≡ ds ++ rest → to ≡ from + length ds
        → result ≡ leb (decimal 0 ds) 65535 }
{
    let mut n = 0u32;
    for i in from..to {
        n = n * 10 + (text[i] % 16) as u32;
        if 65535 < n {
            return false;
        }
    }
    true
}

// Is the value no number above 65,535?
fn is_small(text: &[u8], value: Value) -> bool
    requires { value.end ≤ length text.now }
    ensures other { (value.state ≡ 16 → ⊥) → result ≡ true }
    ensures number { value.state ≡ 16 → (ds rest : List ℕ) → all is_digit ds ≡ true → drop value.place text.now ≡ ds ++ rest
        → value.end ≡ value.place + length ds → result ≡ leb (decimal 0 ds) 65535 }
{
    value.state != IN_NUMBER || fits(text, value.place, value.end)
}

// Notes the place of name k, where there is room.
fn note(names: &mut [u16], k: usize, place: usize)
    requires { place ≤ 4096 }
    ensures { k < length names.old → names.new ≡ set names.old k place }
{
    if k < names.len() {
        names[k] = place as u16;
    }
}

// What was found before, or else this value if its name, at a place, is the one that is looked for.
fn first_found(
    table: &[u8; 3840],
    text: &[u8],
    name: &[u8],
    place: usize,
    found: Option<Found>,
    value: Value,
) -> Option<Found>
    requires { RightTable table.now }
    ensures { (ps : List Piece) → NameAt text.now place ps
        → result ≡ first_of found (cond (same_units (units ps) name.now) (Some (found_of value)) None) }
{
    if found.is_none() && is_named(table, text, place, name) {
        return Some(value.found());
    }
    found
}

// One member more, from the name that the reading stands in.
fn next_member(table: &[u8; 3840], text: &[u8], name: &[u8], walk: Walk, names: &mut [u16]) -> Walk
    requires { RightTable table.now × (1 ≤ walk.at.place) × (walk.at.place < length text.now)
        × (length text.now ≤ 4096) × (walk.names ≤ walk.at.place) }
    ensures goes_on { (walk.at.place < result.at.place) × (result.at.place ≤ length text.now) × (result.names ≤ result.at.place) }
    ensures same_run { run table.now walk.at.state (drop walk.at.place text.now)
        ≡ run table.now result.at.state (drop result.at.place text.now) }
    ensures so_far { (from : ℕ) (es : List Entry) → length es ≤ length names.old
        → SoFar text.now name.now from es names.old walk
        → SoFar text.now name.now from es names.new result }
{
    let value = value_of(table, text, walk.at);
    note(names, walk.names, walk.at.place);
    let small = walk.small && is_small(text, value);
    let found = first_found(table, text, name, walk.at.place, walk.found, value);
    Walk {
        at: reach(table, text, value.at, IN_NAME),
        names: walk.names + 1,
        small,
        found,
    }
}

// Reads all members, notes the places of their names, and looks for one of the name.
pub(crate) fn read_members(table: &[u8; 3840], text: &[u8], name: &[u8], names: &mut [u16]) -> Walk
    requires { RightTable table.now × (length text.now ≤ 4096) }
    ensures state { result.at.state ≡ run table.now 0 text.now }
    ensures all_read { (t : Tree) → Good t → tree_text t ≡ text.now → length (list t.inside) ≤ length names.old
        → AllRead name.now (length t.before + 1) (list t.inside) names.new result }
{
    let start = Spot {
        place: 0,
        state: START,
    };
    let mut walk = Walk {
        at: reach(table, text, start, IN_NAME),
        names: 0,
        small: true,
        found: None,
    };
    while walk.at.place < text.len() {
        walk = next_member(table, text, name, walk, names);
    }
    walk
}
