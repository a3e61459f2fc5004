// What a header says under a name: the header is read as one flat JSON object.
#![tactic(auto)]

mod members;
mod names;

ghost use Rattle.std.specs.Prelude.{◌≡◌, ◌*◌, ◌≤◌, length};
ghost use Rattle.flat_json.specs.Table.{RightTable};
ghost use Rattle.pe_header.specs.Find.{json_number, json_value, json_told, lookup_of, find_value};

use crate::members::read_members;
use crate::names::stands_twice;
use flat_json::states::DONE;
use seven_bit::refusal::Refusal;

#[derive(Clone, Copy, Debug, PartialEq, Eq)]
pub enum JsonError {
    // The header has more than 4,096 bytes.
    HeaderTooLong,
    // It is not one flat JSON object of bytes up to 7F, or a number is above 65,535.
    NotFlatObject,
    // A name, its escapes resolved, stands twice.
    NameTwice,
}

impl Refusal for JsonError {
    ghost number = { json_number };

    ghost value = { json_value };

    // Document 02's number.
    fn number(self) -> u8 {
        match self {
            JsonError::HeaderTooLong => 33,
            JsonError::NotFlatObject => 34,
            JsonError::NameTwice => 35,
        }
    }

    fn value(self) -> u8 {
        0
    }
}

#[derive(Clone, Copy, Debug, PartialEq, Eq)]
pub enum Kind {
    String,
    Number,
    True,
    False,
    Null,
}

// A value's kind, and place and length of its bytes in the header, a string's without the quotation marks.
#[derive(Clone, Copy, Debug, PartialEq, Eq)]
pub struct Found {
    pub kind: Kind,
    pub place: u64,
    pub len: u64,
}

// Looks a name up, with columns for the places and the fingerprints of the header's names. A member takes five bytes at least.
fn find_with(
    table: &[u8; 3840],
    header: &[u8],
    name: &[u8],
    names: &mut [u16],
    prints: &mut [u16],
) -> Result<Option<Found>, JsonError>
    requires { RightTable table.now × (length header.now ≤ 4096) × (length header.now ≤ 5 * length names.old)
        × (length names.old ≤ length prints.old) }
    ensures { json_told lookup_of result ≡ find_value header.now name.now }
{
    let walk = read_members(table, header, name, names);
    if walk.at.state != DONE || !walk.small {
        return Err(JsonError::NotFlatObject);
    }
    if stands_twice(table, header, names, prints, walk.names) {
        return Err(JsonError::NameTwice);
    }
    if !seven_bit::all_seven_bit(name) {
        return Ok(None);
    }
    Ok(walk.found)
}

// Lends columns of a length that suits the header.
fn find_by(table: &[u8; 3840], header: &[u8], name: &[u8]) -> Result<Option<Found>, JsonError>
    requires { RightTable table.now × (length header.now ≤ 4096) }
    ensures { json_told lookup_of result ≡ find_value header.now name.now }
{
    if header.len() <= 320 {
        let mut names = [0u16; 64];
        let mut prints = [0u16; 64];
        return find_with(table, header, name, &mut names, &mut prints);
    }
    let mut names = [0u16; 820];
    let mut prints = [0u16; 820];
    find_with(table, header, name, &mut names, &mut prints)
}

// What the header has under the name; None if the name is absent.
pub fn find(header: &[u8], name: &[u8]) -> Result<Option<Found>, JsonError>
    ensures { json_told lookup_of result ≡ find_value header.now name.now }
{
    if 4096 < header.len() {
        return Err(JsonError::HeaderTooLong);
    }
    find_by(&flat_json::states::TABLE, header, name)
}
