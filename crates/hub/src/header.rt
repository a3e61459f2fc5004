// What a header has under a name.
ghost use Rattle.std.specs.Prelude.{◌≡◌};
ghost use Rattle.pe_header.specs.Find.{json_told, lookup_of, find_value};
ghost use Rattle.hub.specs.Header.{kind_number, found_answer_of};

use pe_header::{Found, JsonError, Kind};
use seven_bit::refusal::Refusal;

// The refusal's number, 0 where there is none; the value's kind, 0 where the name is absent; place and length of its bytes in the header.
#[repr(C)]
#[derive(Clone, Copy, Default)]
pub struct FoundAnswer {
    pub refusal: u8,
    pub kind: u8,
    pub place: u64,
    pub length: u64,
}

// The C header's number of a kind, in the form that c/test/signatures.py reads.
fn kind_number(kind: Kind) -> u8
    ensures { result ≡ kind_number kind }
{
    match kind {
        Kind::String => 1,
        Kind::Number => 2,
        Kind::True => 3,
        Kind::False => 4,
        Kind::Null => 5,
    }
}

impl From<Result<Option<Found>, JsonError>> for FoundAnswer {
    ghost from_gives = { λ r answer. answer ≡ found_answer_of (json_told lookup_of r) };

    fn from(r: Result<Option<Found>, JsonError>) -> FoundAnswer {
        match r {
            Ok(None) => FoundAnswer::default(),
            Ok(Some(found)) => FoundAnswer {
                kind: kind_number(found.kind),
                place: found.place,
                length: found.len,
                ..FoundAnswer::default()
            },
            Err(e) => FoundAnswer {
                refusal: e.number(),
                ..FoundAnswer::default()
            },
        }
    }
}

// Looks a name up in a header.
pub fn midici_pe_header_find(header: &[u8], name: &[u8]) -> FoundAnswer
    ensures { result ≡ found_answer_of (find_value header.now name.now) }
{
    pe_header::find(header, name).into()
}
