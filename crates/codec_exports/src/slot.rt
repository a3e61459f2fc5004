// The export of pe_slot's lookup over structs.
ghost use Rattle.std.specs.Prelude.{◌≡◌, take};
ghost use Rattle.pe_slot.specs.Records.{place_of};
ghost use Rattle.codec_exports.specs.Slot.{place_answer_of};

use pe_slot::meta::position_of;

// A record's place; all 0 where there is none.
#[repr(C)]
#[derive(Clone, Copy, Default)]
pub struct PlaceAnswer {
    pub found: bool,
    pub place: u64,
}

impl From<Option<usize>> for PlaceAnswer {
    ghost from_gives = { λ place answer. answer ≡ place_answer_of place };

    fn from(place: Option<usize>) -> PlaceAnswer {
        match place {
            Some(place) => PlaceAnswer {
                found: true,
                place: place as u64,
            },
            None => PlaceAnswer::default(),
        }
    }
}

pub fn codec_position(index: &[u64], chunk_num: u16) -> PlaceAnswer
    ensures { result ≡ place_answer_of (place_of chunk_num (take 2048 index.now)) }
{
    position_of(index, chunk_num).into()
}
