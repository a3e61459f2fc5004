// The export of pe_slot's lookup over structs.
ghost use Rattle.std.specs.Prelude.{◌≡◌, take};
ghost use Rattle.pe_slot.specs.Records.{place_of};
ghost use Rattle.codec_exports.specs.Slot.{place_answer_of};

use codec_exports::slot::PlaceAnswer;

#[unsafe(no_mangle)]
pub extern "C" fn codec_position(index: &[u64], chunk_num: u16) -> PlaceAnswer
    ensures { result ≡ place_answer_of (place_of chunk_num (take 2048 index.now)) }
{
    codec_exports::slot::codec_position(index, chunk_num)
}
