// What a header has under a name.
ghost use Rattle.std.specs.Prelude.{◌≡◌};
ghost use Rattle.pe_header.specs.Find.{find_value};
ghost use Rattle.hub.specs.Header.{found_answer_of};

use hub::header::FoundAnswer;

// Looks a name up in a header.
#[unsafe(no_mangle)]
pub extern "C" fn midici_pe_header_find(header: &[u8], name: &[u8]) -> FoundAnswer
    ensures { result ≡ found_answer_of (find_value header.now name.now) }
{
    hub::header::midici_pe_header_find(header, name)
}
