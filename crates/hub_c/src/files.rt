// The messages of a .syx file.
ghost use Rattle.std.specs.Prelude.{◌≡◌};
ghost use Rattle.syx.specs.Listing.{list_call};
ghost use Rattle.hub.specs.Answers.{left};
ghost use Rattle.hub.specs.Files.{syx_listed_of};

use hub::files::SyxAnswer;

// Lists place and length of each message's body, F0 and F7 not counted.
#[unsafe(no_mangle)]
pub extern "C" fn midici_pe_syx_list(
    file: &[u8],
    places: &mut [u64],
    lengths: &mut [u64],
) -> SyxAnswer
    ensures { left result (places.new, lengths.new)
        ≡ syx_listed_of (list_call file.now places.old lengths.old) }
{
    hub::files::midici_pe_syx_list(file, places, lengths)
}
