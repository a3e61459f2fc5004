// The messages of a .syx file.
ghost use Rattle.std.specs.Prelude.{◌≡◌};
ghost use Rattle.syx.specs.Listing.{counts_of, list_call, syx_told};
ghost use Rattle.hub.specs.Answers.{left};
ghost use Rattle.hub.specs.Files.{syx_answer_of, syx_listed_of};

use seven_bit::refusal::Refusal;
use syx::{Listed, SyxError};

// The refusal's number, 0 where there is none; how many messages are listed, and how many were torn, both 0 with a refusal.
#[repr(C)]
#[derive(Clone, Copy, Default)]
pub struct SyxAnswer {
    pub refusal: u8,
    pub messages: u64,
    pub torn: u64,
}

impl From<Result<Listed, SyxError>> for SyxAnswer {
    ghost from_gives = { λ r answer. answer ≡ syx_answer_of (syx_told counts_of r) };

    fn from(r: Result<Listed, SyxError>) -> SyxAnswer {
        match r {
            Ok(listed) => SyxAnswer {
                messages: listed.messages,
                torn: listed.torn,
                ..SyxAnswer::default()
            },
            Err(e) => SyxAnswer {
                refusal: e.number(),
                ..SyxAnswer::default()
            },
        }
    }
}

// Lists place and length of each message's body, F0 and F7 not counted.
pub fn midici_pe_syx_list(file: &[u8], places: &mut [u64], lengths: &mut [u64]) -> SyxAnswer
    ensures { left result (places.new, lengths.new)
        ≡ syx_listed_of (list_call file.now places.old lengths.old) }
{
    syx::list(file, places, lengths).into()
}
