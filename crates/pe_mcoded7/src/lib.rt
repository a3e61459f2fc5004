// From mcoded7.rs: bytes of eight bits as bytes of seven, in groups of a flag byte and up to seven bytes.
#![tactic(auto)]

mod groups;

ghost use Rattle.std.specs.Prelude.{◌≡◌, length};
ghost use Rattle.seven_bit.specs.Reply.{outcome, writing};
ghost use Rattle.pe_wire.specs.Errors.{pe_count};
ghost use Rattle.pe_mcoded7.specs.Mcoded7.{read_mcoded7, write_mcoded7};

use crate::groups::{check, decode_into, encode_into};
use pe_wire::error::PeError;

// The text of the bytes.
#[tactic(auto, using(crate::proofs::TextLaws::length_encoded), unfolding(crate::specs::Mcoded7::write_mcoded7))]
pub fn encode(input: &[u8], out: &mut [u8]) -> Result<usize, PeError>
    ensures { outcome (pe_count result) out.new ≡ writing (write_mcoded7 input.now (length out.old)) out.old }
{
    // a flag byte for each seven bytes, and for those left over
    let len = input.len() + (input.len() + 6) / 7;
    if out.len() < len {
        return Err(PeError::BufferTooSmall);
    }
    encode_into(input, out);
    Ok(len)
}

// The bytes of a text.
pub fn decode(input: &[u8], out: &mut [u8]) -> Result<usize, PeError>
    ensures { outcome (pe_count result) out.new ≡ writing (read_mcoded7 input.now (length out.old)) out.old }
{
    check(input)?;
    // all but the flag bytes
    let len = input.len() - (input.len() + 7) / 8;
    if out.len() < len {
        return Err(PeError::BufferTooSmall);
    }
    decode_into(input, out);
    Ok(len)
}
