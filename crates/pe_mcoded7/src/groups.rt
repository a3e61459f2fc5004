// The groups one after the other: written, checked and read.
ghost use Rattle.std.specs.Prelude.{ℕ, true, ◌≡◌, ◌+◌, ◌-◌, ◌%◌, ◌^◌, ◌<◌, ◌≤◌, length};
ghost use Rattle.seven_bit.specs.Parts.{put};
ghost use Rattle.seven_bit.specs.Reply.{granted};
ghost use Rattle.seven_bit.specs.SevenBit.{is_seven_bit};
ghost use Rattle.pe_wire.specs.Errors.{pe_told};
ghost use Rattle.pe_mcoded7.specs.Mcoded7.{group_bytes, encoded, groups, group_data, decoded, ask_group, ask_groups};

use pe_wire::error::PeError;
use seven_bit::all_seven_bit;

// A group's text from at on: the low seven bits of each byte, and before them the flag byte, which takes in the top bits from the last one on.
fn encode_group(group: &[u8], out: &mut [u8], at: usize)
    requires { (length group.now ≤ 7) × (at + length group.now < length out.old) }
    ensures { out.new ≡ put out.old at (group_bytes group.now) }
{
    let mut flags = 0u8;
    for i in (0..group.len()).rev() {
        let byte = group[i];
        out[at + 1 + i] = byte % 128;
        flags = flags / 2 + byte / 128 * 64;
    }
    out[at] = flags;
}

// The text of all groups.
pub(crate) fn encode_into(input: &[u8], out: &mut [u8])
    requires { length (encoded input.now) ≤ length out.old }
    ensures { out.new ≡ put out.old 0 (encoded input.now) }
{
    let mut at = 0;
    for group in input.chunks(7) {
        encode_group(group, out, at);
        at += 1 + group.len();
    }
}

// The bits of a flag byte below those of its group's bytes.
fn spare_bits(flags: u8, group_len: usize) -> u8
    requires { (2 ≤ group_len) × (group_len ≤ 8) }
    ensures { result ≡ flags % 2 ^ (8 - group_len) }
{
    flags % (1 << (8 - group_len))
}

// Is the group as a text may have it?
#[tactic(auto, unfolding(crate::specs::Mcoded7::ask_group))]
fn check_group(group: &[u8]) -> Result<(), PeError>
    requires { length group.now ≤ 8 }
    ensures { pe_told {A = ℕ} (λ _. 0) result ≡ ask_group group.now (granted 0) }
{
    if group.len() < 2 {
        return Err(PeError::BadMcoded7);
    }
    if !all_seven_bit(group) {
        return Err(PeError::BadField);
    }
    if spare_bits(group[0], group.len()) != 0 {
        return Err(PeError::BadMcoded7);
    }
    Ok(())
}

// The same for all groups of a text, in their order.
pub(crate) fn check(input: &[u8]) -> Result<(), PeError>
    ensures { pe_told {A = ℕ} (λ _. 0) result ≡ ask_groups (groups input.now) (granted 0) }
{
    for group in input.chunks(8) {
        check_group(group)?;
    }
    Ok(())
}

// A group's bytes with their top bits, from at on. The flag byte moves up, so that the next bit is always bit 6.
fn decode_group(group: &[u8], out: &mut [u8], at: usize)
    requires { (0 < length group.now) × (length group.now ≤ 8) × (is_seven_bit group.now ≡ true) × (at + length group.now ≤ length out.old + 1) }
    ensures { out.new ≡ put out.old at (group_data group.now) }
{
    let mut flags = group[0];
    for (i, byte) in group[1..].iter().enumerate() {
        out[at + i] = byte + flags / 64 * 128;
        flags = flags % 64 * 2;
    }
}

// The bytes of all groups.
pub(crate) fn decode_into(input: &[u8], out: &mut [u8])
    requires { (is_seven_bit input.now ≡ true) × (length (decoded input.now) ≤ length out.old) }
    ensures { out.new ≡ put out.old 0 (decoded input.now) }
{
    let mut at = 0;
    for group in input.chunks(8) {
        decode_group(group, out, at);
        at += group.len() - 1;
    }
}
