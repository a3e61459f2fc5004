// A list in the lent buffer, and the cutter's words about it.
ghost use Rattle.std.specs.Prelude.{◌≡◌, ◌+◌, leb, length};
ghost use Rattle.seven_bit.specs.Parts.{part};
ghost use Rattle.seven_bit.specs.Reply.{granted, ◌else◌then◌};
ghost use Rattle.pe_wire.specs.Errors.{pe_told, pe_count};
ghost use Rattle.pe_chunker.specs.Cut.{counted_told, counted, counting};
ghost use Rattle.pe_stage.specs.Stage.{is_inside, lent, lent_in, count_in, chunks_in, chunk_in};

use super::place::Outgoing;
use pe_chunker::{Counted, MAX_SYSEX_MAX, chunk_count, split_counted};
use pe_wire::error::PeError;

// Do len bytes from at on lie within so many?
fn is_part(at: u64, len: u64, room: usize) -> bool
    ensures { result ≡ leb (at + len) room }
{
    let room = room as u64;
    at <= room && len <= room - at
}

// The len bytes from at on.
fn part_of(buffer: &[u8], at: u64, len: u64) -> Result<&[u8], PeError>
    ensures { pe_told (λ bytes. bytes.now) result
        ≡ (leb (at + len) (length buffer.now) else 30 then granted (part at len buffer.now)) }
{
    if !is_part(at, len, buffer.len()) {
        return Err(PeError::BadShape);
    }
    let at = at as usize;
    Ok(&buffer[at..at + len as usize])
}

// A list as the cutter takes it. A request id and a limit that are too large for it are too large here as well, or clamped as the cutter does.
#[derive(Clone, Copy)]
struct Lent<'a> {
    request_id: u8,
    header: &'a [u8],
    body: &'a [u8],
    max_sysex: u32,
}

#[tactic(auto, using(crate::proofs::CutLaws::header_outside, crate::proofs::CutLaws::body_outside, crate::proofs::CutLaws::both_inside))]
fn lend(buffer: &[u8], list: Outgoing) -> Result<Lent<'_>, PeError>
    ensures { pe_told (λ l. lent l.request_id l.header.now l.body.now l.max_sysex) result
        ≡ (is_inside buffer.now list else 30 then granted (lent_in buffer.now list)) }
{
    Ok(Lent {
        request_id: list.request_id.min(255) as u8,
        header: part_of(buffer, list.header_at, list.header_len)?,
        body: part_of(buffer, list.body_at, list.body_len)?,
        max_sysex: list.max_sysex.min(MAX_SYSEX_MAX as u64) as u32,
    })
}

// How many chunks a list of the buffer is cut into.
#[tactic(auto, using(crate::proofs::CutLaws::count_outside, crate::proofs::CutLaws::count_lent))]
pub(crate) fn count_in(buffer: &[u8], list: Outgoing) -> Result<u16, PeError>
    ensures { pe_count result ≡ count_in buffer.now list }
{
    let lent = lend(buffer, list)?;
    chunk_count(lent.request_id, lent.header, lent.body, lent.max_sysex)
}

// Writes chunk number chunk_num of it into out, with the count.
#[tactic(auto, using(crate::proofs::CutLaws::counting_outside, crate::proofs::CutLaws::counting_lent))]
pub(crate) fn chunk_in(
    buffer: &[u8],
    list: Outgoing,
    chunk_num: u64,
    out: &mut [u8],
) -> Result<Counted, PeError>
    ensures { counted (counted_told result) out.new
        ≡ counting (chunks_in buffer.now list) (chunk_in buffer.now list chunk_num (length out.old))
        out.old }
{
    let lent = lend(buffer, list)?;
    let chunk_num = chunk_num.min(65535) as u16;
    split_counted(
        lent.request_id,
        lent.header,
        lent.body,
        lent.max_sysex,
        chunk_num,
        out,
    )
}
