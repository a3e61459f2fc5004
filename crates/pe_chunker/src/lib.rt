// From chunker.rs: a header and a body cut into chunks that fit a SysEx message of a given size.
#![tactic(auto)]

mod piece;
pub mod split;

ghost use Rattle.std.specs.Prelude.{◌≡◌, ◌+◌, ◌-◌, ◌/◌, ◌<◌, ◌≤◌, length};
ghost use Rattle.seven_bit.specs.Reply.{outcome, writing};
ghost use Rattle.pe_wire.specs.Errors.{pe_count};
ghost use Rattle.pe_chunker.specs.Cut.{clamped, budget, later_capacity, ask_first, cut_count, cut_chunk};
ghost use Rattle.pe_chunker.specs.Cut.{body_pieces, counted_told, counted, counting};

use crate::piece::CutList;
use midici_core::spec::CI_HEADER_LEN;
use pe_frame::frame::{MAX_HEADER_BYTES, PE_FRAMING_LEN, REQUEST_ID_MAX};
use pe_wire::error::PeError;
use pe_wire::wire::U14_MAX;
use seven_bit::all_seven_bit;

pub const MAX_SYSEX_MIN: u32 = 128;

pub const MAX_SYSEX_MAX: u32 = 16384;

// How many chunks there are, and how many bytes of this one were written.
#[derive(Clone, Copy, Debug, PartialEq, Eq)]
pub struct Counted {
    pub num_chunks: u16,
    pub len: usize,
}

#[tactic(auto, unfolding(crate::specs::Cut::clamped))]
pub fn clamp_max_sysex(negotiated: u32) -> u32
    ensures { result ≡ clamped negotiated }
{
    negotiated.clamp(MAX_SYSEX_MIN, MAX_SYSEX_MAX)
}

// The bytes for a chunk in a SysEx message of the clamped size: without F0, the CI header and F7.
#[tactic(auto, using(crate::proofs::CutLaws::clamped_between), unfolding(crate::specs::Cut::budget))]
pub fn pe_payload_budget(max_sysex: u32) -> usize
    ensures { result ≡ budget max_sysex }
{
    clamp_max_sysex(max_sysex) as usize - (2 + CI_HEADER_LEN)
}

// The property bytes that fit in the first chunk beside a header.
#[tactic(auto, using(crate::proofs::CutLaws::first_granted, crate::proofs::CutLaws::first_refused))]
pub fn first_chunk_property_capacity(max_sysex: u32, header_len: usize) -> Result<usize, PeError>
    ensures { pe_count result ≡ ask_first max_sysex header_len }
{
    let most = later_chunk_property_capacity(max_sysex);
    most.checked_sub(header_len).ok_or(PeError::HeaderTooLarge)
}

// The property bytes that fit in a later chunk.
#[tactic(auto, using(crate::proofs::CutLaws::budget_between), unfolding(crate::specs::Cut::later_capacity))]
pub fn later_chunk_property_capacity(max_sysex: u32) -> usize
    ensures { result ≡ later_capacity max_sysex }
{
    pe_payload_budget(max_sysex) - PE_FRAMING_LEN
}

// The first chunk, and those for what it leaves of the body.
fn chunks_for(body_len: usize, first: usize, later: usize) -> usize
    requires { (0 < later) × (body_len < 9223372036854775808) }
    ensures { result ≡ 1 + (body_len - first + (later - 1)) / later }
{
    if body_len <= first {
        return 1;
    }
    1 + (body_len - first).div_ceil(later)
}

// How many chunks the header and the body are cut into.
#[tactic(auto, using(crate::proofs::PieceLaws::counts), unfolding(crate::specs::Cut::cut_count, crate::specs::Cut::ask_cut))]
pub fn chunk_count(
    request_id: u8,
    header: &[u8],
    body: &[u8],
    max_sysex: u32,
) -> Result<u16, PeError>
    ensures { pe_count result ≡ cut_count request_id header.now body.now max_sysex }
{
    if request_id > REQUEST_ID_MAX || !all_seven_bit(header) || !all_seven_bit(body) {
        return Err(PeError::BadField);
    }
    let later = later_chunk_property_capacity(max_sysex);
    if header.len() > MAX_HEADER_BYTES || header.len() > later {
        return Err(PeError::HeaderTooLarge);
    }
    let chunks = chunks_for(body.len(), later - header.len(), later);
    if chunks > U14_MAX as usize {
        return Err(PeError::Oversize);
    }
    Ok(chunks as u16)
}

// Chunk number chunk_num of them, written into out, with their count. Every byte of the body is asked with each call; `split` asks once.
#[tactic(auto, using(crate::proofs::ChunkLaws::cuts))]
pub fn split_counted(
    request_id: u8,
    header: &[u8],
    body: &[u8],
    max_sysex: u32,
    chunk_num: u16,
    out: &mut [u8],
) -> Result<Counted, PeError>
    ensures { counted (counted_told result) out.new
        ≡ counting (length (body_pieces max_sysex (length header.now) body.now))
        (cut_chunk request_id header.now body.now max_sysex chunk_num (length out.old))
        out.old }
{
    let num_chunks = chunk_count(request_id, header, body, max_sysex)?;
    if chunk_num < 1 || chunk_num > num_chunks {
        return Err(PeError::ChunkOutOfRange);
    }
    let list = CutList {
        request_id,
        header,
        body,
        max_sysex,
        num_chunks,
    };
    // Where there is no room, nothing is stored.
    let len = list.put_piece(chunk_num, out, 0);
    if out.len() < len {
        return Err(PeError::BufferTooSmall);
    }
    Ok(Counted { num_chunks, len })
}

// The same without the count.
pub fn split_chunk(
    request_id: u8,
    header: &[u8],
    body: &[u8],
    max_sysex: u32,
    chunk_num: u16,
    out: &mut [u8],
) -> Result<usize, PeError>
    ensures { outcome (pe_count result) out.new
        ≡ writing (cut_chunk request_id header.now body.now max_sysex chunk_num (length out.old))
        out.old }
{
    Ok(split_counted(request_id, header, body, max_sysex, chunk_num, out)?.len)
}
