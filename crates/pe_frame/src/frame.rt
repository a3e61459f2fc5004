// A chunk: request id, header length (14 bits), header, chunk count (14), chunk number (14), property length (14), property.
ghost use Rattle.std.specs.Prelude.{true, false, ◌≡◌, ◌+◌, ◌≤◌, length};
ghost use Rattle.seven_bit.specs.Parts.{part, put};
ghost use Rattle.seven_bit.specs.Reply.{outcome, writing};
ghost use Rattle.seven_bit.specs.SevenBit.{is_seven_bit, number_of, bytes_of};
ghost use Rattle.pe_wire.specs.Errors.{pe_count, pe_refused, pe_told};
ghost use Rattle.pe_frame.specs.Chunk.{within_count, read_fields, fields_of, chunk_from};
ghost use Rattle.pe_frame.specs.Write.{put_chunk, write_chunk};

use crate::chunk_ref::PeChunkRef;
use crate::low::{all_low, each_low};
use pe_wire::error::PeError;
use pe_wire::wire::{U14_MAX, join_u14, write_u14_le7};

// The bytes of a chunk besides its header and property.
pub const PE_FRAMING_LEN: usize = 9;

// Where its header starts, behind the request id and the header's length.
pub const HEADER_AT: usize = 3;

pub const REQUEST_ID_MAX: u8 = 0x7F;

// The longest header that is cut, and that a table has room for.
pub const MAX_HEADER_BYTES: usize = 4096;

// What reading a chunk finds: its header starts at HEADER_AT, its property at property_at.
#[derive(Clone, Copy, Debug, PartialEq, Eq)]
pub struct ChunkFields {
    pub request_id: u8,
    pub header_len: usize,
    pub num_chunks: u16,
    pub chunk_num: u16,
    pub property_at: usize,
    pub property_len: usize,
}

// The number in the two bytes from at on.
fn u14_at(data: &[u8], at: usize) -> u16
    requires { at + 2 ≤ length «data».now }
    ensures { result ≡ number_of (part at 2 «data».now) }
{
    join_u14(data[at], data[at + 1])
}

// Is a chunk's number within its count, where that is known?
#[tactic(auto, unfolding(crate::specs::Chunk::within_count))]
pub(crate) fn is_within_count(chunk_num: u16, num_chunks: u16) -> bool
    ensures { result ≡ within_count chunk_num num_chunks }
{
    num_chunks == 0 || chunk_num <= num_chunks
}

// A chunk of at least nine bytes, all of them up to 7F.
fn decode_low(data: &[u8]) -> Result<ChunkFields, PeError>
    requires { (9 ≤ length «data».now) × (is_seven_bit «data».now ≡ true) }
    ensures { pe_told fields_of result ≡ read_fields «data».now }
{
    let nh = u14_at(data, 1) as usize;
    let property_at = PE_FRAMING_LEN + nh;
    if data.len() < property_at {
        return Err(PeError::Truncated);
    }
    let behind = HEADER_AT + nh;
    let num_chunks = u14_at(data, behind);
    let chunk_num = u14_at(data, behind + 2);
    let nd = u14_at(data, behind + 4) as usize;
    if data.len() < property_at + nd {
        return Err(PeError::Truncated);
    }
    if property_at + nd < data.len() {
        return Err(PeError::BadField);
    }
    // The header stands in chunk 1 only.
    if chunk_num != 1 && nh != 0 {
        return Err(PeError::InconsistentChunking);
    }
    if !is_within_count(chunk_num, num_chunks) {
        return Err(PeError::InconsistentChunking);
    }
    Ok(ChunkFields {
        request_id: data[0],
        header_len: nh,
        num_chunks,
        chunk_num,
        property_at,
        property_len: nd,
    })
}

// Why a chunk of at least nine bytes, one of them above 7F, is turned down: behind the fields it is one byte too many or the property's.
fn high_byte(data: &[u8]) -> PeError
    requires { (9 ≤ length «data».now) × (is_seven_bit «data».now ≡ false) }
    ensures { pe_refused result ≡ read_fields «data».now }
{
    if !each_low(&data[0..HEADER_AT]) {
        return PeError::BadField;
    }
    let property_at = PE_FRAMING_LEN + u14_at(data, 1) as usize;
    if data.len() < property_at {
        return PeError::Truncated;
    }
    if !each_low(&data[0..property_at]) {
        return PeError::BadField;
    }
    if data.len() < property_at + u14_at(data, property_at - 2) as usize {
        return PeError::Truncated;
    }
    PeError::BadField
}

// Reads a chunk. All its bytes are asked at once, since all are up to 7F in a good one; only where one is not, they are asked in their order.
#[tactic(auto, unfolding(crate::specs::Chunk::read_fields))]
pub fn decode_fields(data: &[u8]) -> Result<ChunkFields, PeError>
    ensures { pe_told fields_of result ≡ read_fields «data».now }
{
    if data.len() < PE_FRAMING_LEN {
        return Err(PeError::Truncated);
    }
    if !all_low(data) {
        return Err(high_byte(data));
    }
    decode_low(data)
}

// A field of 14 bits, at a place that has room for it.
pub(crate) fn put_u14(out: &mut [u8], at: usize, v: u16)
    requires { (at + 2 ≤ length out.old) × (v ≤ 16383) }
    ensures { out.new ≡ put out.old at (bytes_of 2 v) }
{
    write_u14_le7(v, &mut out[at..]).unwrap();
}

// Stores a chunk at a place of out, where its numbers have 14 bits and it fits, and else leaves out as it is. Whether its bytes are up to 7F
// and its numbers go together is not asked: for a caller that has asked it of a whole list.
#[tactic(auto, using(crate::proofs::ChunkLaws::stores), unfolding(crate::specs::Write::put_chunk, crate::specs::Write::chunk_len))]
pub fn put_chunk(
    request_id: u8,
    header: &[u8],
    num_chunks: u16,
    chunk_num: u16,
    property: &[u8],
    out: &mut [u8],
    at: usize,
)
    ensures { out.new
        ≡ put_chunk (chunk_from request_id header.now num_chunks chunk_num property.now) out.old at }
{
    if header.len() > U14_MAX as usize
        || property.len() > U14_MAX as usize
        || num_chunks > U14_MAX
        || chunk_num > U14_MAX
        || out.len() < at
        || out.len() - at < PE_FRAMING_LEN + header.len() + property.len()
    {
        return;
    }
    let chunk = PeChunkRef {
        request_id,
        header,
        num_chunks,
        chunk_num,
        property,
    };
    chunk.fill(out, at);
}

// Writes a chunk into out; the bytes past it keep their values.
pub fn encode(
    request_id: u8,
    header: &[u8],
    num_chunks: u16,
    chunk_num: u16,
    property: &[u8],
    out: &mut [u8],
) -> Result<usize, PeError>
    ensures { outcome (pe_count result) out.new
        ≡ writing (write_chunk (chunk_from request_id header.now num_chunks chunk_num property.now)
        (length out.old)) out.old }
{
    let chunk = PeChunkRef {
        request_id,
        header,
        num_chunks,
        chunk_num,
        property,
    };
    chunk.encode(out)
}
