// The exports of pe_wire, pe_mcoded7, pe_frame, pe_chunker and pe_controller; those that hub has are not among them.
ghost use Rattle.std.specs.Prelude.{◌≡◌, length};
ghost use Rattle.seven_bit.specs.Reply.{and_next, writing};
ghost use Rattle.pe_wire.specs.Errors.{pe_told};
ghost use Rattle.pe_wire.specs.Wire.{read_u14, write_u14};
ghost use Rattle.pe_mcoded7.specs.Mcoded7.{read_mcoded7, write_mcoded7};
ghost use Rattle.pe_controller.specs.Controller.{negotiated};
ghost use Rattle.pe_frame.specs.Chunk.{fields_of, read_fields, read_chunk, chunk_from};
ghost use Rattle.pe_frame.specs.Write.{write_chunk};
ghost use Rattle.pe_chunker.specs.Cut.{clamped, budget, ask_first, later_capacity};
ghost use Rattle.hub.specs.Answers.{answer_of, written, written_of};
ghost use Rattle.codec_exports.specs.Answers.{chunk_answer_of};

use hub::answer::Answer;
use pe_controller::RequestCounter;
use pe_frame::frame::ChunkFields;
use pe_wire::error::PeError;
use seven_bit::refusal::Refusal;

// With a refusal every other field is 0; else the refusal's number and value are 0.
#[repr(C)]
#[derive(Clone, Copy, Default)]
pub struct ChunkAnswer {
    pub refusal: u8,
    pub value: u8,
    pub request_id: u8,
    pub header_len: u64,
    pub num_chunks: u16,
    pub chunk_num: u16,
    pub property_at: u64,
    pub property_len: u64,
}

impl From<Result<ChunkFields, PeError>> for ChunkAnswer {
    ghost from_gives = { λ r answer. answer ≡ chunk_answer_of (pe_told fields_of r) };

    fn from(r: Result<ChunkFields, PeError>) -> ChunkAnswer {
        match r {
            Ok(fields) => ChunkAnswer {
                request_id: fields.request_id,
                header_len: fields.header_len as u64,
                num_chunks: fields.num_chunks,
                chunk_num: fields.chunk_num,
                property_at: fields.property_at as u64,
                property_len: fields.property_len as u64,
                ..ChunkAnswer::default()
            },
            Err(e) => ChunkAnswer {
                refusal: e.number(),
                value: e.value(),
                ..ChunkAnswer::default()
            },
        }
    }
}

pub fn codec_read_u14_le7(bytes: &[u8]) -> Answer
    ensures { result ≡ answer_of (read_u14 bytes.now) }
{
    pe_wire::wire::read_u14_le7(bytes).map(|v| v as u64).into()
}

pub fn codec_write_u14_le7(v: u16, out: &mut [u8]) -> Answer
    ensures { written result out.new ≡ written_of (writing (write_u14 v (length out.old)) out.old) }
{
    pe_wire::wire::write_u14_le7(v, out)
        .map(|n| n as u64)
        .into()
}

pub fn codec_mcoded7_decode(input: &[u8], out: &mut [u8]) -> Answer
    ensures { written result out.new
        ≡ written_of (writing (read_mcoded7 input.now (length out.old)) out.old) }
{
    pe_mcoded7::decode(input, out).map(|n| n as u64).into()
}

pub fn codec_mcoded7_encode(input: &[u8], out: &mut [u8]) -> Answer
    ensures { written result out.new
        ≡ written_of (writing (write_mcoded7 input.now (length out.old)) out.old) }
{
    pe_mcoded7::encode(input, out).map(|n| n as u64).into()
}

// The counter as it starts.
pub fn codec_first_request_id() -> u8
    ensures { result ≡ 1 }
{
    RequestCounter::new().next
}

pub fn codec_negotiated_requests(ours: u8, theirs: u8) -> u8
    ensures { result ≡ negotiated ours theirs }
{
    pe_controller::negotiated_requests(ours, theirs)
}

pub fn codec_decode_fields(bytes: &[u8]) -> ChunkAnswer
    ensures { result ≡ chunk_answer_of (read_fields bytes.now) }
{
    pe_frame::frame::decode_fields(bytes).into()
}

pub fn codec_encode_chunk(
    request_id: u8,
    header: &[u8],
    num_chunks: u16,
    chunk_num: u16,
    property: &[u8],
    out: &mut [u8],
) -> Answer
    ensures { written result out.new
        ≡ written_of (writing (write_chunk (chunk_from request_id header.now num_chunks chunk_num property.now)
        (length out.old)) out.old) }
{
    pe_frame::frame::encode(request_id, header, num_chunks, chunk_num, property, out)
        .map(|n| n as u64)
        .into()
}

pub fn codec_rewrite(bytes: &[u8], out: &mut [u8]) -> Answer
    ensures { written result out.new
        ≡ written_of (writing (and_next (read_chunk bytes.now) (λ c. write_chunk c (length out.old))) out.old) }
{
    pe_frame::chunk_ref::rewrite(bytes, out)
        .map(|n| n as u64)
        .into()
}

pub fn codec_clamp_max_sysex(negotiated: u32) -> u32
    ensures { result ≡ clamped negotiated }
{
    pe_chunker::clamp_max_sysex(negotiated)
}

pub fn codec_pe_payload_budget(max_sysex: u32) -> u64
    ensures { result ≡ budget max_sysex }
{
    pe_chunker::pe_payload_budget(max_sysex) as u64
}

pub fn codec_first_chunk_property_capacity(max_sysex: u32, header_len: usize) -> Answer
    ensures { result ≡ answer_of (ask_first max_sysex header_len) }
{
    pe_chunker::first_chunk_property_capacity(max_sysex, header_len)
        .map(|n| n as u64)
        .into()
}

pub fn codec_later_chunk_property_capacity(max_sysex: u32) -> u64
    ensures { result ≡ later_capacity max_sysex }
{
    pe_chunker::later_chunk_property_capacity(max_sysex) as u64
}
