// The exports of pe_wire, pe_mcoded7, pe_frame, pe_chunker and pe_controller; those that hub has are not among them.
ghost use Rattle.std.specs.Prelude.{◌≡◌, length};
ghost use Rattle.seven_bit.specs.Reply.{and_next, writing};
ghost use Rattle.pe_wire.specs.Wire.{read_u14, write_u14};
ghost use Rattle.pe_mcoded7.specs.Mcoded7.{read_mcoded7, write_mcoded7};
ghost use Rattle.pe_controller.specs.Controller.{negotiated};
ghost use Rattle.pe_frame.specs.Chunk.{read_fields, read_chunk, chunk_from};
ghost use Rattle.pe_frame.specs.Write.{write_chunk};
ghost use Rattle.pe_chunker.specs.Cut.{clamped, budget, ask_first, later_capacity};
ghost use Rattle.hub.specs.Answers.{answer_of, written, written_of};
ghost use Rattle.codec_exports.specs.Answers.{chunk_answer_of};

use codec_exports::pe::ChunkAnswer;
use hub::answer::Answer;

#[unsafe(no_mangle)]
pub extern "C" fn codec_read_u14_le7(bytes: &[u8]) -> Answer
    ensures { result ≡ answer_of (read_u14 bytes.now) }
{
    codec_exports::pe::codec_read_u14_le7(bytes)
}

#[unsafe(no_mangle)]
pub extern "C" fn codec_write_u14_le7(v: u16, out: &mut [u8]) -> Answer
    ensures { written result out.new ≡ written_of (writing (write_u14 v (length out.old)) out.old) }
{
    codec_exports::pe::codec_write_u14_le7(v, out)
}

#[unsafe(no_mangle)]
pub extern "C" fn codec_mcoded7_decode(input: &[u8], out: &mut [u8]) -> Answer
    ensures { written result out.new
        ≡ written_of (writing (read_mcoded7 input.now (length out.old)) out.old) }
{
    codec_exports::pe::codec_mcoded7_decode(input, out)
}

#[unsafe(no_mangle)]
pub extern "C" fn codec_mcoded7_encode(input: &[u8], out: &mut [u8]) -> Answer
    ensures { written result out.new
        ≡ written_of (writing (write_mcoded7 input.now (length out.old)) out.old) }
{
    codec_exports::pe::codec_mcoded7_encode(input, out)
}

// The counter as it starts.
#[unsafe(no_mangle)]
pub extern "C" fn codec_first_request_id() -> u8
    ensures { result ≡ 1 }
{
    codec_exports::pe::codec_first_request_id()
}

#[unsafe(no_mangle)]
pub extern "C" fn codec_negotiated_requests(ours: u8, theirs: u8) -> u8
    ensures { result ≡ negotiated ours theirs }
{
    codec_exports::pe::codec_negotiated_requests(ours, theirs)
}

#[unsafe(no_mangle)]
pub extern "C" fn codec_decode_fields(bytes: &[u8]) -> ChunkAnswer
    ensures { result ≡ chunk_answer_of (read_fields bytes.now) }
{
    codec_exports::pe::codec_decode_fields(bytes)
}

#[unsafe(no_mangle)]
pub extern "C" fn codec_encode_chunk(
    request_id: u8,
    header: &[u8],
    num_chunks: u16,
    chunk_num: u16,
    property: &[u8],
    out: &mut [u8],
) -> Answer
    ensures { written result out.new
        ≡ written_of (writing (write_chunk (chunk_from request_id header.now num_chunks chunk_num property.now)
        (length out.old)) out.old) }
{
    codec_exports::pe::codec_encode_chunk(request_id, header, num_chunks, chunk_num, property, out)
}

#[unsafe(no_mangle)]
pub extern "C" fn codec_rewrite(bytes: &[u8], out: &mut [u8]) -> Answer
    ensures { written result out.new
        ≡ written_of (writing (and_next (read_chunk bytes.now) (λ c. write_chunk c (length out.old))) out.old) }
{
    codec_exports::pe::codec_rewrite(bytes, out)
}

#[unsafe(no_mangle)]
pub extern "C" fn codec_clamp_max_sysex(negotiated: u32) -> u32
    ensures { result ≡ clamped negotiated }
{
    codec_exports::pe::codec_clamp_max_sysex(negotiated)
}

#[unsafe(no_mangle)]
pub extern "C" fn codec_pe_payload_budget(max_sysex: u32) -> u64
    ensures { result ≡ budget max_sysex }
{
    codec_exports::pe::codec_pe_payload_budget(max_sysex)
}

#[unsafe(no_mangle)]
pub extern "C" fn codec_first_chunk_property_capacity(max_sysex: u32, header_len: usize) -> Answer
    ensures { result ≡ answer_of (ask_first max_sysex header_len) }
{
    codec_exports::pe::codec_first_chunk_property_capacity(max_sysex, header_len)
}

#[unsafe(no_mangle)]
pub extern "C" fn codec_later_chunk_property_capacity(max_sysex: u32) -> u64
    ensures { result ≡ later_capacity max_sysex }
{
    codec_exports::pe::codec_later_chunk_property_capacity(max_sysex)
}
