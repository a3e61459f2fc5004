// A list cut into chunks, and a whole message written.
ghost use Rattle.std.specs.Prelude.{◌≡◌, length};
ghost use Rattle.seven_bit.specs.Reply.{writing};
ghost use Rattle.pe_frame.specs.Write.{write_whole};
ghost use Rattle.pe_chunker.specs.Cut.{cut_count, cut_chunk};
ghost use Rattle.pe_chunker.specs.Split.{cut_list, chunked_told, splitting};
ghost use Rattle.pe_frame.specs.Chunk.{chunk_from};
ghost use Rattle.hub.specs.Answers.{answer_of, left, written, written_of};
ghost use Rattle.hub.specs.Chunks.{cut_answer_of, all_cut_of};

use crate::answer::Answer;
use midici_core::muid::Muid;
use pe_chunker::split::Chunked;
use pe_wire::error::PeError;
use seven_bit::refusal::Refusal;

// How many chunks the header and the body are cut into.
pub fn midici_pe_chunk_count(request_id: u8, header: &[u8], body: &[u8], max_sysex: u32) -> Answer
    ensures { result ≡ answer_of (cut_count request_id header.now body.now max_sysex) }
{
    pe_chunker::chunk_count(request_id, header, body, max_sysex)
        .map(|n| n as u64)
        .into()
}

// The refusal's number, 0 where there is none; how many chunks there are, and how many bytes in all of them, both 0 with a refusal.
#[repr(C)]
#[derive(Clone, Copy, Default)]
pub struct CutAnswer {
    pub refusal: u8,
    pub chunks: u64,
    pub bytes: u64,
}

impl From<Result<Chunked, PeError>> for CutAnswer {
    ghost from_gives = { λ r answer. answer ≡ cut_answer_of (chunked_told r) };

    fn from(r: Result<Chunked, PeError>) -> CutAnswer {
        match r {
            Ok(all) => CutAnswer {
                chunks: all.chunks as u64,
                bytes: all.bytes as u64,
                ..CutAnswer::default()
            },
            Err(e) => CutAnswer {
                refusal: e.number(),
                ..CutAnswer::default()
            },
        }
    }
}

// Writes all of them one after the other into out, and their lengths into a column.
pub fn midici_pe_split(
    request_id: u8,
    header: &[u8],
    body: &[u8],
    max_sysex: u32,
    out: &mut [u8],
    lengths: &mut [u16],
) -> CutAnswer
    ensures { left result (out.new, lengths.new)
        ≡ all_cut_of (splitting (cut_list request_id header.now body.now max_sysex (length out.old)
        (length lengths.old)) out.old lengths.old) }
{
    pe_chunker::split::split(request_id, header, body, max_sysex, out, lengths).into()
}

// Writes chunk number chunk_num of them into out.
pub fn midici_pe_split_chunk(
    request_id: u8,
    header: &[u8],
    body: &[u8],
    max_sysex: u32,
    chunk_num: u16,
    out: &mut [u8],
) -> Answer
    ensures { written result out.new
        ≡ written_of (writing (cut_chunk request_id header.now body.now max_sysex chunk_num
        (length out.old)) out.old) }
{
    pe_chunker::split_chunk(request_id, header, body, max_sysex, chunk_num, out)
        .map(|n| n as u64)
        .into()
}

// Writes a CI header (device 7F, version 2) and a chunk behind it into out.
pub fn midici_pe_encode_message(
    sub_id2: u8,
    source: u32,
    dest: u32,
    request_id: u8,
    header: &[u8],
    num_chunks: u16,
    chunk_num: u16,
    property: &[u8],
    out: &mut [u8],
) -> Answer
    ensures { written result out.new
        ≡ written_of (writing (write_whole sub_id2 source dest
        (chunk_from request_id header.now num_chunks chunk_num property.now) (length out.old))
        out.old) }
{
    pe_frame::message::encode_message(
        sub_id2,
        Muid(source),
        Muid(dest),
        request_id,
        header,
        num_chunks,
        chunk_num,
        property,
        out,
    )
    .map(|n| n as u64)
    .into()
}
