// All chunks of a list in one call.
ghost use Rattle.std.specs.Prelude.{map, ◌≡◌, ◌≤◌, length};
ghost use Rattle.seven_bit.specs.Parts.{put, joined};
ghost use Rattle.pe_chunker.specs.Split.{IsCut, chunks_in, cut_list, chunked_told, split_left, splitting};

use crate::chunk_count;
use crate::piece::CutList;
use pe_frame::frame::PE_FRAMING_LEN;
use pe_wire::error::PeError;

// How many chunks were written, and how many bytes all of them have.
#[derive(Clone, Copy, Debug, PartialEq, Eq)]
pub struct Chunked {
    pub chunks: usize,
    pub bytes: usize,
}

// Stores the chunks one after the other, and their lengths, where there is room for all of them.
fn put_all(list: CutList, out: &mut [u8], lengths: &mut [u16])
    requires cut { IsCut list }
    requires room { (length (joined (chunks_in list)) ≤ length out.old) × (list.num_chunks ≤ length lengths.old) }
    ensures stored { out.new ≡ put out.old 0 (joined (chunks_in list.entry)) }
    ensures column { lengths.new ≡ put lengths.old 0 (map length (chunks_in list.entry)) }
{
    let mut at = 0;
    for k in 0..list.num_chunks {
        let len = list.put_piece(k + 1, out, at);
        lengths[k as usize] = len as u16;
        at += len;
    }
}

// Writes all chunks of the list one after the other into out, and their lengths into a column.
#[tactic(auto, using(crate::proofs::SplitLaws::splits))]
pub fn split(
    request_id: u8,
    header: &[u8],
    body: &[u8],
    max_sysex: u32,
    out: &mut [u8],
    lengths: &mut [u16],
) -> Result<Chunked, PeError>
    ensures { split_left (chunked_told result) out.new lengths.new
        ≡ splitting (cut_list request_id header.now body.now max_sysex (length out.old)
        (length lengths.old)) out.old lengths.old }
{
    let num_chunks = chunk_count(request_id, header, body, max_sysex)?;
    let chunks = num_chunks as usize;
    let bytes = PE_FRAMING_LEN * chunks + header.len() + body.len();
    if out.len() < bytes || lengths.len() < chunks {
        return Err(PeError::BufferTooSmall);
    }
    let list = CutList {
        request_id,
        header,
        body,
        max_sysex,
        num_chunks,
    };
    put_all(list, out, lengths);
    Ok(Chunked { chunks, bytes })
}
