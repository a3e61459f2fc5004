// A whole message: the CI header (device 7F, version 2) and a chunk behind it.
ghost use Rattle.std.specs.Prelude.{true, ◌≡◌, ◌≤◌, length};
ghost use Rattle.seven_bit.specs.Parts.{put};
ghost use Rattle.seven_bit.specs.Reply.{outcome, writing};
ghost use Rattle.midici_core.specs.Header.{bytes_of_header, header_of, within28};
ghost use Rattle.pe_wire.specs.Errors.{pe_count};
ghost use Rattle.pe_frame.specs.Chunk.{chunk_from};
ghost use Rattle.pe_frame.specs.Write.{write_whole};

use crate::chunk_ref::PeChunkRef;
use midici_core::error::CiError;
use midici_core::header::CiHeader;
use midici_core::muid::Muid;
use midici_core::spec::{
    CI_HEADER_LEN, DEVICE_ID_FUNCTION_BLOCK, MESSAGE_FORMAT_VERSION_1_2, is_pe_chunked_sub_id,
};
use pe_wire::error::PeError;

// The header's 13 bytes at the front of out, which has room for them.
fn put_header(header: CiHeader, out: &mut [u8])
    requires { (within28 (header_of header) ≡ true) × (13 ≤ length out.old) }
    ensures { out.new ≡ put out.old 0 (bytes_of_header (header_of header)) }
{
    header.encode(out).unwrap();
}

// Writes the header and the chunk into out; the bytes past them keep their values.
#[tactic(auto, using(crate::proofs::MessageLaws::writes_whole), unfolding(crate::specs::Write::chunk_len))]
pub fn encode_message(
    sub_id2: u8,
    source: Muid,
    dest: Muid,
    request_id: u8,
    header: &[u8],
    num_chunks: u16,
    chunk_num: u16,
    property: &[u8],
    out: &mut [u8],
) -> Result<usize, PeError>
    ensures { outcome (pe_count result) out.new
        ≡ writing (write_whole sub_id2 source.0 dest.0
        (chunk_from request_id header.now num_chunks chunk_num property.now) (length out.old))
        out.old }
{
    let ci_header = CiHeader {
        device_id: DEVICE_ID_FUNCTION_BLOCK,
        sub_id2,
        version: MESSAGE_FORMAT_VERSION_1_2,
        source,
        dest,
    };
    if !ci_header.muids_fit() {
        return Err(PeError::Ci(CiError::InvalidMuid));
    }
    if !is_pe_chunked_sub_id(sub_id2) {
        return Err(PeError::Ci(CiError::UnsupportedSubId2(sub_id2)));
    }
    let chunk = PeChunkRef {
        request_id,
        header,
        num_chunks,
        chunk_num,
        property,
    };
    let len = chunk.questions()?;
    let need = CI_HEADER_LEN + len;
    if out.len() < need {
        return Err(PeError::BufferTooSmall);
    }
    put_header(ci_header, out);
    chunk.fill(out, CI_HEADER_LEN);
    Ok(need)
}
