// PeChunkRef: a chunk that refers to its header's and property's bytes, as those that it was read from.
ghost use Rattle.std.specs.Prelude.{◌≡◌, ◌+◌, ◌≤◌, length};
ghost use Rattle.seven_bit.specs.Parts.{put};
ghost use Rattle.seven_bit.specs.Reply.{and_next, granted, outcome, writing};
ghost use Rattle.pe_wire.specs.Errors.{pe_count, pe_told};
ghost use Rattle.pe_frame.specs.Chunk.{read_chunk};
ghost use Rattle.pe_frame.specs.ChunkRef.{chunk_in};
ghost use Rattle.pe_frame.specs.Write.{ask_chunk, chunk_bytes, chunk_len, write_chunk};

use crate::frame::{
    HEADER_AT, PE_FRAMING_LEN, REQUEST_ID_MAX, decode_fields, is_within_count, put_u14,
};
use pe_wire::error::PeError;
use pe_wire::wire::U14_MAX;
use seven_bit::{all_seven_bit, copy_in};

#[derive(Clone, Copy, Debug, PartialEq, Eq)]
pub struct PeChunkRef<'a> {
    pub request_id: u8,
    pub header: &'a [u8],
    // 0 where the number of chunks is not yet known.
    pub num_chunks: u16,
    pub chunk_num: u16,
    pub property: &'a [u8],
}

impl<'a> PeChunkRef<'a> {
    pub fn decode(data: &'a [u8]) -> Result<PeChunkRef<'a>, PeError>
        ensures { pe_told chunk_in result ≡ read_chunk «data».now }
    {
        let fields = decode_fields(data)?;
        Ok(PeChunkRef {
            request_id: fields.request_id,
            header: &data[HEADER_AT..HEADER_AT + fields.header_len],
            num_chunks: fields.num_chunks,
            chunk_num: fields.chunk_num,
            property: &data[fields.property_at..fields.property_at + fields.property_len],
        })
    }

    // The questions before a chunk is written, except for the room: how long it is, or why it can't be written.
    #[tactic(auto, unfolding(crate::specs::Write::ask_chunk, crate::specs::Write::chunk_len))]
    pub(crate) fn questions(&self) -> Result<usize, PeError>
        ensures { pe_count result
            ≡ ask_chunk (chunk_in self.now) (granted (chunk_len (chunk_in self.now))) }
    {
        if self.request_id > REQUEST_ID_MAX
            || self.header.len() > U14_MAX as usize
            || self.property.len() > U14_MAX as usize
            || self.num_chunks > U14_MAX
            || self.chunk_num > U14_MAX
            || !all_seven_bit(self.header)
            || !all_seven_bit(self.property)
        {
            return Err(PeError::BadField);
        }
        if self.chunk_num != 1 && !self.header.is_empty() {
            return Err(PeError::InconsistentChunking);
        }
        if !is_within_count(self.chunk_num, self.num_chunks) {
            return Err(PeError::InconsistentChunking);
        }
        Ok(PE_FRAMING_LEN + self.header.len() + self.property.len())
    }

    // The chunk's bytes from place at of out on, which has room for them.
    pub(crate) fn fill(&self, out: &mut [u8], at: usize)
        requires { (length self.now.header.now ≤ 16383) × (length self.now.property.now ≤ 16383)
            × (self.now.num_chunks ≤ 16383) × (self.now.chunk_num ≤ 16383)
            × (at + (9 + length self.now.header.now + length self.now.property.now) ≤ length out.old) }
        ensures { out.new ≡ put out.old at (chunk_bytes (chunk_in self.now)) }
    {
        out[at] = self.request_id;
        put_u14(out, at + 1, self.header.len() as u16);
        copy_in(out, at + HEADER_AT, self.header);
        let behind = at + HEADER_AT + self.header.len();
        put_u14(out, behind, self.num_chunks);
        put_u14(out, behind + 2, self.chunk_num);
        put_u14(out, behind + 4, self.property.len() as u16);
        copy_in(out, behind + 6, self.property);
    }

    // Writes the chunk into out; the bytes past it keep their values.
    #[tactic(auto, using(crate::proofs::ChunkLaws::writes), unfolding(crate::specs::Write::chunk_len))]
    pub fn encode(self, out: &mut [u8]) -> Result<usize, PeError>
        ensures { outcome (pe_count result) out.new
            ≡ writing (write_chunk (chunk_in self.entry) (length out.old)) out.old }
    {
        let need = self.questions()?;
        if out.len() < need {
            return Err(PeError::BufferTooSmall);
        }
        self.fill(out, 0);
        Ok(need)
    }
}

// Reads a chunk and writes it again: with plain parameters, so that no caller needs to know the struct.
pub fn rewrite(data: &[u8], out: &mut [u8]) -> Result<usize, PeError>
    ensures { outcome (pe_count result) out.new
        ≡ writing (and_next (read_chunk «data».now) (λ c. write_chunk c (length out.old))) out.old }
{
    PeChunkRef::decode(data)?.encode(out)
}
