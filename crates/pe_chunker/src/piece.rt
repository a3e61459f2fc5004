// One chunk of a list whose questions all had a yes.
ghost use Rattle.std.specs.Prelude.{◌≡◌, ◌-◌, ◌*◌, min, ◌≤◌};
ghost use Rattle.seven_bit.specs.Parts.{put_fit};
ghost use Rattle.pe_frame.specs.Write.{chunk_len, chunk_bytes};
ghost use Rattle.pe_chunker.specs.Split.{IsCut, chunk_in};

use crate::later_chunk_property_capacity;
use pe_frame::frame::{PE_FRAMING_LEN, put_chunk};

// A list, and how many chunks it is cut into.
#[derive(Clone, Copy)]
pub(crate) struct CutList<'a> {
    pub request_id: u8,
    pub header: &'a [u8],
    pub body: &'a [u8],
    pub max_sysex: u32,
    pub num_chunks: u16,
}

// How many of the body's bytes the first chunks carry.
fn body_part(chunks: u16, header_len: usize, body_len: usize, later: usize) -> usize
    requires { later ≤ 16383 }
    ensures { result ≡ min (chunks * later - header_len) body_len }
{
    (chunks as usize * later)
        .saturating_sub(header_len)
        .min(body_len)
}

impl<'a> CutList<'a> {
    // Stores chunk number chunk_num at a place of out where it fits, and returns its length.
    pub(crate) fn put_piece(self, chunk_num: u16, out: &mut [u8], at: usize) -> usize
        requires cut { IsCut self }
        requires number { (1 ≤ chunk_num) × (chunk_num ≤ self.num_chunks) }
        ensures length { result ≡ chunk_len (chunk_in self.entry chunk_num) }
        ensures stored { out.new ≡ put_fit out.old at (chunk_bytes (chunk_in self.entry chunk_num)) }
    {
        let later = later_chunk_property_capacity(self.max_sysex);
        // The first chunk carries the header.
        let header_end = if chunk_num == 1 { self.header.len() } else { 0 };
        let start = body_part(chunk_num - 1, self.header.len(), self.body.len(), later);
        let end = body_part(chunk_num, self.header.len(), self.body.len(), later);
        put_chunk(
            self.request_id,
            &self.header[..header_end],
            self.num_chunks,
            chunk_num,
            &self.body[start..end],
            out,
            at,
        );
        PE_FRAMING_LEN + header_end + (end - start)
    }
}
