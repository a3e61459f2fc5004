// Capacities, and lists that are cut: each chunk is written, and its fields are printed as they are read from what was written.
use crate::print::{answer, refused};
use pe_chunker::{
    chunk_count, first_chunk_property_capacity, later_chunk_property_capacity, split_chunk,
};
use pe_frame::frame::decode_fields;
use std::io;
use std::io::Write;

pub(crate) fn later_carries(to: &mut impl Write, what: &str, limit: u32) -> io::Result<()> {
    writeln!(to, "{what} {}", later_chunk_property_capacity(limit))
}

pub(crate) fn first_carries(
    to: &mut impl Write,
    what: &str,
    limit: u32,
    header_len: usize,
) -> io::Result<()> {
    answer(to, what, first_chunk_property_capacity(limit, header_len))
}

fn count(
    to: &mut impl Write,
    what: &str,
    header: &[u8],
    body: &[u8],
    limit: u32,
) -> io::Result<()> {
    answer(to, what, chunk_count(5, header, body, limit))
}

// Request id, number of count, and how many bytes header and property have.
fn fields(to: &mut impl Write, what: &str, data: &[u8]) -> io::Result<()> {
    match decode_fields(data) {
        Ok(f) => {
            write!(
                to,
                "{what} id {}, {} of {}",
                f.request_id, f.chunk_num, f.num_chunks
            )?;
            writeln!(to, ", header {}, property {}", f.header_len, f.property_len)
        }
        Err(e) => refused(to, what, e),
    }
}

fn chunk(
    to: &mut impl Write,
    what: &str,
    header: &[u8],
    body: &[u8],
    limit: u32,
    k: u16,
) -> io::Result<()> {
    let mut out = [0u8; 16384];
    match split_chunk(5, header, body, limit, k, &mut out) {
        Ok(n) => fields(to, what, out.get(..n).unwrap_or(&out)),
        Err(e) => refused(to, what, e),
    }
}

// "a header over 4,096 bytes is now turned down by the cutter with 4" (document 02, K6).
fn larger(to: &mut impl Write, body: &[u8]) -> io::Result<()> {
    let header = [0x20u8; 4097];
    let longest = &header[..4096];
    count(
        to,
        "header 4096, body 1000, limit 16384, chunks:",
        longest,
        body,
        16384,
    )?;
    chunk(to, "chunk 1:", longest, body, 16384, 1)?;
    count(to, "header 4097:", &header, body, 16384)
}

// "Header 48, body 1,000, limit 256: 184, 232, 232, 232, 120. Empty body: one frame, 1 of 1."
pub(crate) fn examples(to: &mut impl Write) -> io::Result<()> {
    let header = [0x20u8; 48];
    let body = [0x41u8; 1000];
    count(
        to,
        "header 48, body 1000, limit 256, chunks:",
        &header,
        &body,
        256,
    )?;
    chunk(to, "chunk 1:", &header, &body, 256, 1)?;
    chunk(to, "chunk 2:", &header, &body, 256, 2)?;
    chunk(to, "chunk 3:", &header, &body, 256, 3)?;
    chunk(to, "chunk 4:", &header, &body, 256, 4)?;
    chunk(to, "chunk 5:", &header, &body, 256, 5)?;
    chunk(to, "chunk 6:", &header, &body, 256, 6)?;
    count(to, "empty body, chunks:", &header, b"", 256)?;
    chunk(to, "chunk 1:", &header, b"", 256, 1)?;
    larger(to, &body)
}
