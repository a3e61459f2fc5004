// Fields of 14 bits, chunks that are read, a console, Mcoded7, the request counter.
use crate::print::{answer, part, refused, written};
use midici_core::muid::Muid;
use pe_controller::RequestCounter;
use pe_frame::frame::decode_fields;
use pe_wire::wire::{read_u14_le7, write_u14_le7};
use std::io;
use std::io::Write;

pub(crate) fn field_reads(to: &mut impl Write, what: &str, bytes: &[u8]) -> io::Result<()> {
    answer(to, what, read_u14_le7(bytes))
}

pub(crate) fn field_writes(to: &mut impl Write, what: &str, v: u16) -> io::Result<()> {
    let mut out = [0u8; 2];
    let wrote = write_u14_le7(v, &mut out);
    written(to, what, wrote, &out)
}

// Request id, header, number of count, property.
pub(crate) fn chunk_reads(to: &mut impl Write, what: &str, data: &[u8]) -> io::Result<()> {
    match decode_fields(data) {
        Ok(f) => {
            let header = part(data, 3, f.header_len);
            let property = part(data, f.property_at, f.property_len);
            write!(to, "{what} id {}, header{header}", f.request_id)?;
            writeln!(
                to,
                ", {} of {}, property{property}",
                f.chunk_num, f.num_chunks
            )
        }
        Err(e) => refused(to, what, e),
    }
}

pub(crate) fn muid_reads(to: &mut impl Write, what: &str, bytes: &[u8; 4]) -> io::Result<()> {
    match Muid::decode_7bit_le(bytes) {
        Ok(muid) => writeln!(to, "{what} {:08x}", muid.to_u32()),
        Err(e) => refused(to, what, e),
    }
}

pub(crate) fn mcoded7_reads(to: &mut impl Write, what: &str, s: &[u8]) -> io::Result<()> {
    let mut out = [0u8; 8];
    let wrote = pe_mcoded7::decode(s, &mut out);
    written(to, what, wrote, &out)
}

pub(crate) fn counter_steps(to: &mut impl Write, what: &str, next: u8) -> io::Result<()> {
    let mut counter = RequestCounter { next };
    counter.alloc_out_request_id();
    writeln!(to, "{what} {}", counter.next)
}
