// Document 01's examples in its order, and K6's, by the functions themselves. Those that are marked, and K6's, are also proved of the
// definitions (specs/).
#![tactic(auto)]

mod codec;
mod cut;
mod print;
mod reassembler;

use crate::codec::{
    chunk_reads, counter_steps, field_reads, field_writes, mcoded7_reads, muid_reads,
};
use crate::cut::{first_carries, later_carries};
use std::io;
use std::io::{BufWriter, Write};

fn chunks(to: &mut impl Write) -> io::Result<()> {
    let frame = [5u8, 2, 0, 0x7B, 0x7D, 1, 0, 1, 0, 0, 0, 0];
    chunk_reads(to, "chunk 05 02 00 7B 7D 01 00 01 00 00 00:", &frame[..11])?;
    chunk_reads(to, "one byte 00 more:", &frame)?;
    chunk_reads(to, "last byte gone:", &frame[..10])?;
    let second = [5u8, 1, 0, 0x7B, 2, 0, 2, 0, 0, 0];
    chunk_reads(to, "chunk 05 01 00 7B 02 00 02 00 00 00:", &second)?;
    // Number 0 is the slot's question; since K3 the property's byte is turned down before.
    let high_property = [5u8, 0, 0, 1, 0, 0, 0, 1, 0, 0xFF];
    chunk_reads(to, "chunk 05 00 00 01 00 00 00 01 00 FF:", &high_property)
}

fn examples(to: &mut impl Write) -> io::Result<()> {
    field_reads(to, "field 68 07:", &[0x68, 0x07])?;
    field_writes(to, "write 16383:", 16383)?;
    field_writes(to, "write 16384:", 16384)?;
    field_reads(to, "field 80 00:", &[0x80, 0x00])?;
    chunks(to)?;
    later_carries(to, "limit 0, later chunks carry:", 0)?;
    later_carries(to, "limit 128:", 128)?;
    later_carries(to, "limit 4096:", 4096)?;
    later_carries(to, "limit 5000:", 5000)?;
    later_carries(to, "limit 16384:", 16384)?;
    later_carries(to, "limit 16385:", 16385)?;
    first_carries(
        to,
        "limit 128, header 104, the first chunk carries:",
        128,
        104,
    )?;
    first_carries(to, "limit 128, header 105:", 128, 105)?;
    cut::examples(to)?;
    muid_reads(to, "console 7F 7F 7F 7F:", &[0x7F, 0x7F, 0x7F, 0x7F])?;
    mcoded7_reads(to, "mcoded7 40 01:", &[0x40, 0x01])?;
    counter_steps(to, "counter 127:", 127)?;
    reassembler::examples(to)
}

fn main(rt: HostRuntime) -> io::Result<()> {
    let mut to = BufWriter::new(rt.alloc(), io::writer(&rt))?;
    examples(&mut to)?;
    to.flush()
}
