// Plays a fixed list of the original's answers: records of a function's byte, the length of its input in two bytes, low one
// first, and the input. For each it prints the port's answer on a line: the values, or r with the refusal's number and value;
// then each byte of the lent output, behind a colon. Document 01's examples come first, those of the table among them. A function's
// byte is its place, from 1, in oracle/src/op.rs, which says how its input reads; 64 and up are the calls on a table (table.rt).
// `make vectors` writes the list.
#![tactic(auto)]

mod table;

ghost use Rattle.std.specs.Prelude.{◌<◌, ◌≤◌, IfSome, length};

use crate::table::Table;
use codec_exports::answer::HeaderFields;
use hub::answer::Answer;
use std::io;
use std::io::{BufWriter, Read, Write};

fn from(s: &[u8], at: usize) -> &[u8] {
    &s[at.min(s.len())..]
}

fn first(s: &[u8], n: usize) -> &[u8] {
    &s[..n.min(s.len())]
}

// The N bytes from `at` on; those past the end are 0.
fn bytes_at<const N: usize>(s: &[u8], at: usize) -> [u8; N] {
    let mut bytes = [0u8; N];
    for (byte, there) in bytes.iter_mut().zip(from(s, at)) {
        *byte = *there;
    }
    bytes
}

fn u8_at(s: &[u8], at: usize) -> u8 {
    s.get(at).copied().unwrap_or(0)
}

fn u16_at(s: &[u8], at: usize) -> u16 {
    u16::from_le_bytes(bytes_at(s, at))
}

fn u32_at(s: &[u8], at: usize) -> u32 {
    u32::from_le_bytes(bytes_at(s, at))
}

fn u64_at(s: &[u8], at: usize) -> u64 {
    u64::from_le_bytes(bytes_at(s, at))
}

// A list's header, whose length stands at 5, and what follows it.
fn header_and_rest(s: &[u8]) -> (&[u8], &[u8]) {
    let behind = from(s, 7);
    behind.split_at((u16_at(s, 5) as usize).min(behind.len()))
}

fn print_value(to: &mut impl Write, n: u64) -> io::Result<()> {
    write!(to, "{n} ")
}

fn print_byte(to: &mut impl Write, b: u8) -> io::Result<()> {
    print_value(to, b as u64)
}

fn print_flag(to: &mut impl Write, yes: bool) -> io::Result<()> {
    print_value(to, yes as u64)
}

fn print_refusal(to: &mut impl Write, refusal: u8, value: u8) -> io::Result<()> {
    to.write_all(b"r ")?;
    print_byte(to, refusal)?;
    print_byte(to, value)
}

fn print_bytes(to: &mut impl Write, bytes: &[u8]) -> io::Result<()> {
    for byte in bytes {
        write!(to, " {byte}")?;
    }
    Ok(())
}

// The output, in two parts, and the line's end.
fn print_parts(to: &mut impl Write, one: &[u8], other: &[u8]) -> io::Result<()> {
    to.write_all(b":")?;
    print_bytes(to, one)?;
    print_bytes(to, other)?;
    to.write_all(b"\n")
}

fn print_out(to: &mut impl Write, out: &[u8]) -> io::Result<()> {
    print_parts(to, out, b"")
}

fn print_answer(to: &mut impl Write, a: Answer) -> io::Result<()> {
    if a.refusal == 0 {
        print_value(to, a.count)
    } else {
        print_refusal(to, a.refusal, a.value)
    }
}

fn print_header(to: &mut impl Write, h: HeaderFields) -> io::Result<()> {
    print_byte(to, h.device_id)?;
    print_byte(to, h.sub_id2)?;
    print_byte(to, h.version)?;
    print_value(to, h.source as u64)?;
    print_value(to, h.dest as u64)
}

// A header's fields, behind the room.
fn header_in(s: &[u8]) -> HeaderFields {
    HeaderFields {
        device_id: u8_at(s, 2),
        sub_id2: u8_at(s, 3),
        version: u8_at(s, 4),
        source: u32_at(s, 5),
        dest: u32_at(s, 9),
    }
}

fn caps_encode(s: &[u8], out: &mut [u8]) -> Answer {
    codec_exports::ci::codec_caps_encode(
        header_in(s),
        u8_at(s, 13),
        u8_at(s, 14),
        u8_at(s, 15),
        out,
    )
}

fn chunk_encode(s: &[u8], out: &mut [u8]) -> Answer {
    let (header, property) = header_and_rest(s);
    codec_exports::pe::codec_encode_chunk(
        u8_at(s, 0),
        header,
        u16_at(s, 1),
        u16_at(s, 3),
        property,
        out,
    )
}

fn split_chunk(chunk_num: u16, s: &[u8], out: &mut [u8]) -> Answer {
    let (header, body) = header_and_rest(s);
    hub::chunks::midici_pe_split_chunk(u8_at(s, 0), header, body, u32_at(s, 1), chunk_num, out)
}

fn whole_encode(kind: u8, source: u32, dest: u32, s: &[u8], out: &mut [u8]) -> Answer {
    let (header, property) = header_and_rest(s);
    hub::chunks::midici_pe_encode_message(
        kind,
        source,
        dest,
        u8_at(s, 0),
        header,
        u16_at(s, 1),
        u16_at(s, 3),
        property,
        out,
    )
}

// The functions that write into a lent output. A function's number is the list's own, and stands beside the one call that it means: an enum would
// only name the calls once more.
fn write(op: u8, s: &[u8], out: &mut [u8]) -> Answer {
    match op {
        2 => codec_exports::pe::codec_write_u14_le7(u16_at(s, 2), out),
        11 => codec_exports::ci::codec_header_encode(header_in(s), out),
        15 => caps_encode(s, out),
        17 => codec_exports::ci::codec_message_encode(header_in(s), from(s, 13), out),
        18 => codec_exports::pe::codec_mcoded7_decode(from(s, 2), out),
        19 => codec_exports::pe::codec_mcoded7_encode(from(s, 2), out),
        25 => codec_exports::pe::codec_rewrite(from(s, 2), out),
        24 => chunk_encode(from(s, 2), out),
        31 => split_chunk(u16_at(s, 2), from(s, 4), out),
        _ => whole_encode(u8_at(s, 2), u32_at(s, 3), u32_at(s, 7), from(s, 11), out),
    }
}

// The output has as much room as the input says; where that is more than 256 bytes, nothing is printed.
fn play_writer(to: &mut impl Write, op: u8, s: &[u8]) -> io::Result<()> {
    let mut space = [0xEEu8; 256];
    let Some(out) = space.get_mut(..u16_at(s, 0) as usize) else {
        return Ok(());
    };
    let answer = write(op, s, out);
    print_answer(to, answer)?;
    print_out(to, out)
}

fn muid_decode(to: &mut impl Write, s: &[u8]) -> io::Result<()> {
    let bytes = bytes_at(s, 0);
    print_answer(to, codec_exports::ci::codec_muid_decode_7bit_le(&bytes))
}

fn muid_encode(to: &mut impl Write, s: &[u8]) -> io::Result<()> {
    let mut bytes = [0u8; 4];
    codec_exports::ci::codec_muid_encode_7bit_le(u32_at(s, 0), &mut bytes);
    for byte in bytes {
        print_byte(to, byte)?;
    }
    Ok(())
}

// Up to five words; where there are more, no value is printed.
fn muid_generate(to: &mut impl Write, s: &[u8]) -> io::Result<()> {
    let words = [
        u32_at(s, 0),
        u32_at(s, 4),
        u32_at(s, 8),
        u32_at(s, 12),
        u32_at(s, 16),
    ];
    let Some(drawn) = words.get(..s.len() / 4) else {
        return Ok(());
    };
    let generated = codec_exports::ci::codec_muid_generate(drawn);
    print_flag(to, generated.found)?;
    print_value(to, generated.number as u64)
}

fn header_decode(to: &mut impl Write, s: &[u8]) -> io::Result<()> {
    let answer = codec_exports::ci::codec_header_decode(s);
    if answer.refusal == 0 {
        print_header(to, answer.header)
    } else {
        print_refusal(to, answer.refusal, answer.value)
    }
}

fn kind_of(to: &mut impl Write, s: &[u8]) -> io::Result<()> {
    let answer = codec_exports::ci::codec_kind_of(u8_at(s, 0));
    print_flag(to, answer.known)?;
    print_byte(to, answer.sub_id2)?;
    print_flag(to, answer.chunked)?;
    print_byte(to, answer.reply)
}

fn caps_decode(to: &mut impl Write, s: &[u8]) -> io::Result<()> {
    let answer = codec_exports::ci::codec_caps_decode(s);
    if answer.refusal == 0 {
        print_header(to, answer.header)?;
        print_byte(to, answer.simultaneous_requests)?;
        print_byte(to, answer.pe_major)?;
        print_byte(to, answer.pe_minor)
    } else {
        print_refusal(to, answer.refusal, answer.value)
    }
}

// The payload is shown as the output.
fn play_message(to: &mut impl Write, s: &[u8]) -> io::Result<()> {
    let answer = codec_exports::ci::codec_message_decode(s);
    if answer.refusal != 0 {
        print_refusal(to, answer.refusal, answer.value)?;
        return print_out(to, b"");
    }
    print_header(to, answer.header)?;
    let payload = from(s, answer.payload_at as usize);
    let Some(payload) = payload.get(..answer.payload_len as usize) else {
        return Ok(());
    };
    print_out(to, payload)
}

// Header and property are shown as the output.
fn play_chunk(to: &mut impl Write, s: &[u8]) -> io::Result<()> {
    let answer = codec_exports::pe::codec_decode_fields(s);
    if answer.refusal != 0 {
        print_refusal(to, answer.refusal, answer.value)?;
        return print_out(to, b"");
    }
    print_byte(to, answer.request_id)?;
    print_value(to, answer.header_len)?;
    print_value(to, answer.num_chunks as u64)?;
    print_value(to, answer.chunk_num as u64)?;
    print_value(to, answer.property_at)?;
    print_value(to, answer.property_len)?;
    let property = from(s, answer.property_at as usize);
    print_parts(
        to,
        first(from(s, 3), answer.header_len as usize),
        first(property, answer.property_len as usize),
    )
}

fn first_capacity(s: &[u8]) -> Answer {
    codec_exports::pe::codec_first_chunk_property_capacity(u32_at(s, 0), u64_at(s, 4) as usize)
}

fn chunk_count(s: &[u8]) -> Answer {
    let (header, body) = header_and_rest(s);
    hub::chunks::midici_pe_chunk_count(u8_at(s, 0), header, body, u32_at(s, 1))
}

fn alloc_out_request_id(to: &mut impl Write, s: &[u8]) -> io::Result<()> {
    let allocated = hub::controller::midici_pe_alloc_out_request_id(u8_at(s, 0));
    print_byte(to, allocated.request_id)?;
    print_byte(to, allocated.counter)
}

// The functions that write nothing, but for the message and the chunk.
fn play_reader(to: &mut impl Write, op: u8, s: &[u8]) -> io::Result<()> {
    match op {
        1 => print_answer(to, codec_exports::pe::codec_read_u14_le7(s)),
        3 => print_answer(to, codec_exports::ci::codec_muid_from_u32(u32_at(s, 0))),
        4 => print_answer(to, codec_exports::ci::codec_muid_ordinary(u32_at(s, 0))),
        5 => print_flag(to, codec_exports::ci::codec_muid_is_broadcast(u32_at(s, 0))),
        6 => print_flag(to, codec_exports::ci::codec_muid_is_reserved(u32_at(s, 0))),
        7 => muid_encode(to, s),
        8 => muid_decode(to, s),
        9 => muid_generate(to, s),
        10 => header_decode(to, s),
        12 => print_flag(
            to,
            codec_exports::ci::codec_is_pe_chunked_sub_id(u8_at(s, 0)),
        ),
        13 => kind_of(to, s),
        14 => caps_decode(to, s),
        20 => print_byte(to, codec_exports::pe::codec_first_request_id()),
        21 => alloc_out_request_id(to, s),
        22 => print_byte(
            to,
            codec_exports::pe::codec_negotiated_requests(u8_at(s, 0), u8_at(s, 1)),
        ),
        26 => print_value(
            to,
            codec_exports::pe::codec_clamp_max_sysex(u32_at(s, 0)) as u64,
        ),
        27 => print_value(to, codec_exports::pe::codec_pe_payload_budget(u32_at(s, 0))),
        28 => print_value(
            to,
            codec_exports::pe::codec_later_chunk_property_capacity(u32_at(s, 0)),
        ),
        29 => print_answer(to, first_capacity(s)),
        30 => print_answer(to, chunk_count(s)),
        _ => print_flag(to, false),
    }?;
    print_out(to, b"")
}

// The functions that need no memory but an output, the writers first.
fn play_function(to: &mut impl Write, op: u8, s: &[u8]) -> io::Result<()> {
    match op {
        2 | 11 | 15 | 17 | 18 | 19 | 24 | 25 | 31 | 32 => play_writer(to, op, s),
        16 => play_message(to, s),
        23 => play_chunk(to, s),
        _ => play_reader(to, op, s),
    }
}

fn play(to: &mut impl Write, op: u8, s: &[u8], table: &mut Table) -> io::Result<()> {
    match op {
        64 => table.make(to),
        65 => table.feed(to, s),
        66 => table.cancel(to, s),
        67 => table.drop_peer(to, s),
        68 => table.poll(to, s),
        69 => table.memory_stats(to),
        _ => play_function(to, op, s),
    }
}

// A function's byte and its input, and what follows them.
#[derive(Clone, Copy)]
struct Record<'a> {
    op: u8,
    input: &'a [u8],
    rest: &'a [u8],
}

// The first record; none where there is no more, or where it is cut off.
fn first_record(s: &[u8]) -> Option<Record<'_>>
    ensures { IfSome result (λ r. length r.rest.now < length s.now) }
{
    let [op, low, high, behind @ ..] = s else {
        return None;
    };
    let len = u16::from_le_bytes([*low, *high]) as usize;
    let (input, rest) = behind.split_at_checked(len)?;
    Some(Record {
        op: *op,
        input,
        rest,
    })
}

// Reads until block is full, the input ends or a read fails, and returns how many bytes it put at the start of block. (The library reads all of an
// input only into a vector.)
fn read_full(input: &mut impl Read, block: &mut [u8]) -> usize
    ensures { result ≤ length block.new }
{
    let mut have = 0;
    while have < block.len() {
        match input.read(&mut block[have..]) {
            Ok(0) | Err(_) => break,
            Ok(got) => have += got,
        }
    }
    have
}

fn main(rt: HostRuntime) -> io::Result<()> {
    let mut input = [0u8; 65536];
    let mut table = Table::new();
    let n = read_full(&mut rt.stdin(), &mut input);
    let mut to = BufWriter::new(rt.alloc(), io::writer(&rt))?;
    let mut rest = &input[..n];
    while let Some(record) = first_record(rest) {
        play(&mut to, record.op, record.input, &mut table)?;
        rest = record.rest;
    }
    to.flush()
}
