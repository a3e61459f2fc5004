// The calls on a table of one peer at full size, each on what the last one left. Their inputs: peer (4) and time (8) in front of a
// chunk that is fed; peer and request id; peer; time; nothing. A feed prints whether the list is whole and its two lengths, and as
// the output its header and body; a poll how many time out, and the peer and the request id of each.
use crate::{
    first, from, print_answer, print_byte, print_out, print_parts, print_refusal, print_value,
    u8_at, u32_at, u64_at,
};
use pe_frame::frame::MAX_HEADER_BYTES;
use pe_reassembler::shape::Shape;
use pe_slot::layout::{MAX_FRAGMENT_RECORDS, MAX_TX_BYTES};
use std::io;
use std::io::Write;

const SHAPE: Shape = Shape {
    max_peers: 1,
    header_bytes: MAX_HEADER_BYTES,
    tx_bytes: MAX_TX_BYTES,
    fragment_records: MAX_FRAGMENT_RECORDS,
};

// The table's memory.
#[derive(Drop)]
pub(crate) struct Table {
    numbers: [u64; 39],
    index: [u64; 8192],
    headers: [u8; 16384],
    arenas: [u8; 262144],
}

impl Table {
    pub(crate) fn new() -> Table {
        Table {
            numbers: [0; 39],
            index: [0; 8192],
            headers: [0; 16384],
            arenas: [0; 262144],
        }
    }

    pub(crate) fn make(&mut self, to: &mut impl Write) -> io::Result<()> {
        let answer = hub::table::midici_pe_new(
            SHAPE,
            &mut self.numbers,
            &mut self.index,
            &self.headers,
            &self.arenas,
        );
        print_answer(to, answer)?;
        print_out(to, b"")
    }

    pub(crate) fn feed(&mut self, to: &mut impl Write, s: &[u8]) -> io::Result<()> {
        let mut out_header = [0u8; 4096];
        let mut out_body = [0u8; 65536];
        let answer = hub::table::midici_pe_feed(
            SHAPE,
            &mut self.numbers,
            &mut self.index,
            &mut self.headers,
            &mut self.arenas,
            u32_at(s, 0),
            from(s, 12),
            u64_at(s, 4),
            &mut out_header,
            &mut out_body,
        );
        if answer.refusal != 0 {
            print_refusal(to, answer.refusal, answer.value)?;
            return print_out(to, b"");
        }
        print_byte(to, answer.whole)?;
        print_value(to, answer.header_len)?;
        print_value(to, answer.body_len)?;
        print_parts(
            to,
            first(&out_header, answer.header_len as usize),
            first(&out_body, answer.body_len as usize),
        )
    }

    pub(crate) fn cancel(&mut self, to: &mut impl Write, s: &[u8]) -> io::Result<()> {
        let answer = hub::table::midici_pe_cancel(
            SHAPE,
            &mut self.numbers,
            u32_at(s, 0),
            u8_at(s, 4),
        );
        print_answer(to, answer)?;
        print_out(to, b"")
    }

    pub(crate) fn drop_peer(&mut self, to: &mut impl Write, s: &[u8]) -> io::Result<()> {
        let answer = hub::table::midici_pe_drop_peer(SHAPE, &mut self.numbers, u32_at(s, 0));
        print_answer(to, answer)?;
        print_out(to, b"")
    }

    pub(crate) fn poll(&mut self, to: &mut impl Write, s: &[u8]) -> io::Result<()> {
        let mut peers = [0u64; 4];
        let mut request_ids = [0u64; 4];
        let answer = hub::table::midici_pe_poll(
            SHAPE,
            &mut self.numbers,
            u64_at(s, 0),
            &mut peers,
            &mut request_ids,
        );
        print_answer(to, answer)?;
        for (peer, request_id) in peers.iter().zip(&request_ids).take(answer.count as usize) {
            print_value(to, *peer)?;
            print_value(to, *request_id)?;
        }
        print_out(to, b"")
    }

    pub(crate) fn memory_stats(&mut self, to: &mut impl Write) -> io::Result<()> {
        let answer = hub::table::midici_pe_memory_stats(SHAPE, &mut self.numbers);
        print_value(to, answer.reserved_bytes)?;
        print_value(to, answer.active_bytes)?;
        print_value(to, answer.active_slots)?;
        print_out(to, b"")
    }
}
