// A reassembler for one peer, with rooms of 16 bytes and four records: what its calls answer.
use crate::print::{part, refused};
use pe_reassembler::shape::Shape;
use std::io;
use std::io::Write;

const SHAPE: Shape = Shape {
    max_peers: 1,
    header_bytes: 16,
    tx_bytes: 16,
    fragment_records: 4,
};

// The memory of the reassembler.
#[derive(Drop)]
struct Table {
    numbers: [u64; 39],
    index: [u64; 16],
    headers: [u8; 64],
    arenas: [u8; 64],
}

impl Table {
    fn new() -> Table {
        Table {
            numbers: [0; 39],
            index: [0; 16],
            headers: [0; 64],
            arenas: [0; 64],
        }
    }

    fn makes(&mut self, to: &mut impl Write) -> io::Result<()> {
        let what = "a new reassembler:";
        match pe_reassembler::calls::new(
            SHAPE,
            &mut self.numbers,
            &mut self.index,
            &self.headers,
            &self.arenas,
        ) {
            Ok(()) => writeln!(to, "{what}"),
            Err(e) => refused(to, what, e),
        }
    }

    // At 1,000: waiting, or header and body.
    fn feeds(&mut self, to: &mut impl Write, what: &str, raw_chunk: &[u8]) -> io::Result<()> {
        let mut out_header = [0u8; 16];
        let mut out_body = [0u8; 16];
        match pe_reassembler::feed::feed(
            SHAPE,
            &mut self.numbers,
            &mut self.index,
            &mut self.headers,
            &mut self.arenas,
            9,
            raw_chunk,
            1000,
            &mut out_header,
            &mut out_body,
        ) {
            Ok(None) => writeln!(to, "{what} waiting"),
            Ok(Some(list)) => {
                let header = part(&out_header, 0, list.header_len);
                let body = part(&out_body, 0, list.body_len);
                writeln!(to, "{what} whole, header{header}, body{body}")
            }
            Err(e) => refused(to, what, e),
        }
    }

    // How many slots timed out, and the peer and request id of the first.
    fn polls(&mut self, to: &mut impl Write, what: &str, now_ms: u64) -> io::Result<()> {
        let mut peers = [0u64; 4];
        let mut request_ids = [0u64; 4];
        match pe_reassembler::poll::poll(
            SHAPE,
            &mut self.numbers,
            now_ms,
            &mut peers,
            &mut request_ids,
        ) {
            Ok(0) => writeln!(to, "{what} 0"),
            Ok(n) => writeln!(to, "{what} {n}, peer {}, id {}", peers[0], request_ids[0]),
            Err(e) => refused(to, what, e),
        }
    }

    // "Last time 1,000: poll at 3,999 nothing, at 4,000 a timeout, at 500 nothing."
    fn timeouts(&mut self, to: &mut impl Write) -> io::Result<()> {
        let second = [5u8, 0, 0, 2, 0, 2, 0, 1, 0, 2];
        self.feeds(to, "chunk 2 of 2:", &second)?;
        self.polls(to, "poll at 3999:", 3999)?;
        self.polls(to, "poll at 4000:", 4000)?;
        self.feeds(to, "chunk 2 of 2:", &second)?;
        self.polls(to, "poll at 500:", 500)
    }

    // "Frames 1 of 2, 5 of 2, 2 of 2": since document 02, K3, 5 of 2 is turned down, and the body is 1, 2.
    fn joins(&mut self, to: &mut impl Write) -> io::Result<()> {
        let first = [5u8, 1, 0, 0x7B, 2, 0, 1, 0, 1, 0, 1];
        let fifth = [5u8, 0, 0, 2, 0, 5, 0, 1, 0, 5];
        let second = [5u8, 0, 0, 2, 0, 2, 0, 1, 0, 2];
        self.feeds(to, "chunk 1 of 2:", &first)?;
        self.feeds(to, "chunk 5 of 2:", &fifth)?;
        self.feeds(to, "chunk 2 of 2:", &second)
    }

    // K3, in a slot: a new count below a number that is held is turned down, and the slot stays open.
    fn late_counts(&mut self, to: &mut impl Write) -> io::Result<()> {
        let third = [5u8, 0, 0, 0, 0, 3, 0, 1, 0, 3];
        let first_of_2 = [5u8, 1, 0, 0x7B, 2, 0, 1, 0, 1, 0, 1];
        let first_of_3 = [5u8, 1, 0, 0x7B, 3, 0, 1, 0, 1, 0, 1];
        self.feeds(to, "chunk 3:", &third)?;
        self.feeds(to, "chunk 1 of 2:", &first_of_2)?;
        self.feeds(to, "chunk 1 of 3:", &first_of_3)
    }

    // And so is a number above the count that is known.
    fn strays(&mut self, to: &mut impl Write) -> io::Result<()> {
        let fourth = [5u8, 0, 0, 0, 0, 4, 0, 1, 0, 4];
        let second = [5u8, 0, 0, 0, 0, 2, 0, 1, 0, 2];
        self.feeds(to, "chunk 4:", &fourth)?;
        self.feeds(to, "chunk 2:", &second)
    }
}

pub(crate) fn examples(to: &mut impl Write) -> io::Result<()> {
    let mut table = Table::new();
    table.makes(to)?;
    table.timeouts(to)?;
    table.makes(to)?;
    table.joins(to)?;
    table.late_counts(to)?;
    table.strays(to)
}
