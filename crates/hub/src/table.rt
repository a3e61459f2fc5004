// The reassembler's calls, but for the whole-message entry (crate hub_message). Shape and memory of a table are named with each call, as
// include/midici_pe.h has them.
ghost use Rattle.std.specs.Prelude.{◌≡◌};
ghost use Rattle.pe_reassembler.specs.Calls.{new_call, cancel_call, drop_call, stats_call, reserved_call};
ghost use Rattle.pe_reassembler.specs.Feed.{memory, feed_call};
ghost use Rattle.pe_reassembler.specs.Open.{open_call};
ghost use Rattle.pe_reassembler.specs.Poll.{poll_call};
ghost use Rattle.hub.specs.Answers.{answer_of, stats_answer_of, left};
ghost use Rattle.hub.specs.Table.{made_of, cancelled_of, dropped_of, fed_of, polled_of, listed_of};

use crate::answer::{Answer, FedAnswer, StatsAnswer};
use pe_reassembler::shape::Shape;
use pe_reassembler::{calls, feed, open, poll};

// Makes a table in the lent memory; the rooms keep their bytes.
pub fn midici_pe_new(
    shape: Shape,
    numbers: &mut [u64],
    index: &mut [u64],
    headers: &[u8],
    arenas: &[u8],
) -> Answer
    ensures { left result (numbers.new, index.new)
        ≡ made_of (new_call shape numbers.old index.old headers.now arenas.now) }
{
    calls::new(shape, numbers, index, headers, arenas)
        .map(|()| 0)
        .into()
}

// Feeds a chunk of a peer; a whole list goes into the two outputs.
pub fn midici_pe_feed(
    shape: Shape,
    numbers: &mut [u64],
    index: &mut [u64],
    headers: &mut [u8],
    arenas: &mut [u8],
    peer: u32,
    raw_chunk: &[u8],
    now_ms: u64,
    out_header: &mut [u8],
    out_body: &mut [u8],
) -> FedAnswer
    ensures { left result (memory numbers.new index.new headers.new arenas.new
        out_header.new out_body.new)
        ≡ fed_of (feed_call shape (memory numbers.old index.old headers.old arenas.old
        out_header.old out_body.old) peer raw_chunk.now now_ms) }
{
    feed::feed(
        shape, numbers, index, headers, arenas, peer, raw_chunk, now_ms, out_header, out_body,
    )
    .into()
}

// Closes the slot of a peer that is open with a request id: 1 where there was one, else 0.
pub fn midici_pe_cancel(shape: Shape, numbers: &mut [u64], peer: u32, request_id: u8) -> Answer
    ensures { left result numbers.new ≡ cancelled_of (cancel_call shape numbers.old peer request_id) }
{
    calls::cancel(shape, numbers, peer, request_id)
        .map(|closed| closed as u64)
        .into()
}

// Closes all slots of a peer and unbinds its record: how many there were.
pub fn midici_pe_drop_peer(shape: Shape, numbers: &mut [u64], peer: u32) -> Answer
    ensures { left result numbers.new ≡ dropped_of (drop_call shape numbers.old peer) }
{
    calls::drop_peer(shape, numbers, peer).into()
}

// Closes each slot whose time is up, and lists its peer and request id: how many there are.
pub fn midici_pe_poll(
    shape: Shape,
    numbers: &mut [u64],
    now_ms: u64,
    out_peers: &mut [u64],
    out_request_ids: &mut [u64],
) -> Answer
    ensures { left result (numbers.new, out_peers.new, out_request_ids.new)
        ≡ polled_of (poll_call shape numbers.old now_ms out_peers.old out_request_ids.old) }
{
    poll::poll(shape, numbers, now_ms, out_peers, out_request_ids).into()
}

// Lists peer, request id and chunks held of each open slot, by tick, peer, request id and place: how many there are.
pub fn midici_pe_open_list(
    shape: Shape,
    numbers: &[u64],
    out_peers: &mut [u64],
    out_request_ids: &mut [u64],
    out_chunks_held: &mut [u64],
) -> Answer
    ensures { left result (out_peers.new, out_request_ids.new, out_chunks_held.new)
        ≡ listed_of (open_call shape numbers.now out_peers.old out_request_ids.old out_chunks_held.old) }
{
    open::open_list(shape, numbers, out_peers, out_request_ids, out_chunks_held).into()
}

// What the rooms take and what is open in them.
pub fn midici_pe_memory_stats(shape: Shape, numbers: &[u64]) -> StatsAnswer
    ensures { result ≡ stats_answer_of (stats_call shape numbers.now) }
{
    calls::memory_stats(shape, numbers).into()
}

// The bytes that the rooms of a table take.
pub fn midici_pe_reserved_bytes(shape: Shape) -> Answer
    ensures { result ≡ answer_of (reserved_call shape) }
{
    calls::reserved_bytes(shape).into()
}
