// feed and the whole-message entry.
ghost use Rattle.std.specs.Prelude.{true, ◌≡◌, ◌≤◌, ◌<◌};
ghost use Rattle.seven_bit.specs.Reply.{granted};
ghost use Rattle.pe_frame.specs.Chunk.{fields_of, chunk_of, read_fields};
ghost use Rattle.pe_slot.specs.Feed.{fed_told};
ghost use Rattle.pe_reassembler.specs.Table.{HasPeer, room_at};
ghost use Rattle.pe_reassembler.specs.Feed.{feed_left, memory, next_tick, bind, has_all, at_table, feed_call, message_call};
ghost use Rattle.pe_reassembler.specs.Steps.{memory_of, HasSameRooms, is_damaged, noted, slot_fed};

use crate::shape::Shape;
use crate::table::{
    CLOCK, MAX_CONCURRENT_PER_PEER, MUID, bound_to, has_rooms, peer_at, record_for, slot_at,
    slot_for,
};
use midici_core::error::CiError;
use midici_core::muid::Muid;
use midici_core::pe_msg::PeMessage;
use midici_core::spec::CI_HEADER_LEN;
use pe_frame::frame::{ChunkFields, HEADER_AT, decode_fields};
use pe_slot::layout::SLOT_WORDS;
use pe_slot::slot::{Moment, Whole, feed_slot};
use pe_wire::error::PeError;

#[tactic(auto, unfolding(crate::specs::Feed::next_tick))]
fn next_tick(clock: u64) -> u64
    ensures { result ≡ next_tick clock }
{
    clock.saturating_add(1)
}

// Where a slot's room of a size starts.
fn room_at(size: usize, p: usize, s: usize) -> usize
    requires { (p < 16) × (s < 4) × (size ≤ 65536) }
    ensures { result ≡ room_at size p s }
{
    (MAX_CONCURRENT_PER_PEER * p + s) * size
}

// What is lent for a feed beside the numbers: the rooms of the slots, and the outputs for a whole list.
#[derive(Drop)]
pub(crate) struct Rooms<'a> {
    pub index: &'a mut [u64],
    pub headers: &'a mut [u8],
    pub arenas: &'a mut [u8],
    pub out_header: &'a mut [u8],
    pub out_body: &'a mut [u8],
}

// Question 30 of a feed: the table's memory, and outputs of at least H and B bytes.
#[tactic(auto, unfolding(crate::specs::Feed::has_all))]
fn has_all(
    shape: Shape,
    numbers: &[u64],
    index: &[u64],
    headers: &[u8],
    arenas: &[u8],
    out_header: &[u8],
    out_body: &[u8],
) -> bool
    ensures { result ≡ has_all shape
        (memory numbers.now index.now headers.now arenas.now out_header.now
        out_body.now) }
{
    has_rooms(shape, numbers, index, headers, arenas)
        && shape.header_bytes <= out_header.len()
        && shape.tx_bytes <= out_body.len()
}

// Is the answer that the slot's memory is damaged?
fn is_damaged(answer: Result<Option<Whole>, PeError>) -> bool
    ensures { result ≡ is_damaged (fed_told answer) }
{
    matches!(answer, Err(PeError::DamagedSlot))
}

// Binds a record to a peer; one that is the peer's own stays as it is.
#[tactic(auto, unfolding(crate::specs::Feed::bind))]
fn bind_to(numbers: &mut [u64], peer: u32, p: usize)
    requires { HasPeer numbers.old p }
    ensures { numbers.new ≡ bind numbers.old peer p }
{
    if !bound_to(numbers, p, peer) {
        let at = peer_at(p);
        numbers[at] = 1;
        numbers[at + MUID] = peer as u64;
    }
}

// The clock and the binding, after a slot's answer.
fn note(numbers: &mut [u64], answer: Result<Option<Whole>, PeError>, tick: u64, peer: u32, p: usize)
    requires { HasPeer numbers.old p }
    ensures { numbers.new ≡ noted (fed_told answer) numbers.old tick peer p }
{
    if !is_damaged(answer) {
        numbers[CLOCK] = tick;
        bind_to(numbers, peer, p);
    }
}

// Lends slot s of record p its parts, and the chunk's header and property.
fn reach_slot(
    shape: Shape,
    p: usize,
    s: usize,
    numbers: &mut [u64],
    rooms: &mut Rooms,
    data: &[u8],
    f: ChunkFields,
    moment: Moment,
) -> Result<Option<Whole>, PeError>
    requires all { has_all shape (memory_of numbers.old rooms.old) ≡ true }
    requires found { (p < shape.max_peers) × (s < 4) × (read_fields «data».now ≡ granted (fields_of f)) }
    ensures same { HasSameRooms rooms.new rooms.old }
    ensures left { feed_left (fed_told result) (memory_of numbers.new rooms.new)
        ≡ slot_fed shape (memory_of numbers.old rooms.old) p s (chunk_of «data».now (fields_of f)) moment.now_ms moment.tick }
{
    let at = slot_at(p, s);
    let index_at = room_at(shape.fragment_records, p, s);
    let header_at = room_at(shape.header_bytes, p, s);
    let arena_at = room_at(shape.tx_bytes, p, s);
    let header_end = HEADER_AT + f.header_len;
    let start = f.property_at;
    let end = start + f.property_len;
    feed_slot(
        &mut numbers[at..at + SLOT_WORDS],
        &mut rooms.index[index_at..index_at + shape.fragment_records],
        &mut rooms.headers[header_at..header_at + shape.header_bytes],
        &mut rooms.arenas[arena_at..arena_at + shape.tx_bytes],
        f.request_id,
        &data[HEADER_AT..header_end],
        f.num_chunks,
        f.chunk_num,
        &data[start..end],
        moment,
        rooms.out_header,
        rooms.out_body,
    )
}

// A chunk that was read from its bytes reaches the table.
#[tactic(auto, using(crate::proofs::FeedLaws::found), unfolding(crate::specs::Feed::at_table))]
fn at_table(
    shape: Shape,
    numbers: &mut [u64],
    rooms: &mut Rooms,
    peer: u32,
    data: &[u8],
    f: ChunkFields,
    now_ms: u64,
) -> Result<Option<Whole>, PeError>
    requires all { has_all shape (memory_of numbers.old rooms.old) ≡ true }
    requires read { read_fields «data».now ≡ granted (fields_of f) }
    ensures same { HasSameRooms rooms.new rooms.old }
    ensures left { feed_left (fed_told result) (memory_of numbers.new rooms.new)
        ≡ at_table shape (memory_of numbers.old rooms.old) peer (chunk_of «data».now (fields_of f)) now_ms }
{
    let p = record_for(shape, numbers, peer).ok_or(PeError::PeerTableFull)?;
    let s = slot_for(numbers, p, f.request_id).ok_or(PeError::TooManyConcurrent)?;
    let tick = next_tick(numbers[CLOCK]);
    let moment = Moment { now_ms, tick };
    let answer = reach_slot(shape, p, s, numbers, rooms, data, f, moment);
    note(numbers, answer, tick, peer, p);
    answer
}

// Feeds a chunk of a peer; a whole list goes into the two outputs.
#[tactic(auto, unfolding(crate::specs::Feed::feed_call))]
pub fn feed(
    shape: Shape,
    numbers: &mut [u64],
    index: &mut [u64],
    headers: &mut [u8],
    arenas: &mut [u8],
    peer: u32,
    raw_chunk: &[u8],
    now_ms: u64,
    out_header: &mut [u8],
    out_body: &mut [u8],
) -> Result<Option<Whole>, PeError>
    ensures { feed_left (fed_told result) (memory numbers.new index.new headers.new arenas.new
        out_header.new out_body.new) ≡ feed_call shape (memory numbers.old index.old
        headers.old arenas.old out_header.old out_body.old) peer raw_chunk.now now_ms }
{
    if !has_all(shape, numbers, index, headers, arenas, out_header, out_body) {
        return Err(PeError::BadShape);
    }
    if peer > Muid::MASK_28 {
        return Err(PeError::Ci(CiError::InvalidMuid));
    }
    // The requirement names this form, here and in `feed_message`, where `?` would say the same (docs/DECISIONS.md).
    let read = decode_fields(raw_chunk);
    let Ok(f) = read else {
        return read.map(|_| None);
    };
    let mut rooms = Rooms {
        index,
        headers,
        arenas,
        out_header,
        out_body,
    };
    at_table(shape, numbers, &mut rooms, peer, raw_chunk, f, now_ms)
}

// Feeds the chunk of a whole CI message under its source.
#[tactic(auto, unfolding(crate::specs::Feed::message_call))]
pub fn feed_message(
    shape: Shape,
    numbers: &mut [u64],
    index: &mut [u64],
    headers: &mut [u8],
    arenas: &mut [u8],
    body: &[u8],
    now_ms: u64,
    out_header: &mut [u8],
    out_body: &mut [u8],
) -> Result<Option<Whole>, PeError>
    ensures { feed_left (fed_told result) (memory numbers.new index.new headers.new arenas.new
        out_header.new out_body.new) ≡ message_call shape (memory numbers.old index.old
        headers.old arenas.old out_header.old out_body.old) body.now now_ms }
{
    if !has_all(shape, numbers, index, headers, arenas, out_header, out_body) {
        return Err(PeError::BadShape);
    }
    let read = PeMessage::decode(body);
    let Ok(message) = read else {
        return read.map(|_| None).map_err(PeError::from);
    };
    feed(
        shape,
        numbers,
        index,
        headers,
        arenas,
        message.header.source.0,
        &body[CI_HEADER_LEN..],
        now_ms,
        out_header,
        out_body,
    )
}
