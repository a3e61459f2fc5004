// The questions that every call asks, and where a peer's record and a slot are.
ghost use Rattle.std.specs.Prelude.{not, ◌≡◌, ◌+◌, ◌*◌, ◌≤◌, ◌<◌, leb, length};
ghost use Rattle.pe_reassembler.specs.Calls.{close_at};
ghost use Rattle.pe_reassembler.specs.Table.{in_range, has_numbers, has_rooms, HasPeers, HasPeer, HasSlot, peer_at, slot_at, is_bound, bound_to, is_idle, has_id};
ghost use Rattle.pe_reassembler.specs.Table.{first, record_of, record_for, slot_open, slot_for, is_active};

use crate::shape::Shape;
use pe_frame::frame::MAX_HEADER_BYTES;
use pe_slot::layout::{MAX_FRAGMENT_RECORDS, MAX_TX_BYTES, REQUEST_ID, SLOT_WORDS};
use pe_slot::slot::close;

// The most peers, and the slots that each has.
pub(crate) const MAX_PEERS: usize = 16;

pub(crate) const MAX_CONCURRENT_PER_PEER: usize = 4;

// The clock's place in numbers, and where the peers' records start.
pub(crate) const CLOCK: usize = 0;

const PEERS_AT: usize = 1;

// A peer's record: bound and muid, then its slots.
const PEER_OWN_WORDS: usize = 2;

pub(crate) const PEER_WORDS: usize = PEER_OWN_WORDS + MAX_CONCURRENT_PER_PEER * SLOT_WORDS;

// The muid's place in it.
pub(crate) const MUID: usize = 1;

#[tactic(auto, unfolding(crate::specs::Table::in_range))]
pub(crate) fn in_range(shape: Shape) -> bool
    ensures { result ≡ in_range shape }
{
    shape.max_peers <= MAX_PEERS
        && shape.header_bytes <= MAX_HEADER_BYTES
        && shape.tx_bytes <= MAX_TX_BYTES
        && shape.fragment_records <= MAX_FRAGMENT_RECORDS
}

#[tactic(auto, using(crate::proofs::TableLaws::ranges), unfolding(crate::specs::Table::has_numbers))]
pub(crate) fn has_numbers(shape: Shape, numbers: &[u64]) -> bool
    ensures { result ≡ has_numbers shape numbers.now }
{
    in_range(shape) && PEERS_AT + PEER_WORDS * shape.max_peers <= numbers.len()
}

// Have four rooms of a size for each peer space in memory of a length?
fn rooms_fit(max_peers: usize, size: usize, len: usize) -> bool
    requires { (max_peers ≤ 16) × (size ≤ 65536) }
    ensures { result ≡ leb (4 * max_peers * size) len }
{
    MAX_CONCURRENT_PER_PEER * max_peers * size <= len
}

#[tactic(auto, using(crate::proofs::TableLaws::in_range_law), unfolding(crate::specs::Table::has_rooms))]
pub(crate) fn has_rooms(
    shape: Shape,
    numbers: &[u64],
    index: &[u64],
    headers: &[u8],
    arenas: &[u8],
) -> bool
    ensures { result ≡ has_rooms shape numbers.now index.now headers.now arenas.now }
{
    has_numbers(shape, numbers)
        && rooms_fit(shape.max_peers, shape.fragment_records, index.len())
        && rooms_fit(shape.max_peers, shape.header_bytes, headers.len())
        && rooms_fit(shape.max_peers, shape.tx_bytes, arenas.len())
}

// Where the words of a peer's record start: bound, muid, then its slots.
pub(crate) fn peer_at(p: usize) -> usize
    requires { p < 16 }
    ensures { result ≡ peer_at p }
{
    PEERS_AT + PEER_WORDS * p
}

// Where the words of a slot start.
pub(crate) fn slot_at(p: usize, s: usize) -> usize
    requires { (p < 16) × (s < 4) }
    ensures { result ≡ slot_at p s }
{
    peer_at(p) + PEER_OWN_WORDS + SLOT_WORDS * s
}

#[tactic(auto, unfolding(crate::specs::Table::is_bound))]
fn is_bound(numbers: &[u64], p: usize) -> bool
    requires { HasPeer numbers.now p }
    ensures { result ≡ is_bound numbers.now p }
{
    numbers[peer_at(p)] != 0
}

#[tactic(auto, unfolding(crate::specs::Table::bound_to))]
pub(crate) fn bound_to(numbers: &[u64], p: usize, peer: u32) -> bool
    requires { HasPeer numbers.now p }
    ensures { result ≡ bound_to numbers.now peer p }
{
    is_bound(numbers, p) && numbers[peer_at(p) + MUID] == peer as u64
}

// Is a slot of a record open?
#[tactic(auto, unfolding(crate::specs::Table::is_active))]
pub(crate) fn is_active(numbers: &[u64], p: usize, s: usize) -> bool
    requires { HasSlot numbers.now p s }
    ensures { result ≡ is_active numbers.now p s }
{
    numbers[slot_at(p, s)] != 0
}

// Has a record nothing open?
#[tactic(auto, unfolding(crate::specs::Table::is_idle))]
fn is_idle(numbers: &[u64], p: usize) -> bool
    requires { HasPeer numbers.now p }
    ensures { result ≡ is_idle numbers.now p }
{
    (0..MAX_CONCURRENT_PER_PEER).all(|s| !is_active(numbers, p, s))
}

#[tactic(auto, unfolding(crate::specs::Table::has_id))]
fn has_id(numbers: &[u64], request_id: u8, p: usize, s: usize) -> bool
    requires { HasSlot numbers.now p s }
    ensures { result ≡ has_id numbers.now request_id p s }
{
    is_active(numbers, p, s) && numbers[slot_at(p, s) + REQUEST_ID] == request_id as u64
}

// The record that is bound to a peer.
pub(crate) fn record_of(shape: Shape, numbers: &[u64], peer: u32) -> Option<usize>
    requires { HasPeers numbers.now shape.max_peers }
    ensures { result ≡ record_of shape numbers.now peer }
{
    (0..shape.max_peers).find(|&p| bound_to(numbers, p, peer))
}

fn record_unbound(shape: Shape, numbers: &[u64]) -> Option<usize>
    requires { HasPeers numbers.now shape.max_peers }
    ensures { result ≡ first (λ p. not (is_bound numbers.now p)) shape.max_peers }
{
    (0..shape.max_peers).find(|&p| !is_bound(numbers, p))
}

fn record_idle(shape: Shape, numbers: &[u64]) -> Option<usize>
    requires { HasPeers numbers.now shape.max_peers }
    ensures { result ≡ first (is_idle numbers.now) shape.max_peers }
{
    (0..shape.max_peers).find(|&p| is_idle(numbers, p))
}

// The record that a peer takes: its own, else the first unbound, else the first with nothing open.
#[tactic(auto, unfolding(crate::specs::Table::record_for))]
pub(crate) fn record_for(shape: Shape, numbers: &[u64], peer: u32) -> Option<usize>
    requires { HasPeers numbers.now shape.max_peers }
    ensures { result ≡ record_for shape numbers.now peer }
{
    record_of(shape, numbers, peer)
        .or_else(|| record_unbound(shape, numbers))
        .or_else(|| record_idle(shape, numbers))
}

// The slot of a record that is open with a request id.
pub(crate) fn slot_open(numbers: &[u64], p: usize, request_id: u8) -> Option<usize>
    requires { HasPeer numbers.now p }
    ensures { result ≡ slot_open numbers.now p request_id }
{
    (0..MAX_CONCURRENT_PER_PEER).find(|&s| has_id(numbers, request_id, p, s))
}

fn slot_free(numbers: &[u64], p: usize) -> Option<usize>
    requires { HasPeer numbers.now p }
    ensures { result ≡ first (λ s. not (is_active numbers.now p s)) 4 }
{
    (0..MAX_CONCURRENT_PER_PEER).find(|&s| !is_active(numbers, p, s))
}

// That slot, or else the first free one.
#[tactic(auto, unfolding(crate::specs::Table::slot_for))]
pub(crate) fn slot_for(numbers: &[u64], p: usize, request_id: u8) -> Option<usize>
    requires { HasPeer numbers.now p }
    ensures { result ≡ slot_for numbers.now p request_id }
{
    slot_open(numbers, p, request_id).or_else(|| slot_free(numbers, p))
}

// Closes a slot in its place.
#[tactic(auto, using(crate::proofs::TableClose::close_back))]
pub(crate) fn close_at(numbers: &mut [u64], p: usize, s: usize)
    requires { HasSlot numbers.old p s }
    ensures { numbers.new ≡ close_at p s numbers.old }
{
    let at = slot_at(p, s);
    close(&mut numbers[at..at + SLOT_WORDS]);
}
