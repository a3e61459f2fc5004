// new, cancel, drop_peer, memory_stats and reserved_bytes.
ghost use Rattle.std.specs.Prelude.{true, ◌∷◌, ◌++◌, ◌≡◌, ◌+◌, ◌*◌, ◌≤◌, ◌<◌, min, length, drop, replicate, Some};
ghost use Rattle.seven_bit.specs.Parts.{put};
ghost use Rattle.seven_bit.specs.Reply.{granted};
ghost use Rattle.pe_reassembler.specs.Calls.{new_call, fresh, made_told, fresh_peers, find_peer, cancel_call, numbered};
ghost use Rattle.pe_reassembler.specs.Calls.{cancelled_told, close_open, open_count, drop_at, drop_call, slot_bytes, over_slots};
ghost use Rattle.pe_reassembler.specs.Calls.{reserved_of, stats_call, stats_told, reserved_call};
ghost use Rattle.pe_wire.specs.Errors.{pe_told, pe_count};
ghost use Rattle.pe_reassembler.specs.Table.{in_range, HasPeers, HasPeer, HasSlot, peer_words, peer_at};

use crate::shape::Shape;
use crate::table::{
    CLOCK, MAX_CONCURRENT_PER_PEER, MUID, PEER_WORDS, close_at, has_numbers, has_rooms, in_range,
    is_active, peer_at, record_of, slot_at, slot_open,
};
use midici_core::error::CiError;
use midici_core::muid::Muid;
use pe_slot::layout::{HEADER_LEN, INDEX_LEN, PROPERTY_BYTES};
use pe_wire::error::PeError;

#[derive(Clone, Copy, Debug, PartialEq, Eq)]
pub struct MemoryStats {
    pub reserved_bytes: u64,
    pub active_bytes: u64,
    pub active_slots: u64,
}

// Makes the record of a peer, unbound and with nothing open.
#[tactic(auto, using(crate::proofs::CallsFresh::fresh_one))]
fn fresh_peer(words: &mut [u64])
    requires { length words.old ≡ peer_words }
    ensures { words.new ≡ fresh_peers 1 }
{
    words.fill(0);
    words[MUID] = Muid::BROADCAST.0 as u64;
}

// Makes the records of all peers.
fn fresh_peers(numbers: &mut [u64], max_peers: usize)
    requires { HasPeers numbers.old max_peers }
    ensures { numbers.new ≡ put numbers.old 1 (fresh_peers max_peers) }
{
    for p in 0..max_peers {
        let at = peer_at(p);
        fresh_peer(&mut numbers[at..at + PEER_WORDS]);
    }
}

// Makes the clock and the records: the first tick is 2.
#[tactic(auto, using(crate::proofs::CallsFresh::fresh_clock))]
fn fresh_numbers(numbers: &mut [u64], max_peers: usize)
    requires { HasPeers numbers.old max_peers }
    ensures { numbers.new ≡ (1 ∷ fresh_peers max_peers) ++ drop (peer_at max_peers) numbers.old }
{
    numbers[CLOCK] = 1;
    fresh_peers(numbers, max_peers);
}

// Makes a table in the lent memory; what lies past it keeps its values.
#[tactic(auto, using(crate::proofs::TableLaws::lent), unfolding(crate::specs::Calls::new_call))]
pub fn new(
    shape: Shape,
    numbers: &mut [u64],
    index: &mut [u64],
    headers: &[u8],
    arenas: &[u8],
) -> Result<(), PeError>
    ensures { fresh (made_told result) numbers.new index.new
        ≡ new_call shape numbers.old index.old headers.now arenas.now }
{
    if !has_rooms(shape, numbers, index, headers, arenas) {
        return Err(PeError::BadShape);
    }
    let records = MAX_CONCURRENT_PER_PEER * shape.max_peers * shape.fragment_records;
    fresh_numbers(numbers, shape.max_peers);
    index[..records].fill(0);
    Ok(())
}

// Asks 30 and 28, and finds the record that is bound to a peer, if there is one.
#[tactic(auto, using(crate::proofs::TableLaws::numbers_long))]
fn find_peer(shape: Shape, numbers: &[u64], peer: u32) -> Result<Option<usize>, PeError>
    ensures { pe_told (λ found. found) result ≡ find_peer shape numbers.now peer }
{
    if !has_numbers(shape, numbers) {
        return Err(PeError::BadShape);
    }
    if peer > Muid::MASK_28 {
        return Err(PeError::Ci(CiError::InvalidMuid));
    }
    Ok(record_of(shape, numbers, peer))
}

// Closes the slot of a peer that is open with a request id: whether there was one.
#[tactic(auto, using(crate::proofs::CallsLaws::found_in, crate::proofs::TableLaws::slot_open_below), unfolding(crate::specs::Calls::cancel_call))]
pub fn cancel(shape: Shape, numbers: &mut [u64], peer: u32, request_id: u8) -> Result<bool, PeError>
    ensures { numbered (cancelled_told result) numbers.new ≡ cancel_call shape numbers.old peer request_id }
{
    let Some(p) = find_peer(shape, numbers, peer)? else {
        return Ok(false);
    };
    let Some(s) = slot_open(numbers, p, request_id) else {
        return Ok(false);
    };
    close_at(numbers, p, s);
    Ok(true)
}

// How many slots of a record are open.
fn open_slots(numbers: &[u64], p: usize) -> u64
    requires { HasPeer numbers.now p }
    ensures { (result ≡ open_count numbers.now p 0 + open_count numbers.now p 1
        + open_count numbers.now p 2 + open_count numbers.now p 3) × (result ≤ 4) }
{
    let mut open = 0;
    for s in 0..MAX_CONCURRENT_PER_PEER {
        open += u64::from(is_active(numbers, p, s));
    }
    open
}

// Closes a slot if it is open.
fn close_open(numbers: &mut [u64], p: usize, s: usize)
    requires { HasSlot numbers.old p s }
    ensures { numbers.new ≡ close_open p s numbers.old }
{
    if is_active(numbers, p, s) {
        close_at(numbers, p, s);
    }
}

// Closes all slots of a record and unbinds it: how many were open.
fn drop_record(numbers: &mut [u64], p: usize) -> u64
    requires { HasPeer numbers.old p }
    ensures { numbered (granted result) numbers.new ≡ drop_at (Some p) numbers.old }
{
    let open = open_slots(numbers, p);
    for s in 0..MAX_CONCURRENT_PER_PEER {
        close_open(numbers, p, s);
    }
    numbers[peer_at(p)] = 0;
    open
}

// Closes all slots of a peer and unbinds its record: how many there were.
#[tactic(auto, using(crate::proofs::CallsLaws::found_in), unfolding(crate::specs::Calls::drop_call))]
pub fn drop_peer(shape: Shape, numbers: &mut [u64], peer: u32) -> Result<u64, PeError>
    ensures { numbered (pe_count result) numbers.new ≡ drop_call shape numbers.old peer }
{
    let Some(p) = find_peer(shape, numbers, peer)? else {
        return Ok(0);
    };
    Ok(drop_record(numbers, p))
}

// The bytes that a slot holds; sums hold at 2^64 − 1.
#[tactic(auto, unfolding(crate::specs::Calls::slot_bytes))]
fn slot_bytes(numbers: &[u64], p: usize, s: usize) -> u64
    requires { HasSlot numbers.now p s }
    ensures { result ≡ min (slot_bytes numbers.now p s) 18446744073709551615 }
{
    if !is_active(numbers, p, s) {
        return 0;
    }
    let at = slot_at(p, s);
    numbers[at + HEADER_LEN]
        .saturating_add(numbers[at + PROPERTY_BYTES])
        .saturating_add(numbers[at + INDEX_LEN].saturating_mul(8))
}

// The bytes that a peer's slots hold, on top of those so far.
fn add_peer_bytes(total: u64, numbers: &[u64], p: usize) -> u64
    requires { HasPeer numbers.now p }
    ensures { result ≡ min (total + (slot_bytes numbers.now p 0 + slot_bytes numbers.now p 1
        + slot_bytes numbers.now p 2 + slot_bytes numbers.now p 3)) 18446744073709551615 }
{
    let mut sum = total;
    for s in 0..MAX_CONCURRENT_PER_PEER {
        sum = sum.saturating_add(slot_bytes(numbers, p, s));
    }
    sum
}

// Not one function with `active_slots`: it holds at 2^64 − 1, and a closure for both would want a ghost function in its contract.
#[tactic(auto, using(crate::proofs::CallsSums::over_none, crate::proofs::CallsSums::over_next))]
fn active_bytes(shape: Shape, numbers: &[u64]) -> u64
    requires { HasPeers numbers.now shape.max_peers }
    ensures { result ≡ min (over_slots (slot_bytes numbers.now) shape.max_peers) 18446744073709551615 }
{
    let mut total = 0;
    for p in 0..shape.max_peers {
        total = add_peer_bytes(total, numbers, p);
    }
    total
}

#[tactic(auto, using(crate::proofs::CallsSums::over_none, crate::proofs::CallsSums::over_next))]
fn active_slots(shape: Shape, numbers: &[u64]) -> u64
    requires { HasPeers numbers.now shape.max_peers }
    ensures { result ≡ over_slots (λ p s. open_count numbers.now p s) shape.max_peers }
{
    let mut total = 0;
    for p in 0..shape.max_peers {
        total += open_slots(numbers, p);
    }
    total
}

// The bytes that the rooms of a table take.
#[tactic(auto, using(crate::proofs::TableLaws::ranges, crate::proofs::CallsSums::reserved_below), unfolding(crate::specs::Calls::reserved_of))]
fn reserved(shape: Shape) -> u64
    requires { in_range shape ≡ true }
    ensures { result ≡ reserved_of shape }
{
    let each = shape.header_bytes + shape.tx_bytes + 8 * shape.fragment_records;
    (MAX_CONCURRENT_PER_PEER * shape.max_peers * each) as u64
}

#[tactic(auto, using(crate::proofs::TableLaws::numbers_long, crate::proofs::TableLaws::asked_range), unfolding(crate::specs::Calls::stats_call))]
pub fn memory_stats(shape: Shape, numbers: &[u64]) -> Result<MemoryStats, PeError>
    ensures { stats_told result ≡ stats_call shape numbers.now }
{
    if !has_numbers(shape, numbers) {
        return Err(PeError::BadShape);
    }
    Ok(MemoryStats {
        reserved_bytes: reserved(shape),
        active_bytes: active_bytes(shape, numbers),
        active_slots: active_slots(shape, numbers),
    })
}

#[tactic(auto, unfolding(crate::specs::Calls::reserved_call))]
pub fn reserved_bytes(shape: Shape) -> Result<u64, PeError>
    ensures { pe_count result ≡ reserved_call shape }
{
    if !in_range(shape) {
        return Err(PeError::BadShape);
    }
    Ok(reserved(shape))
}
