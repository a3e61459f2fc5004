// One slot: question 31, the questions of a chunk, completeness, joining.
ghost use Rattle.std.specs.Prelude.{◌≡◌, ◌≤◌, length};
ghost use Rattle.pe_slot.specs.Layout.{slot_words};
ghost use Rattle.pe_slot.specs.Memory.{slot_of, words_of, contents};
ghost use Rattle.pe_slot.specs.Feed.{slot_left, is_shaped, feed_slot, whole_told, fed_told, touched, close_words};
ghost use Rattle.pe_wire.specs.Errors.{pe_told};
ghost use Rattle.seven_bit.specs.Reply.{granted};
ghost use Rattle.pe_frame.specs.Chunk.{chunk_from};
ghost use Rattle.pe_slot.specs.Steps.{is_bounded, ask_sound, Ready, asked_told, header_taken, take_header, count_taken, take_count};
ghost use Rattle.pe_slot.specs.Steps.{piece_added, add_piece, finished, finish_of};

use super::layout::{
    ACTIVE, HEADER_LEN, HEADER_SET, INDEX_LEN, LAST_ACTIVITY_MS, LRU_TICK, MAX_FRAGMENT_RECORDS,
    MAX_TX_BYTES, NUM_CHUNKS, PROPERTY_BYTES, REQUEST_ID, SLOT_WORDS,
};
use super::meta::FragmentMeta;
use super::records::{is_up_to, join, scan};
use pe_frame::frame::MAX_HEADER_BYTES;
use pe_wire::error::PeError;
use pe_wire::wire::U14_MAX;

// When a chunk comes: the time, and the tick that it gives its slot.
#[derive(Clone, Copy, Debug, PartialEq, Eq)]
pub struct Moment {
    pub now_ms: u64,
    pub tick: u64,
}

// A whole list: the lengths of header and body in the outputs.
#[derive(Clone, Copy, Debug, PartialEq, Eq)]
pub struct Whole {
    pub header_len: usize,
    pub body_len: usize,
}

// Are there nine words, rooms in range, and outputs as long as the rooms?
#[tactic(auto, unfolding(crate::specs::Feed::is_shaped))]
fn is_shaped(
    words: &[u64],
    index: &[u64],
    header: &[u8],
    arena: &[u8],
    out_header: &[u8],
    out_body: &[u8],
) -> bool
    ensures { result ≡ is_shaped words.now index.now header.now arena.now out_header.now
        out_body.now }
{
    words.len() == SLOT_WORDS
        && index.len() <= MAX_FRAGMENT_RECORDS
        && header.len() <= MAX_HEADER_BYTES
        && arena.len() <= MAX_TX_BYTES
        && header.len() <= out_header.len()
        && arena.len() <= out_body.len()
}

// Are a slot's lengths within its rooms, and 0 if it is free?
fn is_bounded(words: &[u64], index: &[u64], header: &[u8], arena: &[u8]) -> bool
    requires { length words.now ≡ slot_words }
    ensures { result ≡ is_bounded (length header.now) (length arena.now) (length index.now)
        (slot_of words.now) }
{
    words[HEADER_LEN] <= header.len() as u64
        && words[INDEX_LEN] <= index.len() as u64
        && words[PROPERTY_BYTES] <= arena.len() as u64
        && (words[ACTIVE] != 0 || words[HEADER_LEN] == 0 && words[INDEX_LEN] == 0)
}

// Asks question 31: are the lengths in bounds, and do the records lie end to end, up to the place that the words say? The same pass over the
// records tells of a sound slot whether a chunk number is held.
#[tactic(auto, using(crate::proofs::FeedAsked::unbounded, crate::proofs::FeedAsked::unlaid, crate::proofs::FeedAsked::sound_held))]
fn soundness_of(
    words: &[u64],
    index: &[u64],
    header: &[u8],
    arena: &[u8],
    chunk_num: u16,
) -> Result<bool, PeError>
    requires { (length words.now ≡ slot_words) × (length index.now ≤ 2048) }
    ensures { pe_told (λ held. held) result ≡ ask_sound words.now index.now header.now arena.now chunk_num }
{
    if !is_bounded(words, index, header, arena) {
        return Err(PeError::DamagedSlot);
    }
    let pass = scan(&index[..words[INDEX_LEN] as usize], chunk_num);
    if pass.end != Some(words[PROPERTY_BYTES]) {
        return Err(PeError::DamagedSlot);
    }
    Ok(pass.held)
}

// Closes a slot: all its words but the tick become 0. Words of another length are left as they are.
#[tactic(auto, using(crate::proofs::SlotWords::close_zeroed, crate::proofs::SlotWords::close_other))]
pub fn close(words: &mut [u64])
    ensures { words.new ≡ close_words words.old }
{
    if words.len() == SLOT_WORDS {
        let tick = words[LRU_TICK];
        words.fill(0);
        words[LRU_TICK] = tick;
    }
}

// Time and tick are set, and a free slot is opened.
#[tactic(auto, using(crate::proofs::SlotWords::touch_words))]
fn touch(words: &mut [u64], request_id: u8, moment: Moment)
    requires { length words.old ≡ slot_words }
    ensures { words.new ≡ words_of (touched (slot_of words.old) request_id moment.now_ms moment.tick) }
{
    words[REQUEST_ID] = request_id as u64;
    words[LAST_ACTIVITY_MS] = moment.now_ms;
    words[LRU_TICK] = moment.tick;
    words[ACTIVE] = words[ACTIVE].max(1);
}

// Chunk 1: does its header fit, and is it the one that is known? The first is stored.
#[tactic(auto, using(crate::proofs::SlotHeaders::same_lists, seven_bit::proofs::PartLaws::fit_front), unfolding(crate::specs::Steps::take_header))]
fn take_header(
    words: &mut [u64],
    header: &mut [u8],
    chunk_num: u16,
    chunk_header: &[u8],
) -> Result<(), PeError>
    requires { (length words.old ≡ slot_words) × ((slot_of words.old).header_len ≤ length header.old) }
    ensures { header_taken (asked_told result) words.new header.new
        ≡ take_header words.old header.old chunk_num chunk_header.now }
{
    if chunk_num != 1 {
        return Ok(());
    }
    if chunk_header.len() > header.len() {
        return Err(PeError::HeaderTooLarge);
    }
    if words[HEADER_SET] == 0 {
        seven_bit::copy_in(header, 0, chunk_header);
        words[HEADER_SET] = 1;
        words[HEADER_LEN] = chunk_header.len() as u64;
        return Ok(());
    }
    let len = words[HEADER_LEN] as usize;
    if &header[..len] != chunk_header {
        return Err(PeError::InconsistentChunking);
    }
    Ok(())
}

// Do the chunk's count and number go with the count that is known? The first one is taken, if no number that is held is above it.
#[tactic(auto, unfolding(crate::specs::Steps::take_count))]
fn take_count(
    words: &mut [u64],
    index: &[u64],
    num_chunks: u16,
    chunk_num: u16,
) -> Result<(), PeError>
    requires { (length words.old ≡ slot_words) × ((slot_of words.old).index_len ≤ length index.now) }
    ensures { count_taken (asked_told result) words.new ≡ take_count words.old index.now num_chunks chunk_num }
{
    let known = words[NUM_CHUNKS];
    if known == 0 {
        if num_chunks != 0 {
            if !is_up_to(&index[..words[INDEX_LEN] as usize], num_chunks) {
                return Err(PeError::InconsistentChunking);
            }
            words[NUM_CHUNKS] = num_chunks as u64;
        }
        return Ok(());
    }
    if num_chunks != 0 && num_chunks as u64 != known || chunk_num as u64 > known {
        return Err(PeError::InconsistentChunking);
    }
    Ok(())
}

// Is there a number, not held, and room for a record and its bytes? Then the piece lies behind the others; held: whether its number is.
#[tactic(auto, using(crate::proofs::FeedLaws::fit_splice, crate::proofs::SlotWords::close_nine), unfolding(crate::specs::Steps::add_piece))]
fn add_piece(
    words: &mut [u64],
    index: &mut [u64],
    arena: &mut [u8],
    chunk_num: u16,
    property: &[u8],
    held: bool,
) -> Result<(), PeError>
    requires { (length words.old ≡ slot_words) × (length arena.old ≤ 65536)
        × ((slot_of words.old).property_bytes ≤ length arena.old) × (length property.now ≤ 16383) }
    ensures { piece_added (asked_told result) words.new index.new arena.new
        ≡ add_piece words.old index.old arena.old chunk_num property.now held }
{
    if chunk_num == 0 {
        close(words);
        return Err(PeError::InconsistentChunking);
    }
    if held {
        return Err(PeError::InconsistentChunking);
    }
    let len = words[INDEX_LEN] as usize;
    if len >= index.len() {
        return Err(PeError::Oversize);
    }
    let at = words[PROPERTY_BYTES] as usize;
    let end = at + property.len();
    if end > arena.len() {
        close(words);
        return Err(PeError::Oversize);
    }
    index[len] = u64::from(FragmentMeta {
        chunk_num,
        len: property.len() as u16,
        offset: at as u32,
    });
    words[INDEX_LEN] = len as u64 + 1;
    words[PROPERTY_BYTES] = end as u64;
    seven_bit::copy_in(arena, at, property);
    Ok(())
}

// A slot with a piece more: a whole list is written to the outputs and the slot closes, or it waits.
fn finish(
    words: &mut [u64],
    index: &[u64],
    header: &[u8],
    arena: &[u8],
    out_header: &mut [u8],
    out_body: &mut [u8],
) -> Option<Whole>
    requires { Ready words.old index.now header.now arena.now out_header.old out_body.old }
    ensures { finished (granted (whole_told result)) words.new out_header.new out_body.new
        ≡ finish_of words.old
        (contents (slot_of words.old) index.now header.now arena.now)
        out_header.old out_body.old }
{
    let count = words[NUM_CHUNKS];
    let len = words[INDEX_LEN];
    // fewer records than the count can't hold every number
    if words[HEADER_SET] == 0 || count == 0 || len < count {
        return None;
    }
    let end = words[PROPERTY_BYTES] as usize;
    let body_len = join(count, &index[..len as usize], end, arena, out_body)?;
    let header_len = words[HEADER_LEN] as usize;
    seven_bit::copy_in(out_header, 0, &header[..header_len]);
    close(words);
    Some(Whole {
        header_len,
        body_len,
    })
}

// Feeds a chunk to the slot whose nine words, records, header room and arena are lent, each as long as the shape says.
pub fn feed_slot(
    words: &mut [u64],
    index: &mut [u64],
    header: &mut [u8],
    arena: &mut [u8],
    request_id: u8,
    chunk_header: &[u8],
    num_chunks: u16,
    chunk_num: u16,
    property: &[u8],
    moment: Moment,
    out_header: &mut [u8],
    out_body: &mut [u8],
) -> Result<Option<Whole>, PeError>
    ensures { slot_left (fed_told result) words.new index.new header.new arena.new
        out_header.new out_body.new
        ≡ feed_slot words.old index.old header.old arena.old
        (chunk_from request_id chunk_header.now num_chunks chunk_num property.now)
        moment.now_ms moment.tick out_header.old out_body.old }
{
    if !is_shaped(words, index, header, arena, out_header, out_body) {
        return Err(PeError::BadShape);
    }
    let held = soundness_of(words, index, header, arena, chunk_num)?;
    if property.len() > U14_MAX as usize {
        return Err(PeError::BadField);
    }
    touch(words, request_id, moment);
    take_header(words, header, chunk_num, chunk_header)?;
    take_count(words, index, num_chunks, chunk_num)?;
    add_piece(words, index, arena, chunk_num, property, held)?;
    Ok(finish(words, index, header, arena, out_header, out_body))
}
