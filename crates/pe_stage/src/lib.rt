// The outgoing stage: 16 places that take turns, each holding one list that is being cut. A stage is numbers that the caller lends; the lists' bytes
// stay in one buffer, lent with each call.
#![tactic(auto)]

mod cut;
pub mod error;
pub mod place;

ghost use Rattle.std.specs.Prelude.{cond, ◌≡◌, ◌+◌, ◌<◌, ltb};
ghost use Rattle.pe_stage.specs.Words.{HasPlaces, moved_on, kept, made_told, new_call, join_call};
ghost use Rattle.pe_stage.specs.Words.{turn_left, turned_told, turn_call};
ghost use Rattle.pe_stage.specs.Errors.{stage_count};

use crate::cut::{chunk_in, count_in};
use crate::error::StageError;
use crate::place::{
    Outgoing, PLACES, Place, STAGE_WORDS, TURN, check_memory, next_waiting, place_at, put_place,
};

// What a turn hands out: the place, the number of its chunk, their count, and the bytes that the chunk has in the lent output.
#[derive(Clone, Copy, Debug, PartialEq, Eq)]
pub struct Handed {
    pub place: usize,
    pub chunk_num: u16,
    pub num_chunks: u16,
    pub len: usize,
}

// Makes an empty stage in the lent memory; what lies past it keeps its values.
#[tactic(auto, using(crate::proofs::WordLaws::new_made, crate::proofs::WordLaws::new_short))]
pub fn new(stage: &mut [u64]) -> Result<(), StageError>
    ensures { kept (made_told result) stage.new ≡ new_call stage.old }
{
    check_memory(stage)?;
    stage[..STAGE_WORDS].fill(0);
    Ok(())
}

// A list of the buffer joins at a place: how many chunks will leave.
#[tactic(auto, using(crate::proofs::CallLaws::joins))]
pub fn join(stage: &mut [u64], buffer: &[u8], place: u64, list: Outgoing) -> Result<u16, StageError>
    ensures { kept (stage_count result) stage.new ≡ join_call stage.old buffer.now place list }
{
    check_memory(stage)?;
    if place >= PLACES as u64 {
        return Err(StageError::NoSuchPlace);
    }
    let p = place as usize;
    if !place_at(stage, p).is_free() {
        return Err(StageError::PlaceBusy);
    }
    let count = count_in(buffer, list)?;
    put_place(
        stage,
        p,
        Place {
            list,
            next_chunk: 1,
        },
    );
    Ok(count)
}

// The number of the chunk that leaves after one, 0 after the last.
fn following(chunk_num: u64, num_chunks: u16) -> u64
    ensures { result ≡ cond (ltb chunk_num num_chunks) (chunk_num + 1) 0 }
{
    if chunk_num < num_chunks as u64 {
        chunk_num + 1
    } else {
        0
    }
}

// Stores a place from which a chunk has left; the next turn asks the place after this one first.
fn move_on(stage: &mut [u64], p: usize, place: Place)
    requires { HasPlaces stage.old × (p < 16) }
    ensures { stage.new ≡ moved_on p place.list place.next_chunk stage.old }
{
    put_place(stage, p, place);
    stage[TURN] = ((p + 1) % PLACES) as u64;
}

// Writes the next chunk of the next list that waits into out; none where nobody waits.
#[tactic(auto, using(crate::proofs::CallLaws::turn_short, crate::proofs::CallLaws::turn_nobody, crate::proofs::CallLaws::next_within))]
pub fn turn(stage: &mut [u64], buffer: &[u8], out: &mut [u8]) -> Result<Option<Handed>, StageError>
    ensures { turn_left (turned_told result) stage.new out.new
        ≡ turn_call stage.old buffer.now out.old }
{
    check_memory(stage)?;
    let Some(p) = next_waiting(stage) else {
        return Ok(None);
    };
    let place = place_at(stage, p);
    let chunk = chunk_in(buffer, place.list, place.next_chunk, out)?;
    let next_chunk = following(place.next_chunk, chunk.num_chunks);
    move_on(
        stage,
        p,
        Place {
            next_chunk,
            ..place
        },
    );
    Ok(Some(Handed {
        place: p,
        chunk_num: place.next_chunk as u16,
        num_chunks: chunk.num_chunks,
        len: chunk.len,
    }))
}
