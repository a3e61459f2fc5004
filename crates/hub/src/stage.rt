// Lists that leave by turns.
ghost use Rattle.std.specs.Prelude.{◌≡◌};
ghost use Rattle.pe_stage.specs.Words.{turned_told, new_call, join_call, turn_call};
ghost use Rattle.hub.specs.Answers.{left};
ghost use Rattle.hub.specs.Stage.{turn_answer_of, kept_of, turn_of};

use crate::answer::Answer;
use pe_stage::Handed;
use pe_stage::error::StageError;
use pe_stage::place::Outgoing;
use seven_bit::refusal::Refusal;

// The refusal's number, 0 where there is none; handed is 1 with a chunk, whose number, count, place and length then stand here, and 0 where nobody
// waits.
#[repr(C)]
#[derive(Clone, Copy, Default)]
pub struct TurnAnswer {
    pub refusal: u8,
    pub handed: u8,
    pub chunk_num: u16,
    pub num_chunks: u16,
    pub place: u64,
    pub length: u64,
}

impl From<Result<Option<Handed>, StageError>> for TurnAnswer {
    ghost from_gives = { λ r answer. answer ≡ turn_answer_of (turned_told r) };

    fn from(r: Result<Option<Handed>, StageError>) -> TurnAnswer {
        match r {
            Ok(None) => TurnAnswer::default(),
            Ok(Some(chunk)) => TurnAnswer {
                handed: 1,
                chunk_num: chunk.chunk_num,
                num_chunks: chunk.num_chunks,
                place: chunk.place as u64,
                length: chunk.len as u64,
                ..TurnAnswer::default()
            },
            Err(e) => TurnAnswer {
                refusal: e.number(),
                ..TurnAnswer::default()
            },
        }
    }
}

// Makes an empty stage.
pub fn midici_pe_stage_new(stage: &mut [u64]) -> Answer
    ensures { left result stage.new ≡ kept_of (new_call stage.old) }
{
    pe_stage::new(stage).map(|()| 0).into()
}

// A list of the buffer joins at a place.
pub fn midici_pe_stage_join(stage: &mut [u64], buffer: &[u8], place: u64, list: Outgoing) -> Answer
    ensures { left result stage.new ≡ kept_of (join_call stage.old buffer.now place list) }
{
    pe_stage::join(stage, buffer, place, list)
        .map(|n| n as u64)
        .into()
}

// Writes the next chunk of the next list that waits into out.
pub fn midici_pe_stage_turn(stage: &mut [u64], buffer: &[u8], out: &mut [u8]) -> TurnAnswer
    ensures { left result (stage.new, out.new)
        ≡ turn_of (turn_call stage.old buffer.now out.old) }
{
    pe_stage::turn(stage, buffer, out).into()
}
