// Lists that leave by turns.
ghost use Rattle.std.specs.Prelude.{◌≡◌};
ghost use Rattle.pe_stage.specs.Words.{new_call, join_call, turn_call};
ghost use Rattle.hub.specs.Answers.{left};
ghost use Rattle.hub.specs.Stage.{kept_of, turn_of};

use hub::answer::Answer;
use hub::stage::TurnAnswer;
use pe_stage::place::Outgoing;

// Makes an empty stage.
#[unsafe(no_mangle)]
pub extern "C" fn midici_pe_stage_new(stage: &mut [u64]) -> Answer
    ensures { left result stage.new ≡ kept_of (new_call stage.old) }
{
    hub::stage::midici_pe_stage_new(stage)
}

// A list of the buffer joins at a place.
#[unsafe(no_mangle)]
pub extern "C" fn midici_pe_stage_join(
    stage: &mut [u64],
    buffer: &[u8],
    place: u64,
    list: Outgoing,
) -> Answer
    ensures { left result stage.new ≡ kept_of (join_call stage.old buffer.now place list) }
{
    hub::stage::midici_pe_stage_join(stage, buffer, place, list)
}

// Writes the next chunk of the next list that waits into out.
#[unsafe(no_mangle)]
pub extern "C" fn midici_pe_stage_turn(
    stage: &mut [u64],
    buffer: &[u8],
    out: &mut [u8],
) -> TurnAnswer
    ensures { left result (stage.new, out.new)
        ≡ turn_of (turn_call stage.old buffer.now out.old) }
{
    hub::stage::midici_pe_stage_turn(stage, buffer, out)
}
