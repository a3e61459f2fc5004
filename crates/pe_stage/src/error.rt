// Why a call on a stage is refused.
ghost use Rattle.std.specs.Prelude.{◌≡◌};
ghost use Rattle.pe_stage.specs.Errors.{stage_number, stage_value};

use pe_wire::error::PeError;
use seven_bit::refusal::Refusal;

#[derive(Clone, Copy, Debug, PartialEq, Eq)]
pub enum StageError {
    // A place above 15.
    NoSuchPlace,
    // The list that is at this place has not left yet.
    PlaceBusy,
    // Lent memory is too short, the list is outside of the lent buffer, or the cutter refuses.
    Pe(PeError),
}

impl From<PeError> for StageError {
    ghost use Rattle.pe_stage.specs.declared.error.StageError.TheVariants.{Pe};

    ghost from_gives = { λ e r. r ≡ Pe e };

    fn from(e: PeError) -> StageError {
        StageError::Pe(e)
    }
}

impl Refusal for StageError {
    ghost number = { stage_number };

    ghost value = { stage_value };

    // Document 02's number, or document 01's.
    fn number(self) -> u8 {
        match self {
            StageError::NoSuchPlace => 38,
            StageError::PlaceBusy => 39,
            StageError::Pe(e) => e.number(),
        }
    }

    fn value(self) -> u8 {
        match self {
            StageError::Pe(e) => e.value(),
            _ => 0,
        }
    }
}
