// Why a tape is not read or played on.
ghost use Rattle.std.specs.Prelude.{◌≡◌};
ghost use Rattle.pe_tape.specs.Errors.{tape_number, tape_value};

use pe_wire::error::PeError;
use seven_bit::refusal::Refusal;

#[derive(Clone, Copy, Debug, PartialEq, Eq)]
pub enum TapeError {
    // No command has this byte.
    UnknownCommand,
    // The tape ends inside a command.
    CutOff,
    // The lent output has no room for a line.
    Pe(PeError),
}

impl From<PeError> for TapeError {
    ghost use Rattle.pe_tape.specs.declared.error.TapeError.TheVariants.{Pe};

    ghost from_gives = { λ e r. r ≡ Pe e };

    fn from(e: PeError) -> TapeError {
        TapeError::Pe(e)
    }
}

// 36 and 37 are document 02's.
impl Refusal for TapeError {
    ghost number = { tape_number };

    ghost value = { tape_value };

    fn number(self) -> u8 {
        match self {
            TapeError::UnknownCommand => 36,
            TapeError::CutOff => 37,
            TapeError::Pe(e) => e.number(),
        }
    }

    fn value(self) -> u8 {
        match self {
            TapeError::Pe(e) => e.value(),
            _ => 0,
        }
    }
}
