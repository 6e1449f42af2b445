// The families that a code byte picks from.
ghost use Rattle.line_reader.specs.FamilyCodes.{PicksFamily};

use crate::fault::InputFault;

#[derive(Clone, Copy, Debug, PartialEq, Eq)]
pub enum FamilyCode {
    Division,
    Toeplitz,
    Evaluation,
}

impl TryFrom<u8> for FamilyCode {
    type Error = InputFault;

    ghost try_from_gives = { PicksFamily };

    fn try_from(code: u8) -> Result<FamilyCode, InputFault> {
        match code {
            1 => Ok(FamilyCode::Division),
            2 => Ok(FamilyCode::Toeplitz),
            3 => Ok(FamilyCode::Evaluation),
            _ => Err(InputFault::Code),
        }
    }
}
