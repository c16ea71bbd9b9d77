ghost use Rattle.std.specs.Prelude.{◌≡◌};
ghost use Rattle.sheets.specs.Slips.{taken_apart, says};

use crate::fault::{Fault, Refusal};
use crate::word::{SlipWord, Word};

// A slip taken apart: its lot, and the words behind the LOT word.
pub fn take_apart(slip: &[u32]) -> Result<(u16, &[u32]), Fault>
    ensures { says result ≡ taken_apart slip.now }
{
    match slip {
        [] => Err(Fault::new(Refusal::Misplaced, 0)),
        [first, rest @ ..] => match SlipWord::read(*first, 0)? {
            SlipWord::Lot { lot } => Ok((lot, rest)),
            SlipWord::Wish { .. } => Err(Fault::new(Refusal::Misplaced, 0)),
        },
    }
}
