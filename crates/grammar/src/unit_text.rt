// A unit's text in fixed memory.
ghost use Rattle.std.specs.Prelude.{◌≤◌};

use crate::unit::{LONGEST_TEXT, UnitFault};

#[derive(Clone, Copy)]
pub struct UnitText {
    // Stays: an array with its length, since a held text is Copy and a vector of fixed capacity is not.
    bytes: [u8; LONGEST_TEXT],
    len: usize,
    ghost within: { len ≤ 4096 },
}

impl UnitText {
    ghost use Rattle.std.specs.Prelude.{◌≡◌};
    ghost use Rattle.grammar.specs.Texts.{text_in};

    pub fn as_slice(&self) -> &[u8]
        ensures { result.now ≡ text_in self.now }
    {
        &self.bytes[..self.len]
    }
}

// Refused only where it is too long.
impl TryFrom<&[u8]> for UnitText {
    ghost use Rattle.grammar.specs.Texts.{Keeps};

    type Error = UnitFault;

    ghost try_from_gives = { λ text r. Keeps text.now r };

    fn try_from(text: &[u8]) -> Result<UnitText, UnitFault> {
        let len = text.len();
        if len > LONGEST_TEXT {
            return Err(UnitFault::TooLong);
        }
        let mut bytes = [0; LONGEST_TEXT];
        bytes[..len].copy_from_slice(text);
        Ok(UnitText { bytes, len })
    }
}
