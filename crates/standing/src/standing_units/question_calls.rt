// What questions name: places, names, indirect calls, lines.
ghost use Rattle.std.specs.Prelude.{◌≡◌, ℕ, List, Some, None, IfOk, IfErr, if◌then◌else◌, nat_lt, slice_index_or};
ghost use Rattle.lexemes.specs.Lines.{line_of};
ghost use Rattle.books.specs.Books.{Book, standing};
ghost use Rattle.books.specs.Replies.{place_among, name_in};
ghost use Rattle.standing.specs.declared.refusal.UnitRefusal.TheVariants.{NoSuchUnit, NothingStands};
ghost use Rattle.standing.specs.States.{units_of, LaidOut, cell_number, object_number, pointer_reply, owned_name};

use super::StandingUnits;
use crate::list::Owner;
use crate::lookup::{cell_variable, place_variable, pointer_variable};
use crate::refusal::UnitRefusal;
use lexemes::lexeme::bytes_of;
use lexemes::location::line_of;
use questions::{read_name, read_place};

impl StandingUnits {
    // The text that stands under a unit number.
    pub(crate) fn text(&self, unit: usize) -> Result<&[u8], UnitRefusal>
        ensures stands { IfOk result (λ text. slice_index_or (units_of self.now) unit None ≡ Some text.now) }
        ensures refused { IfErr result (λ refusal. (slice_index_or (units_of self.now) unit None ≡ None) × (refusal ≡ (if nat_lt 7 unit then NoSuchUnit else NothingStands))) }
    {
        match self.texts.get(unit) {
            Some(Some(text)) => Ok(text.as_slice()),
            Some(None) => Err(UnitRefusal::NothingStands),
            None => Err(UnitRefusal::NoSuchUnit),
        }
    }

    // The variable of a place of a standing unit.
    pub fn place(&self, text: &[u8]) -> Option<u8>
        ensures found { LaidOut self.now → result ≡ cell_number (units_of self.now) (place_among (standing (units_of self.now)) text.now) }
        ensures book { Book (standing (units_of self.now)) }
    {
        let place = read_place(text)?;
        place_variable(&self.names, text, place)
    }

    // The object of a name of a standing unit.
    pub fn object(&self, text: &[u8]) -> Option<u8>
        ensures found { LaidOut self.now → result ≡ object_number (units_of self.now) (name_in (standing (units_of self.now)) text.now) }
        ensures book { Book (standing (units_of self.now)) }
    {
        let name = read_name(text)?;
        cell_variable(&self.names, bytes_of(text, name), 0)
    }

    // The variable of the pointer of a unit's indirect call, from 0.
    pub fn pointer(&self, unit: u32, index: u32) -> Result<u8, UnitRefusal>
        ensures found { LaidOut self.now → result ≡ pointer_reply (units_of self.now) unit index }
        ensures book { Book (standing (units_of self.now)) }
    {
        let text = self.text(unit as usize)?;
        pointer_variable(&self.names, text, index as usize).ok_or(UnitRefusal::NoSuchCall)
    }

    // The line of an offset in the text of a standing unit.
    pub fn line(&self, unit: usize, offset: usize) -> usize
        ensures { (t : List ℕ) → slice_index_or (units_of self.now) unit None ≡ Some t → result ≡ line_of t offset }
    {
        self.text(unit).map_or(0, |text| line_of(text, offset))
    }

    // The name that a block belongs to, read where it is declared.
    pub fn name_at(&self, owner: Owner) -> &[u8]
        ensures { result.now ≡ owned_name (units_of self.now) owner }
    {
        match self.text(owner.unit) {
            Ok(text) => bytes_of(text, owner.span),
            Err(_) => &[],
        }
    }
}
