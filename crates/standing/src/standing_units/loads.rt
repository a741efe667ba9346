// Loading and unloading.
ghost use Rattle.std.specs.Prelude.{◌≡◌, false, replicate, is_ok, None};
ghost use Rattle.standing.specs.Loads.{load_refusal, unload_refusal, load_units, unload_units};
ghost use Rattle.standing.specs.Refusals.{done_or};
ghost use Rattle.standing.specs.States.{units_of, LaidOut};

use super::StandingUnits;
use crate::passes::{enter_names, first_clash, forget_names};
use crate::refusal::UnitRefusal;
use declarations::check::{DeclarationMemory, check_unit};
use grammar::unit_text::UnitText;
use lexemes::location::locate;
use names::NameTable;
use units::calls::count_calls;
use units::listing::count_words;

const WORD_LIMIT: usize = 512;

const CALL_LIMIT: usize = 64;

impl StandingUnits {
    pub fn new() -> StandingUnits
        ensures { units_of result ≡ replicate 8 None }
    {
        StandingUnits {
            texts: [None; 8],
            names: NameTable::new(),
            words: 0,
            calls: 0,
            memory: DeclarationMemory::new(),
        }
    }

    // Enters a text under a unit number that is free.
    pub fn load(&mut self, unit: u32, text: &[u8]) -> Result<(), UnitRefusal>
        ensures replies { result ≡ done_or (load_refusal (units_of self.old) unit text.now) }
        ensures after { units_of self.new ≡ load_units (units_of self.old) unit text.now }
        ensures laid { is_ok result ≡ false → LaidOut self.old → LaidOut self.new }
    {
        let unit = unit as usize;
        let Some(slot) = self.texts.get(unit) else {
            return Err(UnitRefusal::NoSuchUnit);
        };
        if slot.is_some() {
            return Err(UnitRefusal::UnitStands);
        }
        check_unit(text, &mut self.memory)?;
        if let Some(at) = first_clash(&self.names, text) {
            return Err(UnitRefusal::Clash(locate(text, at)));
        }
        let mut names = self.names;
        enter_names(&mut names, text)?;
        let words = count_words(text);
        if words > WORD_LIMIT - self.words {
            return Err(UnitRefusal::TooManyWords);
        }
        let calls = count_calls(text);
        if calls > CALL_LIMIT - self.calls {
            return Err(UnitRefusal::TooManyCalls);
        }
        self.texts[unit] = Some(UnitText::try_from(text)?);
        self.names = names;
        self.words += words;
        self.calls += calls;
        Ok(())
    }

    // Strikes out the text under a unit number.
    pub fn unload(&mut self, unit: u32) -> Result<(), UnitRefusal>
        ensures replies { result ≡ done_or (unload_refusal (units_of self.old) unit) }
        ensures after { units_of self.new ≡ unload_units (units_of self.old) unit }
        ensures laid { is_ok result ≡ false → LaidOut self.old → LaidOut self.new }
    {
        let unit = unit as usize;
        let Some(slot) = self.texts.get(unit) else {
            return Err(UnitRefusal::NoSuchUnit);
        };
        let Some(text) = *slot else {
            return Err(UnitRefusal::NothingStands);
        };
        let text = text.as_slice();
        let words = count_words(text);
        let calls = count_calls(text);
        forget_names(&mut self.names, text);
        self.names.sweep();
        self.texts[unit] = None;
        self.words -= words;
        self.calls -= calls;
        Ok(())
    }
}
