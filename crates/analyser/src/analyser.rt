// The analyser's state and calls.
ghost use Rattle.std.specs.Prelude.{◌≡◌};
ghost use Rattle.analyser.specs.Refusals.{refused_or};
ghost use Rattle.analyser.specs.Books.{new_book, load_refusal, unload_refusal, load_book, unload_book};
ghost use Rattle.analyser.specs.States.{book_of};

use crate::Refusal;
use crate::place::Place;
use declarations::check::{DeclarationMemory, check_unit};

const UNITS: usize = 8;

// For unit numbers 0 to 7 the standing text or none. All memory is taken at making: no call allocates.
#[derive(Drop)]
pub struct Analyser {
    places: [Place; UNITS],
    // Stays: a flag beside the texts, since they stand whether settled or not.
    settled: bool,
    memory: DeclarationMemory,
}

impl Analyser {
    pub fn new() -> Self
        ensures { book_of result ≡ new_book }
    {
        Analyser {
            places: [Place::free(); UNITS],
            settled: false,
            memory: DeclarationMemory::new(),
        }
    }

    // Enters a text under a unit number that is free.
    #[tactic(auto, unfolding(crate::specs::Books::load_refusal))]
    pub fn load(&mut self, unit: u32, text: &[u8]) -> Result<(), Refusal>
        ensures replies { result ≡ refused_or (load_refusal (book_of self.old) unit text.now) tt }
        ensures after { book_of self.new ≡ load_book (book_of self.old) unit text.now }
    {
        let unit = unit as usize;
        let place = self.places.get(unit).ok_or(Refusal::NoSuchUnit)?;
        if place.is_standing() {
            return Err(Refusal::UnitStands);
        }
        check_unit(text, &mut self.memory)?;
        self.places[unit].put(text);
        self.settled = false;
        Ok(())
    }

    // Strikes out the text under a unit number.
    #[tactic(auto, unfolding(crate::specs::Books::unload_refusal))]
    pub fn unload(&mut self, unit: u32) -> Result<(), Refusal>
        ensures replies { result ≡ refused_or (unload_refusal (book_of self.old) unit) tt }
        ensures after { book_of self.new ≡ unload_book (book_of self.old) unit }
    {
        let unit = unit as usize;
        let place = self.places.get(unit).ok_or(Refusal::NoSuchUnit)?;
        if !place.is_standing() {
            return Err(Refusal::NothingStands);
        }
        self.places[unit].strike();
        self.settled = false;
        Ok(())
    }
}
