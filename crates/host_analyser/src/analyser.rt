// The analyser's state, and the calls that change it.
ghost use Rattle.std.specs.Prelude.{◌≡◌, true};
ghost use Rattle.host_analyser.specs.InStep.{SettledRight};

use crate::asking::{has_object, share_object};
use crate::listing::list_targets;
use crate::refusal::Refusal;
use crate::settling::settle_list;
use engine::Engine;
use standing::list::UnitList;
use standing::standing_units::StandingUnits;

// The standing units, their list as it was last laid out, and the engine that it is handed to. All memory is taken at
// making: no call allocates.
#[derive(Drop)]
pub struct Analyser<E: Engine> {
    units: StandingUnits,
    list: UnitList,
    engine: E,
    // Stays: a flag, since the list's and the engine's memory is kept while the texts are not settled.
    settled: bool,
    ghost in_step: { settled ≡ true → ∥ SettledRight (E.meaning engine) units list ∥₁ },
}

impl<E: Engine> Analyser<E> {
    ghost use Rattle.standing.specs.Loads.{load_refusal, unload_refusal};
    ghost use Rattle.host_analyser.specs.Books.{new_book, load_book, unload_book, settle_book};
    ghost use Rattle.host_analyser.specs.Replies.{result_of, SettleResult, points_reply, alias_reply, targets_reply, targets_buffer};
    ghost use Rattle.host_analyser.specs.States.{book_of};

    // Over an engine in any state.
    pub fn new(engine: E) -> Self
        ensures made { book_of result ≡ new_book }
        ensures rule { (E.meaning result.engine).rule ≡ (E.meaning engine).rule }
    {
        Analyser {
            units: StandingUnits::new(),
            list: UnitList::new(),
            engine,
            settled: false,
        }
    }

    // Enters a text under a unit number that is free.
    pub fn load(&mut self, unit: u32, text: &[u8]) -> Result<(), Refusal>
        ensures replies { result ≡ result_of (load_refusal (book_of self.old).units unit text.now) }
        ensures after { book_of self.new ≡ load_book (book_of self.old) unit text.now }
        ensures rule { (E.meaning self.new.engine).rule ≡ (E.meaning self.old.engine).rule }
    {
        self.units.load(unit, text)?;
        self.settled = false; // the rows are those of fewer texts
        Ok(())
    }

    // Strikes out the text under a unit number.
    pub fn unload(&mut self, unit: u32) -> Result<(), Refusal>
        ensures replies { result ≡ result_of (unload_refusal (book_of self.old).units unit) }
        ensures after { book_of self.new ≡ unload_book (book_of self.old) unit }
        ensures rule { (E.meaning self.new.engine).rule ≡ (E.meaning self.old.engine).rule }
    {
        self.units.unload(unit)?;
        self.settled = false; // the rows are those of more texts
        Ok(())
    }

    // Hands the list of the standing units to the engine.
    pub fn settle(&mut self) -> Result<(), Refusal>
        ensures replies { SettleResult (E.meaning self.old.engine).rule (book_of self.old) result }
        ensures after { book_of self.new ≡ settle_book (E.meaning self.old.engine).rule (book_of self.old) }
        ensures rule { (E.meaning self.new.engine).rule ≡ (E.meaning self.old.engine).rule }
    {
        if self.settled {
            return Err(Refusal::SettledAlready);
        }
        self.units.lay_out(&mut self.list);
        settle_list(&mut self.engine, &self.units, &self.list)?;
        self.settled = true;
        Ok(())
    }

    // Whether a place's row has a name's object.
    pub fn points(&mut self, place: &[u8], name: &[u8]) -> Result<bool, Refusal>
        ensures replies { result ≡ points_reply (book_of self.old) place.now name.now }
        ensures book { book_of self.new ≡ book_of self.old }
        ensures rule { (E.meaning self.new.engine).rule ≡ (E.meaning self.old.engine).rule }
    {
        if !self.settled {
            return Err(Refusal::NotSettled);
        }
        let v = self.units.place(place).ok_or(Refusal::NoPlace)?;
        let o = self.units.object(name).ok_or(Refusal::Unknown)?;
        Ok(has_object(&mut self.engine, v, o))
    }

    // Whether the rows of two places share an object.
    pub fn alias(&mut self, first: &[u8], second: &[u8]) -> Result<bool, Refusal>
        ensures replies { result ≡ alias_reply (book_of self.old) first.now second.now }
        ensures book { book_of self.new ≡ book_of self.old }
        ensures rule { (E.meaning self.new.engine).rule ≡ (E.meaning self.old.engine).rule }
    {
        if !self.settled {
            return Err(Refusal::NotSettled);
        }
        let v = self.units.place(first).ok_or(Refusal::NoPlace)?;
        let w = self.units.place(second).ok_or(Refusal::Unknown)?;
        Ok(share_object(&mut self.engine, v, w))
    }

    // Writes the functions in the row of the pointer of the unit's indirect call `index`, from 0, by rising object, each
    // name followed by byte 10; answers how many bytes that is. The rest of the buffer stays.
    pub fn targets(&mut self, unit: u32, index: u32, buffer: &mut [u8]) -> Result<usize, Refusal>
        ensures replies { result ≡ targets_reply (book_of self.old) unit index buffer.old }
        ensures writes { buffer.new ≡ targets_buffer (book_of self.old) unit index buffer.old }
        ensures book { book_of self.new ≡ book_of self.old }
        ensures rule { (E.meaning self.new.engine).rule ≡ (E.meaning self.old.engine).rule }
    {
        if !self.settled {
            return Err(Refusal::NotSettled);
        }
        let v = self.units.pointer(unit, index)?;
        let length = list_targets(&mut self.engine, &self.units, &self.list, v, &mut []);
        if length > buffer.len() {
            return Err(Refusal::BufferTooShort);
        }
        Ok(list_targets(&mut self.engine, &self.units, &self.list, v, buffer))
    }
}
