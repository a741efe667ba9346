// One of two engines.
ghost use Rattle.std.specs.Prelude.{◌≡◌};
ghost use Rattle.engine.specs.Meanings.{Meaning, Roomy};
ghost use Rattle.piles.specs.Choices.{chosen, fact_of};

use engine::{Engine, EngineFault};

#[derive(Drop)]
pub enum Choice<A, B> {
    First(A),
    Second(B),
}

// Stays: an arm for each engine in each call, since the two have unlike types and no closure takes both.
impl<A: Engine, B: Engine> Engine for Choice<A, B> {
    ghost meaning = { chosen A.Engine.meaning B.Engine.meaning };

    ghost roomy = { fact_of (λ (m : Meaning). Roomy m.rule) A.Engine.roomy B.Engine.roomy };

    fn clear(&mut self) {
        match self {
            Choice::First(a) => a.clear(),
            Choice::Second(b) => b.clear(),
        }
    }

    fn block(&mut self, n: u8) -> Result<u16, EngineFault> {
        match self {
            Choice::First(a) => a.block(n),
            Choice::Second(b) => b.block(n),
        }
    }

    fn add(&mut self, word: u32) -> Result<(), EngineFault> {
        match self {
            Choice::First(a) => a.add(word),
            Choice::Second(b) => b.add(word),
        }
    }

    fn settle(&mut self) -> Result<(), EngineFault> {
        match self {
            Choice::First(a) => a.settle(),
            Choice::Second(b) => b.settle(),
        }
    }

    fn holds(&mut self, v: u16, o: u16) -> Result<bool, EngineFault> {
        match self {
            Choice::First(a) => a.holds(v, o),
            Choice::Second(b) => b.holds(v, o),
        }
    }

    fn next(&mut self, v: u16, from: u16) -> Result<Option<u16>, EngineFault> {
        match self {
            Choice::First(a) => a.next(v, from),
            Choice::Second(b) => b.next(v, from),
        }
    }

    fn size(&mut self, v: u16) -> Result<u16, EngineFault> {
        match self {
            Choice::First(a) => a.size(v),
            Choice::Second(b) => b.size(v),
        }
    }

    fn room(&self) -> u32 {
        match self {
            Choice::First(a) => a.room(),
            Choice::Second(b) => b.room(),
        }
    }
}
