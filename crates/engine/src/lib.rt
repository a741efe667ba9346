// Engines: a list of blocks and words is gathered, settled, and then asked.
#![tactic(auto)]

mod fault;
mod hand;

ghost use Rattle.std.specs.Prelude.{◌≡◌};
ghost use Rattle.constraints.specs.Lists.{no_words};
ghost use Rattle.engine.specs.Meanings.{Meaning, Roomy, gathering, block_answer, block_added, add_answer, word_added, Settles, holds_answer, next_answer, size_answer};

pub use fault::{EngineFault, Overflow, Stopped, gathering};
pub use hand::hand_down;

// An engine means a list, whether it is settled, and, fixed, a rule: its room, which lists fit, and what a room fault names.
pub trait Engine {
    ghost meaning: { Self → Meaning };

    // A list whose smallest solution has at most room pairs fits.
    ghost roomy: { (s : Self) → Roomy (meaning s).rule };

    // Empty and gathering again, whatever the state was.
    fn clear(&mut self)
        ensures after { meaning self.new ≡ gathering (meaning self.old) no_words };

    // Appends a block of n variables and answers its first variable.
    fn block(&mut self, n: u8) -> Result<u16, EngineFault>
        ensures replies { result ≡ block_answer (meaning self.old) n }
        ensures after { meaning self.new ≡ block_added (meaning self.old) n };

    // Appends a word.
    fn add(&mut self, word: u32) -> Result<(), EngineFault>
        ensures replies { result ≡ add_answer (meaning self.old) word }
        ensures after { meaning self.new ≡ word_added (meaning self.old) word };

    // Gathering becomes settled, or the list does not fit.
    fn settle(&mut self) -> Result<(), EngineFault>
        ensures settles { Settles (meaning self.old) (meaning self.new) result };

    // Whether row v of the smallest solution holds o.
    fn holds(&mut self, v: u16, o: u16) -> Result<bool, EngineFault>
        ensures replies { result ≡ holds_answer (meaning self.old) v o }
        ensures stays { meaning self.new ≡ meaning self.old };

    // The smallest object of row v at or above `from`.
    fn next(&mut self, v: u16, from: u16) -> Result<Option<u16>, EngineFault>
        ensures replies { result ≡ next_answer (meaning self.old) v from }
        ensures stays { meaning self.new ≡ meaning self.old };

    // How many objects row v has.
    fn size(&mut self, v: u16) -> Result<u16, EngineFault>
        ensures replies { result ≡ size_answer (meaning self.old) v }
        ensures stays { meaning self.new ≡ meaning self.old };

    // How many pairs always fit.
    fn room(&self) -> u32
        ensures { result ≡ (meaning self.now).rule.room };
}
