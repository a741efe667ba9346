// The first variables of blocks, by the table of names.
ghost use Rattle.names.specs.Held.{notes};
ghost use Rattle.standing.specs.Firsts.{first_at};

use names::NameTable;
use units::names::FirstVariables;

#[derive(Drop)]
pub struct Firsts<'a> {
    pub names: &'a NameTable,
}

impl<'a> FirstVariables for Firsts<'a> {
    ghost first = { λ f n. first_at (notes f.names.now n) };

    // 0 where no block is laid out.
    fn first_of(&self, name: &[u8]) -> u8 {
        let first = self.names.find(name).and_then(|note| note.first);
        u8::try_from(first.unwrap_or(0)).unwrap_or(0)
    }
}
