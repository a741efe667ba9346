// The declarations of a text, one after another.
use declarations::cursor::{Declaration, next_declaration};

// The declarations from an offset on, up to the text's end or to a fault.
// Stays: beside the items of a text, since what an item declares is told by a private function of the declarations.
#[derive(Clone, Copy, Drop)]
pub struct Declarations<'a> {
    text: &'a [u8],
    at: usize,
}

impl<'a> Declarations<'a> {
    ghost use Rattle.std.specs.Prelude.{◌≡◌};
    ghost use Rattle.standing.specs.Cursors.{text_read, offset_of};

    pub(crate) fn new(text: &'a [u8]) -> Self
        ensures text { text_read result ≡ text.now }
        ensures start { offset_of result ≡ 0 }
    {
        Declarations { text, at: 0 }
    }
}

impl<'a> Iterator for Declarations<'a> {
    ghost use Rattle.std.specs.Iterator.{at_most};
    ghost use Rattle.standing.specs.Cursors.{GivesDeclaration, bytes_left};

    type Item = Declaration;

    ghost next_gives = { GivesDeclaration };

    ghost remaining = { λ s. at_most (bytes_left s) };

    fn next(&mut self) -> Option<Declaration> {
        let found = next_declaration(self.text, self.at)?;
        self.at = found.end;
        Some(found)
    }
}
