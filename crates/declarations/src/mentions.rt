// The mentions of a text that a check has noted, in order.
ghost use Rattle.std.specs.Prelude.{◌≡◌, ◌+◌, ◌<◌, ◌≤◌, [], ◌∷◌, ◌++◌, length};

use crate::mention::Mention;
use grammar::item::Linkage;
use lexemes::lexeme::Span;

// The mentions of a text: one of 4,096 bytes has no more, and an item up to 8.
// Stays: an array with its count, since the memory of a check is Copy and a vector of fixed capacity is not.
#[derive(Clone, Copy)]
pub(crate) struct Mentions {
    items: [Mention; 4104],
    count: usize,
    ghost few: { count ≤ 4104 },
}

impl Mentions {
    ghost use Rattle.declarations.specs.Listed.{listed};

    pub(crate) fn new() -> Self
        ensures { listed result ≡ [] }
    {
        // All zero, since `Declares` and `Defined` come first in their enums: such an array is cleared in place, and any other
        // is filled apart and copied, with what holds it, on the stack.
        let unused = Mention::Declares(Linkage::Defined, Span { from: 0, to: 0 }, 0);
        Mentions {
            items: [unused; 4104],
            count: 0,
        }
    }

    pub(crate) fn as_slice(&self) -> &[Mention]
        ensures { result.now ≡ listed self.now }
    {
        &self.items[..self.count]
    }

    pub(crate) fn clear(&mut self)
        ensures { listed self.new ≡ [] }
    {
        self.count = 0;
    }

    // One mention more.
    pub(crate) fn push(&mut self, mention: Mention)
        requires { length (listed self.old) < 4104 }
        ensures items { listed self.new ≡ listed self.old ++ mention ∷ [] }
        ensures len { length (listed self.new) ≡ length (listed self.old) + 1 }
    {
        self.items[self.count] = mention;
        self.count += 1;
    }
}
