// The items of a unit text: names are spans of it.
ghost use Rattle.std.specs.Prelude.{◌≡◌, ◌<◌, ◌≤◌, [], ◌∷◌, ◌++◌, length, MatchOption};

use lexemes::lexeme::Span;

// Whether a declaration defines its name, or says that some unit may.
#[derive(Clone, Copy)]
pub enum Linkage {
    Defined,
    External,
}

// What follows a place's name: nothing, ".r" with the offset of its r, or "." and a number.
#[derive(Clone, Copy)]
pub enum Slot {
    Bare,
    Result(usize),
    Parameter(u8),
}

#[derive(Clone, Copy)]
pub struct Place {
    pub base: Span,
    pub slot: Slot,
}

#[derive(Clone, Copy)]
pub enum Callee {
    Direct(Span),
    Through(Place),
}

// Up to six places: the first `count`, or all where it is larger.
#[derive(Clone, Copy)]
pub struct Arguments {
    // Stays: an array with its count, since items are Copy and a vector of fixed capacity is not.
    pub places: [Place; 6],
    pub count: usize,
}

impl Arguments {
    ghost use Rattle.grammar.specs.Given.{given};

    pub fn new() -> Self
        ensures { given result ≡ [] }
    {
        let unused = Place {
            base: Span { from: 0, to: 0 },
            slot: Slot::Bare,
        };
        Arguments {
            places: [unused; 6],
            count: 0,
        }
    }

    // How many there are.
    pub fn len(&self) -> usize
        ensures all { result ≡ length (given self.now) }
        ensures few { result ≤ 6 }
    {
        self.count.min(6)
    }

    pub fn as_slice(&self) -> &[Place]
        ensures all { result.now ≡ given self.now }
        ensures few { length result.now ≤ 6 }
    {
        &self.places[..self.len()]
    }

    // One place more, up to six.
    pub fn push(self, place: Place) -> Option<Self>
        ensures { MatchOption result (6 ≤ length (given self)) (λ more. (length (given self) < 6) × (given more ≡ given self ++ place ∷ [])) }
    {
        if self.count >= 6 {
            return None;
        }
        let mut places = self.places;
        places[self.count] = place;
        Some(Arguments {
            places,
            count: self.count + 1,
        })
    }
}

#[derive(Clone, Copy)]
pub struct Call {
    pub callee: Callee,
    pub arguments: Arguments,
}

#[derive(Clone, Copy)]
pub enum Value {
    Address(Span),
    Copy(Place),
    Load(Place),
    Returned(Call),
}

#[derive(Clone, Copy)]
pub enum Item {
    Variable(Linkage, Span),
    Function(Linkage, Span, u8),
    Assign(Place, Value),
    Store(Place, Place),
    Invoke(Call),
}
