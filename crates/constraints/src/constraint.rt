// Inclusion constraints and the 32-bit words that they are written as.
ghost use Rattle.std.specs.Prelude.{◌≡◌, ℕ, ◌<◌, Some};
ghost use Rattle.constraints.specs.Constraint.{kind, decode};
ghost use Rattle.constraints.specs.Encoding.{kind_number, written, encode, PlainWord};

// In a word a variable has 12 bits and an offset 3.
#[derive(Clone, Copy, PartialEq, Eq, Debug)]
pub enum Constraint {
    // row `left` holds `object`
    Address { left: u16, object: u16 },
    // row `left` includes row `right`
    Copy { left: u16, right: u16 },
    // row `left` includes row o + offset for each object o in row `right` whose block is longer than the offset
    Load { left: u16, right: u16, offset: u16 },
    // row o + offset includes row `right` for each object o in row `left` whose block is longer than the offset
    Store { left: u16, offset: u16, right: u16 },
}

// The kind of a constraint, as bits 31 and 30 of its word say it.
#[derive(Clone, Copy, PartialEq, Eq, Debug)]
enum Kind {
    Address,
    Copy,
    Load,
    Store,
}

impl Kind {
    fn of(word: u32) -> Kind
        ensures { kind_number result ≡ kind word }
    {
        match word >> 30 {
            0 => Kind::Address,
            1 => Kind::Copy,
            2 => Kind::Load,
            _ => Kind::Store,
        }
    }

    // A word by its fields, where each fits its bits.
    fn word_of(self, left: u16, offset: u16, right: u16) -> Option<u32>
        ensures { result ≡ written (kind_number self) left offset right }
    {
        if left < 4096 && right < 4096 && offset < 8 {
            Some(
                self as u32 * 0x4000_0000
                    + u32::from(offset) * 0x800_0000
                    + u32::from(left) * 4096
                    + u32::from(right),
            )
        } else {
            None
        }
    }
}

impl Constraint {
    // The constraint that a word stands for. Any word stands for one; bits that its kind does not use are passed over.
    pub fn decode(word: u32) -> Constraint
        ensures value { result ≡ decode word }
        ensures back { PlainWord word → encode result ≡ Some word }
    {
        let left = ((word >> 12) % 4096) as u16;
        let right = (word % 4096) as u16;
        let offset = ((word >> 27) % 8) as u16;
        match Kind::of(word) {
            Kind::Address => Constraint::Address {
                left,
                object: right,
            },
            Kind::Copy => Constraint::Copy { left, right },
            Kind::Load => Constraint::Load {
                left,
                right,
                offset,
            },
            Kind::Store => Constraint::Store {
                left,
                offset,
                right,
            },
        }
    }

    // The word that stands for the constraint, or none where a variable or the offset has too many bits.
    pub fn encode(self) -> Option<u32>
        ensures value { result ≡ encode self }
        ensures back { (w : ℕ) → result ≡ Some w → decode w ≡ self }
    {
        match self {
            Constraint::Address { left, object } => Kind::Address.word_of(left, 0, object),
            Constraint::Copy { left, right } => Kind::Copy.word_of(left, 0, right),
            Constraint::Load {
                left,
                right,
                offset,
            } => Kind::Load.word_of(left, offset, right),
            Constraint::Store {
                left,
                offset,
                right,
            } => Kind::Store.word_of(left, offset, right),
        }
    }
}
