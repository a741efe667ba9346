// Pairs that are held and not yet handed on, in the order in which they came.
mod calls;

ghost use Rattle.std.specs.Prelude.{◌≤◌};

// A variable, and an object of its row.
#[derive(Clone, Copy, PartialEq, Eq, Debug, Default)]
pub struct Pair {
    pub variable: u8,
    pub object: u8,
}

#[derive(Debug, Drop)]
pub struct Pending {
    // the first `tail` of them came since the queue was made or cleared
    // Stays: an array, since a vector of fixed capacity writes blanks as it lets pairs go.
    pairs: [Pair; 65536],
    // the pairs from `head` up to `tail` wait
    head: usize,
    tail: usize,
    ghost ordered: { head ≤ tail },
    ghost inside: { tail ≤ 65536 },
}
