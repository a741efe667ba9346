// What is done with pending pairs.
ghost use Rattle.std.specs.Prelude.{◌≡◌, ◌+◌, ◌<◌, ◌≤◌, MatchOption};
ghost use Rattle.difference.specs.Queue.{Pushed, EmptyQueue, Heads};

use crate::pending::{Pair, Pending};

impl Pending {
    pub fn new() -> Pending
        ensures { EmptyQueue result }
    {
        Pending {
            pairs: [Pair {
                variable: 0,
                object: 0,
            }; 65536],
            head: 0,
            tail: 0,
        }
    }

    pub fn clear(&mut self)
        ensures { EmptyQueue self.new }
    {
        self.head = 0;
        self.tail = 0;
    }

    // Puts a pair at the end. A pair comes once between two clears, so there is a place for it.
    pub fn push(&mut self, pair: Pair)
        ensures { self.old.tail < 65536 → Pushed self.old self.new pair }
    {
        if self.tail < self.pairs.len() {
            self.pairs[self.tail] = pair;
            self.tail += 1;
        }
    }

    // The pair that came first.
    pub fn first(&self) -> Option<Pair>
        ensures { MatchOption result (self.now.tail ≤ self.now.head) (λ pair. Heads self.now pair) }
    {
        self.pairs[..self.tail].get(self.head).copied()
    }

    // Lets the first pair go.
    pub fn advance(&mut self)
        requires { self.old.head < self.old.tail }
        ensures pairs { self.new.pairs ≡ self.old.pairs }
        ensures head { self.new.head ≡ self.old.head + 1 }
        ensures tail { self.new.tail ≡ self.old.tail }
    {
        self.head += 1;
    }
}
