// Which positions of a list wait.
ghost use Rattle.std.specs.Prelude.{◌≡◌, ℕ, ◌<◌, true, false, not, ◌&&◌, ◌||◌, MatchOption, ◌==◌};
ghost use Rattle.worklist.specs.Waits.{waits};

#[derive(Debug, Drop)]
pub struct Waiting {
    flags: [bool; 512],
}

impl Waiting {
    pub fn new() -> Waiting
        ensures { (k : ℕ) → waits result k ≡ false }
    {
        Waiting {
            flags: [false; 512],
        }
    }

    pub fn insert(&mut self, j: usize)
        requires { j < 512 }
        ensures { (k : ℕ) → waits self.new k ≡ (k == j || waits self.old k) }
    {
        self.flags[j] = true;
    }

    // The first position that waits.
    pub fn first(&self) -> Option<usize>
        ensures { MatchOption result ((k : ℕ) → waits self.now k ≡ false) (λ j. (j < 512) × (waits self.now j ≡ true)) }
    {
        self.flags.iter().position(|waits| *waits)
    }

    pub fn remove(&mut self, j: usize)
        requires { j < 512 }
        ensures { (k : ℕ) → waits self.new k ≡ (not (k == j) && waits self.old k) }
    {
        self.flags[j] = false;
    }

    pub fn clear(&mut self)
        ensures { (k : ℕ) → waits self.new k ≡ false }
    {
        *self = Waiting::new();
    }
}
