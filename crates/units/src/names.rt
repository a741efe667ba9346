// Where the blocks of names begin.
ghost use Rattle.std.specs.Prelude.{◌≡◌, ℕ, List};

// Gives each name the first variable of its block.
pub trait FirstVariables {
    ghost first: { Self → List ℕ → ℕ };

    fn first_of(&self, name: &[u8]) -> u8
        ensures { result ≡ first self.now name.now };
}
