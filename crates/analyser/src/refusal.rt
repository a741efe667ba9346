// Why a call is refused.
ghost use Rattle.std.specs.Prelude.{◌≡◌};
ghost use Rattle.analyser.specs.Refusals.{number_of};
ghost use Rattle.analyser.specs.declared.refusal.Refusal.TheVariants.{Text};

use grammar::unit::UnitFault;

#[derive(Clone, Copy, Drop)]
pub enum Refusal {
    NoSuchUnit,
    UnitStands,
    // the text alone: too long, grammar, declaration
    Text(UnitFault),
    NothingStands,
}

// Stays: clauses name the refusal that a `?` makes, so its `From` is written by hand.
impl From<UnitFault> for Refusal {
    ghost from_gives = { λ f r. r ≡ Text f };

    fn from(fault: UnitFault) -> Refusal {
        Refusal::Text(fault)
    }
}

impl Refusal {
    // The number by which hosts know this refusal.
    // Stays: the numbers are the hosts'.
    pub fn number(&self) -> u32
        ensures { result ≡ number_of self.now }
    {
        match *self {
            Refusal::NoSuchUnit => 9,
            Refusal::UnitStands => 10,
            Refusal::Text(fault) => u32::from(fault.number()),
            Refusal::NothingStands => 18,
        }
    }
}
