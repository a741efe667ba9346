// Why a call on the standing units is refused.
ghost use Rattle.std.specs.Prelude.{◌≡◌};
ghost use Rattle.standing.specs.Refusals.{number_of};
ghost use Rattle.standing.specs.declared.refusal.UnitRefusal.TheVariants.{Text, TooManyVariables};

use grammar::unit::UnitFault;
use lexemes::location::Location;
use names::TableFull;

#[derive(Clone, Copy, Drop)]
pub enum UnitRefusal {
    NoSuchUnit,
    UnitStands,
    // the text alone: too long, grammar, declaration
    Text(UnitFault),
    Clash(Location),
    TooManyVariables,
    TooManyWords,
    TooManyCalls,
    NothingStands,
    NoSuchCall,
}

// Stays: clauses name the refusal that a `?` makes, so its `From` is written by hand, here and below.
impl From<UnitFault> for UnitRefusal {
    ghost from_gives = { λ f r. r ≡ Text f };

    fn from(fault: UnitFault) -> UnitRefusal {
        UnitRefusal::Text(fault)
    }
}

impl From<TableFull> for UnitRefusal {
    ghost from_gives = { λ f r. r ≡ TooManyVariables };

    fn from(_full: TableFull) -> UnitRefusal {
        UnitRefusal::TooManyVariables
    }
}

impl UnitRefusal {
    // The number by which hosts know this refusal.
    // Stays: the numbers are the hosts'.
    pub fn number(&self) -> u32
        ensures { result ≡ number_of self.now }
    {
        match *self {
            UnitRefusal::NoSuchUnit => 9,
            UnitRefusal::UnitStands => 10,
            UnitRefusal::Text(fault) => u32::from(fault.number()),
            UnitRefusal::Clash(_) => 14,
            UnitRefusal::TooManyVariables => 15,
            UnitRefusal::TooManyWords => 16,
            UnitRefusal::TooManyCalls => 17,
            UnitRefusal::NothingStands => 18,
            UnitRefusal::NoSuchCall => 24,
        }
    }
}
