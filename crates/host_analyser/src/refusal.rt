// Why a call is refused.
ghost use Rattle.std.specs.Prelude.{◌≡◌};
ghost use Rattle.host_analyser.specs.Refusals.{number_of};
ghost use Rattle.host_analyser.specs.declared.refusal.Refusal.TheVariants.{Unit, NoRoom};

use engine::EngineFault;
use standing::refusal::UnitRefusal;

// The engine's fault whole, with the statement whose word it names.
#[derive(Clone, Copy, Drop)]
pub struct RoomFault {
    pub unit: usize,
    pub line: usize,
    pub fault: EngineFault,
}

#[derive(Clone, Copy, Drop)]
pub enum Refusal {
    // of the standing units: 9 to 18 and 24
    Unit(UnitRefusal),
    SettledAlready,
    NoRoom(RoomFault),
    NotSettled,
    NoPlace,
    Unknown,
    BufferTooShort,
}

// Stays: clauses name the refusal that a `?` makes, so its `From` is written by hand, here and below.
impl From<UnitRefusal> for Refusal {
    ghost from_gives = { λ f r. r ≡ Unit f };

    fn from(refusal: UnitRefusal) -> Refusal {
        Refusal::Unit(refusal)
    }
}

impl From<RoomFault> for Refusal {
    ghost from_gives = { λ f r. r ≡ NoRoom f };

    fn from(fault: RoomFault) -> Refusal {
        Refusal::NoRoom(fault)
    }
}

impl Refusal {
    // The number by which hosts know this refusal.
    // Stays: the numbers are the hosts'.
    pub fn number(&self) -> u32
        ensures { result ≡ number_of self.now }
    {
        match self {
            Refusal::Unit(refusal) => refusal.number(),
            Refusal::SettledAlready => 19,
            Refusal::NoRoom(_) => 20,
            Refusal::NotSettled => 21,
            Refusal::NoPlace => 22,
            Refusal::Unknown => 23,
            Refusal::BufferTooShort => 25,
        }
    }
}
