// The standing units, and the table of their names.
ghost use Rattle.standing.specs.Knowledge.{Sound};

use declarations::check::DeclarationMemory;
use grammar::unit_text::UnitText;
use names::NameTable;

// For unit numbers 0 to 7 the standing text or none. All memory is taken at making: no call allocates.
#[derive(Drop)]
pub struct StandingUnits {
    texts: [Option<UnitText>; 8],
    names: NameTable,
    // how many words and indirect calls the standing texts have
    words: usize,
    calls: usize,
    memory: DeclarationMemory,
    ghost sound: { ∥ Sound texts names words calls ∥₁ },
}

mod layout;
mod loads;
mod question_calls;
