// Classes of equal marks.
ghost use Rattle.std.specs.Prelude.{◌≡◌, ℕ, ◌<◌};
ghost use Rattle.constraints.specs.Constraint.{System, Valid, variables, var_count};
ghost use Rattle.layers.specs.Classes.{Numbers};
ghost use Rattle.constraints.specs.Merge.{same_mark};
ghost use Rattle.constraints.proofs.Merge.{same_mark_refl, same_mark_rows};
ghost use Rattle.constraints.proofs.Valid.{keeps_rows};
ghost use Rattle.constraints.specs.Lists.{system_of};
ghost use Rattle.hu.specs.Marks.{MarkBits};

use crate::mark::Sources;
use constraints::ConstraintList;
use flows::Stand;
use graphs::bank::number_rows;
use graphs::bits::BitMatrix;
use layers::Merge;

// Gives each variable the lowest one with an equal mark.
// Stays: beside `classify`, since the items of an array parameter are known to fit and those of a field are not.
fn number_marks(marks: &[u32; 20480], class: &mut [u16; 256])
    ensures { (sys : System) → Valid sys → MarkBits sys marks.now → Numbers sys (same_mark sys) class.new }
{
    number_rows(marks, 80, class);
}

#[derive(Drop)]
pub struct Hu {
    sources: Sources,
    marks: Stand,
}

impl Hu {
    pub fn new() -> Hu {
        Hu {
            sources: Sources {
                reach: BitMatrix::new(),
                stand: BitMatrix::new(),
                count: 0,
            },
            marks: BitMatrix::new(),
        }
    }

    // Writes the marks of a list's variables.
    fn find_marks(&mut self, list: &ConstraintList)
        ensures { MarkBits (system_of list.now) self.new.marks.words }
    {
        self.sources.find(list);
        self.sources.mark_rows(&mut self.marks);
    }
}

impl Merge for Hu {
    ghost same = { same_mark };

    ghost right = { λ sys valid. keeps_rows sys (same_mark sys) valid (same_mark_refl sys) (same_mark_rows sys valid) };

    fn classify(&mut self, list: &ConstraintList, class: &mut [u16; 256]) {
        self.find_marks(list);
        number_marks(&self.marks.words, class);
    }
}
