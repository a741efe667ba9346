// Classes of equal values.
ghost use Rattle.constraints.specs.Merge.{copy_reach};
ghost use Rattle.constraints.specs.Value.{value, value_class};
ghost use Rattle.constraints.proofs.Valid.{keeps_rows};
ghost use Rattle.constraints.proofs.Value.{same_value_refl, equal_value_rows};

use crate::flow::Flow;
use crate::sets::Sets;
use constraints::ConstraintList;
use graphs::bits::BitMatrix;
use layers::Merge;

#[derive(Drop)]
pub struct Hvn {
    flow: Flow,
    sets: Sets,
}

impl Hvn {
    pub fn new() -> Hvn {
        Hvn {
            flow: Flow {
                flags: [false; 256],
                reach: BitMatrix::new(),
                order: [0; 256],
                count: 0,
            },
            sets: Sets {
                rows: BitMatrix::new(),
                first: [0; 256],
            },
        }
    }
}

impl Merge for Hvn {
    ghost same = { value_class };

    ghost right = { λ sys valid. keeps_rows sys (value_class sys) valid (λ v. same_value_refl (value sys (copy_reach sys) v)) (equal_value_rows sys valid) };

    fn classify(&mut self, list: &ConstraintList, class: &mut [u16; 256]) {
        self.flow.find(list);
        self.sets.number_values(list, &self.flow, class);
    }
}
