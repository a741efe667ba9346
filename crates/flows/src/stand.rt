// Sources as bits, at the variables where they stand.
ghost use Rattle.std.specs.Prelude.{◌≡◌, ℕ, ◌<◌, Bool, false, ◌&&◌, ◌||◌, slice_index_or};
ghost use Rattle.graphs.specs.Matrix.{bit_at};
ghost use Rattle.constraints.specs.Merge.{same_source, row, brings};
ghost use Rattle.constraints.specs.Lists.{system_of};
ghost use Rattle.flows.specs.Columns.{source_at, StandBits};
ghost use Rattle.flows.specs.Names.{NamesBelow};

use crate::opened::find_open;
use constraints::{Constraint, ConstraintList};
use graphs::bits::BitMatrix;

// 256 rows of 2,560 columns, one for each source.
pub type Stand = BitMatrix<80, 20480>;

// Puts the row of each open variable.
fn put_open(flags: &[bool; 256], stand: &mut Stand)
    ensures { (u c : ℕ) → u < 256 → c < 2560 → bit_at 80 stand.new.words u c ≡ (slice_index_or flags.now u false && same_source (row u) (source_at c)) }
{
    stand.clear();
    for (v, is_open) in flags.iter().enumerate() {
        if *is_open {
            stand.put(v, 256 + v);
        }
    }
}

// Puts the source that the constraint brings.
fn put_brought(constraint: Constraint, stand: &mut Stand)
    requires { NamesBelow 256 constraint }
    ensures { (u c : ℕ) → u < 256 → c < 2560 → bit_at 80 stand.new.words u c ≡ (bit_at 80 stand.old.words u c || brings (source_at c) u constraint) }
{
    match constraint {
        Constraint::Address { left, object } => {
            stand.put(usize::from(left), usize::from(object));
        }
        Constraint::Load {
            left,
            right,
            offset,
        } => {
            let column = 512 + 8 * usize::from(right) + usize::from(offset);
            stand.put(usize::from(left), column);
        }
        Constraint::Copy { .. } | Constraint::Store { .. } => {}
    }
}

// Puts each source at the variables where it stands.
pub fn put_sources(list: &ConstraintList, stand: &mut Stand)
    ensures { StandBits (system_of list.now) stand.new.words }
{
    let mut flags = [false; 256];
    find_open(list, &mut flags);
    put_open(&flags, stand);
    let words = list.words();
    for word in words {
        put_brought(Constraint::decode(*word), stand);
    }
}
