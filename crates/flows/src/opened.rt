// Open variables: those of the blocks whose address some word takes.
ghost use Rattle.std.specs.Prelude.{◌≡◌, ℕ, Bool, false, ◌||◌, slice_index_or};
ghost use Rattle.constraints.specs.Constraint.{variables};
ghost use Rattle.constraints.specs.Merge.{is_open};
ghost use Rattle.constraints.specs.Lists.{system_of};
ghost use Rattle.flows.specs.Names.{NamesBelow};
ghost use Rattle.flows.specs.Opens.{opens};

use constraints::{Constraint, ConstraintList};

// Opens the block whose address the constraint takes.
fn open_taken(list: &ConstraintList, constraint: Constraint, flags: &mut [bool; 256])
    requires { NamesBelow (variables (system_of list.now).blocks) constraint }
    ensures { (v : ℕ) → slice_index_or flags.new v false ≡ (slice_index_or flags.old v false || opens (system_of list.now).blocks constraint v) }
{
    if let Constraint::Address { object, .. } = constraint {
        let first = usize::from(object);
        let end = first + usize::from(list.length_of(first));
        flags[first..end].fill(true);
    }
}

// Writes for each variable whether it is open.
pub fn find_open(list: &ConstraintList, flags: &mut [bool; 256])
    ensures { (v : ℕ) → slice_index_or flags.new v false ≡ is_open (system_of list.now) v }
{
    flags.fill(false);
    let words = list.words();
    for word in words {
        open_taken(list, Constraint::decode(*word), flags);
    }
}
