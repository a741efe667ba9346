// The graph of copies: an edge from the right variable to the left one.
ghost use Rattle.std.specs.Prelude.{◌≡◌, ℕ, ◌<◌, Bool, ◌||◌};
ghost use Rattle.constraints.specs.Merge.{copies, copy_edge};
ghost use Rattle.constraints.specs.Lists.{system_of};
ghost use Rattle.graphs.specs.Matrix.{bit};
ghost use Rattle.graphs.specs.Paths.{Closure};
ghost use Rattle.flows.specs.Columns.{ReachBits};
ghost use Rattle.flows.specs.Inside.{copy_inside};
ghost use Rattle.flows.specs.Names.{NamesBelow};

use constraints::{Constraint, ConstraintList};
use graphs::bits::Square;
use graphs::reach::{Graph, reachable};

#[derive(Drop)]
struct Copies<'a> {
    list: &'a ConstraintList,
}

// Draws the edge of a constraint, if it is a copy.
fn draw_edge(constraint: Constraint, m: &mut Square)
    requires { NamesBelow 256 constraint }
    ensures { (u v : ℕ) → u < 256 → v < 256 → bit m.new.words u v ≡ (bit m.old.words u v || copies u v constraint) }
{
    if let Constraint::Copy { left, right } = constraint {
        m.put(usize::from(right), usize::from(left));
    }
}

impl<'a> Graph for Copies<'a> {
    ghost edge = { λ g. copy_edge (system_of g.list.now) };

    ghost inside = { λ g. copy_inside g.list.now };

    fn draw(&self, m: &mut Square) {
        let words = self.list.words();
        for word in words {
            draw_edge(Constraint::decode(*word), m);
        }
    }
}

// Afterwards bit v of row u says whether u reaches v along the list's copies.
pub fn copy_reach(list: &ConstraintList, m: &mut Square)
    ensures closure { Closure (copy_edge (system_of list.now)) m.new.words }
    ensures reach { ReachBits (system_of list.now) m.new.words }
{
    reachable(&Copies { list }, m);
}
