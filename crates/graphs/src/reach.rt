// Reachability in graphs of up to 256 nodes, held as a bit matrix.
ghost use Rattle.std.specs.Prelude.{◌≡◌, ℕ, ◌<◌, ◌≤◌, Bool, true, length, slice_index, unwrap_or};
ghost use Rattle.graphs.specs.Paths.{Reaches, drawn, Draws, Closure, Diagonal, Spread, Through};
ghost use Rattle.graphs.specs.Components.{Components};
ghost use Rattle.graphs.specs.Order.{above, Arranged, FirstBelow, Inserted};
ghost use Rattle.graphs.specs.Matrix.{Blank};

use crate::bank::number_rows;
use crate::bits::Square;

fn reflect(m: &mut Square)
    ensures { Diagonal m.old.words m.new.words }
{
    for u in 0..256 {
        m.put(u, u);
    }
}

// Joins a row to each row that has bit k.
// Stays: `k < 256` and no `u8`, since rows are indexed by `usize` and counts of nodes go to 256.
fn spread(m: &mut Square, row: &[u32; 8], k: usize)
    requires { k < 256 }
    ensures { Spread k row.now m.old.words m.new.words }
{
    for u in 0..256 {
        if m.has(u, k) {
            m.join(u, row);
        }
    }
}

// Joins row k to each row that has bit k.
fn through(m: &mut Square, k: usize)
    requires { k < 256 }
    ensures { Through k m.old.words m.new.words }
{
    let mut row = [0; 8];
    row.copy_from_slice(m.row(k));
    spread(m, &row, k);
}

// Warshall's closure: afterwards bit v of row u says whether u reached v along the edges that stood before.
fn close(m: &mut Square)
    ensures { Closure (drawn m.old.words) m.new.words }
{
    for k in 0..256 {
        through(m, k);
    }
    reflect(m);
}

// A graph on the nodes 0 to 255, by what its edges are.
pub trait Graph {
    ghost edge: { Self → ℕ → ℕ → Bool };

    ghost inside: { (g : Self) (u v : ℕ) → edge g u v ≡ true → v < 256 };

    // Sets the bit of each edge.
    fn draw(&self, m: &mut Square)
        requires { Blank 2048 m.old.words }
        ensures { Draws (edge self.now) m.new.words };
}

// Afterwards bit v of row u says whether u reaches v in the graph.
pub fn reachable<G: Graph>(g: &G, m: &mut Square)
    ensures { Closure (G.edge g.now) m.new.words }
{
    m.clear();
    g.draw(m);
    close(m);
}

// Gives each node the lowest node of its component, by the square's words.
// Stays: beside `components`, since the items of an array parameter are known to fit and those of a field are not.
fn number_nodes(words: &[u32; 2048], lowest: &mut [u16; 256])
    ensures { (edge : ℕ → ℕ → Bool) → Closure edge words.now → Components edge lowest.new }
{
    number_rows(words, 8, lowest);
}

// Gives each node the lowest node of its component. The matrix says which node reaches which: nodes of a component have equal rows.
pub fn components(m: &Square, lowest: &mut [u16; 256])
    ensures { (edge : ℕ → ℕ → Bool) → Closure edge m.now.words → Components edge lowest.new }
{
    number_nodes(&m.words, lowest);
}

fn is_above(m: &Square, u: usize, v: usize) -> bool
    requires { (u < 256) × (v < 256) }
    ensures { result ≡ above m.now.words u v }
{
    m.has(u, v) && !m.has(v, u)
}

// The first of the n places whose node is reached from u in another component.
fn place(m: &Square, order: &[u16; 256], u: usize, n: usize) -> Option<usize>
    requires within { (u < 256) × (n ≤ 256) }
    requires nodes { (k : ℕ) → k < n → slice_index order.now k < 256 }
    ensures { FirstBelow m.now.words order.now u n (unwrap_or result n) }
{
    (0..n).find(|p| is_above(m, u, usize::from(order[*p])))
}

// Puts x at place p, and moves the places from p up to n.
fn insert_at(xs: &mut [u16; 256], n: usize, p: usize, x: u16)
    requires { (p ≤ n) × (n < 256) }
    ensures { Inserted xs.old xs.new n p x }
{
    xs.copy_within(p..n, p + 1);
    xs[p] = x;
}

// Writes the first n nodes in an order in which each comes after the nodes of other components that reach it.
// Stays: an array and a number, since the caller holds the number for its flags too, and a vector would hold it again.
pub fn arrange(m: &Square, order: &mut [u16; 256], n: usize)
    requires { n ≤ 256 }
    ensures { (edge : ℕ → ℕ → Bool) → Closure edge m.now.words → Arranged edge order.new n }
{
    for u in 0..n {
        let p = place(m, order, u, u).unwrap_or(u);
        insert_at(order, u, p, u as u16);
    }
}
