// A row store of linked cells: each row is a chain of cells with rising objects.
#![tactic(auto)]

ghost use Rattle.std.specs.Prelude.{◌≡◌, ℕ, ◌+◌, ◌<◌, false, length, Some, nat_le};
ghost use Rattle.constraints.specs.Finite.{count};
ghost use Rattle.constraints.specs.Rows.{empty, with_pair};
ghost use Rattle.rows.specs.Stores.{Found};
ghost use Rattle.chains.specs.Cells.{cell_at, cell_of, head_of, in_row, chain_pairs, chain_room, chain_spare, linked_in, Rising, Placed, Sound};

use rows::{Added, RowStore, StoreFault, checked};

// the link of a row's last cell
const END: u16 = 65535;

const MOST_CELLS: usize = 16384;

// Stays: a number ends a row, since a cell is an object and a link of 16 bits each.
#[derive(Clone, Copy, PartialEq, Eq, Debug)]
pub struct Cell {
    pub object: u16,
    pub link: u16,
}

impl Cell {
    // The cell after it in its row.
    fn next(self) -> Option<u16>
        ensures { result ≡ cell_of self.link }
    {
        (self.link != END).then_some(self.link)
    }
}

// Where an object belongs in a row: after one cell and at or before the next.
#[derive(Clone, Copy, Debug)]
struct Place {
    before: Option<u16>,
    after: Option<u16>,
}

// The place of an object in the row that begins at `head`.
fn place_of(cells: &[Cell], head: Option<u16>, object: u16) -> Place
    requires { Rising cells.now (length cells.now) head }
    ensures { Placed cells.now head object result.before result.after }
{
    let mut before = None;
    let mut after = head;
    while let Some(at) = after {
        let cell = cells[usize::from(at)];
        if cell.object >= object {
            break;
        }
        before = after;
        after = cell.next();
    }
    Place { before, after }
}

// The object of a cell.
fn object_at(cells: &[Cell], at: u16) -> u16
    requires { at < length cells.now }
    ensures { result ≡ (cell_at cells.now at).object }
{
    cells[usize::from(at)].object
}

// The number of cells of the row that begins at `head`.
fn length_of(cells: &[Cell], head: Option<u16>) -> u16
    requires { Rising cells.now (length cells.now) head }
    ensures { result ≡ count 256 (in_row cells.now head) }
{
    let mut n = 0;
    let mut next = head;
    while let Some(at) = next {
        n += 1;
        next = cells[usize::from(at)].next();
    }
    n
}

// Links the fresh cell in at its place.
fn link_in(cells: &mut [Cell], place: Place, fresh: u16, object: u16)
    requires fresh { fresh < length cells.old }
    requires place { (i : ℕ) → place.before ≡ Some i → i < length cells.old }
    ensures { cells.new ≡ linked_in cells.old place.before place.after fresh object }
{
    cells[usize::from(fresh)] = Cell {
        object,
        link: place.after.unwrap_or(END),
    };
    if let Some(before) = place.before {
        cells[usize::from(before)].link = fresh;
    }
}

// The rows, with the first cell of each. The first `used` cells are in use.
#[derive(Debug, Drop)]
pub struct Chains {
    cells: Vec<Cell>,
    heads: [Option<u16>; 256],
    used: u16,
    ghost sound: { ∥ Sound cells.items heads used ∥₁ },
}

impl Chains {
    // An empty store in the cells, of which it uses 16,384 at most.
    pub fn new(cells: Vec<Cell>) -> Self
        ensures empties { chain_pairs result.cells.items result.heads ≡ empty }
        ensures room { chain_room result.cells.items ≡ chain_room cells.items }
        ensures rest { chain_spare result.cells.items ≡ chain_spare cells.items }
    {
        Chains {
            cells,
            heads: [None; 256],
            used: 0,
        }
    }

    // The memory back.
    pub fn into_cells(self) -> Vec<Cell>
        ensures { chain_spare result.items ≡ chain_spare self.cells.items }
    {
        let Chains { cells, .. } = self;
        cells
    }

    fn is_full(&self) -> bool
        ensures { result ≡ nat_le (chain_room self.now.cells.items) self.now.used }
    {
        u32::from(self.used) >= self.room()
    }

    fn place_of(&self, v: u8, o: u16) -> Place
        ensures { Placed self.now.cells.items (head_of self.now.heads v) o result.before result.after }
    {
        place_of(&self.cells, self.heads[usize::from(v)], o)
    }

    fn first_from(&self, v: u8, start: u16) -> Option<u16>
        ensures { Found (chain_pairs self.now.cells.items self.now.heads v) start result }
    {
        let after = self.place_of(v, start).after?;
        Some(object_at(&self.cells, after))
    }

    fn holds(&self, v: u8, o: u8) -> bool
        ensures { result ≡ chain_pairs self.now.cells.items self.now.heads v o }
    {
        self.first_from(v, u16::from(o)) == Some(u16::from(o))
    }

    // Adds a pair that is not there yet, at its place, in a cell that is not in use.
    fn add(&mut self, v: u8, o: u8)
        requires new { chain_pairs self.old.cells.items self.old.heads v o ≡ false }
        requires free { self.old.used < chain_room self.old.cells.items }
        ensures pairs { chain_pairs self.new.cells.items self.new.heads ≡ with_pair (chain_pairs self.old.cells.items self.old.heads) v o }
        ensures room { chain_room self.new.cells.items ≡ chain_room self.old.cells.items }
        ensures rest { chain_spare self.new.cells.items ≡ chain_spare self.old.cells.items }
    {
        let place = self.place_of(v, u16::from(o));
        let fresh = self.used;
        link_in(&mut self.cells, place, fresh, u16::from(o));
        if place.before.is_none() {
            self.heads[usize::from(v)] = Some(fresh);
        }
        self.used = fresh + 1;
    }
}

impl RowStore for Chains {
    ghost pairs = { λ s. chain_pairs s.cells.items s.heads };

    ghost room = { λ s. chain_room s.cells.items };

    ghost spare = { λ s. chain_spare s.cells.items };

    fn room(&self) -> u32 {
        self.cells.len().min(MOST_CELLS) as u32
    }

    fn put(&mut self, v: u16, o: u16) -> Result<Added, StoreFault> {
        let row = checked(v)?;
        let object = checked(o)?;
        if self.holds(row, object) {
            return Ok(Added::Old);
        }
        if self.is_full() {
            return Err(StoreFault::Full {
                variable: v,
                object: o,
            });
        }
        self.add(row, object);
        Ok(Added::New)
    }

    fn has(&self, v: u16, o: u16) -> Result<bool, StoreFault> {
        Ok(self.holds(checked(v)?, checked(o)?))
    }

    fn next(&self, v: u16, start: u16) -> Result<Option<u16>, StoreFault> {
        Ok(self.first_from(checked(v)?, start))
    }

    fn size(&self, v: u16) -> Result<u16, StoreFault> {
        let row = checked(v)?;
        Ok(length_of(&self.cells, self.heads[usize::from(row)]))
    }

    fn wipe(&mut self) {
        self.heads = [None; 256];
        self.used = 0;
    }
}
