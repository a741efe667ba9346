// The sets that components take in, as rows of columns, and the numbers of the values.
ghost use Rattle.std.specs.Prelude.{◌≡◌, ℕ, ◌/◌, ◌^◌, ◌<◌, ◌≤◌, Bool, ◌||◌, ◌≢◌, length, MatchOption, slice_index};
ghost use Rattle.graphs.specs.Matrix.{bit_at};
ghost use Rattle.constraints.specs.Constraint.{var_count};
ghost use Rattle.constraints.specs.Lists.{system_of};
ghost use Rattle.constraints.specs.Value.{value_class};
ghost use Rattle.layers.specs.Classes.{Numbers};
ghost use Rattle.hvn.specs.Columns.{in_row, SameRow, Settled, brought, NoneFrom, NextColumn, NoWordFrom, NextWord, LowestBit, SmallWords, SmallNumbers, RowDone};
ghost use Rattle.hvn.specs.Flows.{FoundFlow};

use crate::element::{element_of, left_of};
use crate::flow::Flow;
use constraints::{Constraint, ConstraintList};
use graphs::bank::number_rows;
use graphs::bits::BitMatrix;

// 256 rows of 2,816 columns.
pub type Columns = BitMatrix<88, 22528>;

// The first row with the columns of row k. `first` is memory to work in.
// Stays: takes the words as an array, since the items of an array parameter are known to fit and those of a field are not.
fn first_equal(words: &[u32; 22528], first: &mut [u16; 256], k: usize) -> u16
    requires { k < 256 }
    ensures within { result ≤ k }
    ensures same { SameRow (in_row words.now) result k }
    ensures least { (j : ℕ) → j < result → SameRow (in_row words.now) j k → ⊥ }
{
    number_rows(&words[..88 * k + 88], 88, first);
    first[k]
}

// The lowest bit of a word from bit `low` on.
fn lowest_bit(word: u32, low: usize) -> usize
    requires within { low < 32 }
    requires some { word / 2 ^ low ≢ 0 }
    ensures { LowestBit word low result }
{
    low + (word >> low).trailing_zeros() as usize
}

// A row for each position, and memory to number the rows.
#[derive(Drop)]
pub struct Sets {
    pub rows: Columns,
    pub first: [u16; 256],
}

impl Sets {
    // The first word of row k, from that of `low` on, with a column from `low` on.
    fn next_word(&self, k: usize, low: usize) -> Option<usize>
        requires { k < 256 }
        ensures { MatchOption result (NoWordFrom self.now.rows.words k low 88) (NextWord self.now.rows.words k low) }
    {
        let row = self.rows.row(k);
        (low / 32..88).find(|at| row[*at] >> low.saturating_sub(32 * *at) != 0)
    }

    // The lowest column of row k from `low` on.
    fn next_column(&self, k: usize, low: usize) -> Option<usize>
        requires { k < 256 }
        ensures { MatchOption result (NoneFrom self.now.rows.words k low 2816) (NextColumn self.now.rows.words k low) }
    {
        let at = self.next_word(k, low)?;
        let word = self.rows.row(k)[at];
        Some(32 * at + lowest_bit(word, low.saturating_sub(32 * at)))
    }

    // The number of row k: of no column, of one, or of the first row with the same columns.
    fn number_row(&mut self, k: usize) -> u16
        requires { k < 256 }
        ensures is { Settled (in_row self.new.rows.words) k result }
        ensures small { result < 2817 }
        ensures rows { self.new.rows ≡ self.old.rows }
    {
        // Stays: a number is what a layer's classes are told by, 0 for a value of no column.
        let Some(lone) = self.next_column(k, 0) else {
            return 0;
        };
        match self.next_column(k, lone + 1) {
            None => (lone + 1) as u16,
            Some(_) => 2561 + first_equal(&self.rows.words, &mut self.first, k),
        }
    }

    // Sets the columns of what the words bring to the component of v in row k.
    fn fill(&mut self, words: &[u32], flow: &Flow, number: &[u16; 256], k: usize, v: usize)
        requires words { SmallWords words.now }
        requires small { SmallNumbers number.now }
        requires row { k < 256 }
        requires of { v < 256 }
        ensures row { (c : ℕ) → c < 2816 → bit_at 88 self.new.rows.words k c ≡ (bit_at 88 self.old.rows.words k c || brought words.now flow.now.reach.words number.now v (length words.now) c) }
        ensures others { (y c : ℕ) → c < 2816 → y ≢ k → bit_at 88 self.new.rows.words y c ≡ bit_at 88 self.old.rows.words y c }
    {
        for word in words {
            // Most words of a list bring nothing to one component: the left variable alone tells them.
            if !flow.is_member(v, left_of(Constraint::decode(*word))) {
                continue;
            }
            if let Some(column) = element_of(flow, number, v, Constraint::decode(*word)) {
                self.rows.put(k, column);
            }
        }
    }

    // Writes row k for v, and gives the number of v.
    fn number_at(
        &mut self,
        words: &[u32],
        flow: &Flow,
        number: &[u16; 256],
        k: usize,
        v: usize,
    ) -> u16
        requires words { SmallWords words.now }
        requires small { SmallNumbers number.now }
        requires row { k < 256 }
        requires of { v < 256 }
        ensures is { RowDone words.now flow.now.flags flow.now.reach.words number.now flow.now.count self.old.rows.words self.new.rows.words k v result }
        ensures small { result < 2817 }
        ensures others { (y c : ℕ) → c < 2816 → y ≢ k → bit_at 88 self.new.rows.words y c ≡ bit_at 88 self.old.rows.words y c }
    {
        match flow.lowest_open(v) {
            Some(f) => (257 + f) as u16,
            None => {
                self.fill(words, flow, number, k, v);
                self.number_row(k)
            }
        }
    }

    // Gives each variable of the list the number of its value, along the order.
    pub fn number_values(&mut self, list: &ConstraintList, flow: &Flow, number: &mut [u16; 256])
        requires { FoundFlow (system_of list.now) flow.now }
        ensures { Numbers (system_of list.now) (value_class (system_of list.now)) number.new }
    {
        number.fill(0);
        self.rows.clear();
        let words = list.words();
        for (k, node) in flow.order[..flow.count].iter().enumerate() {
            let v = usize::from(*node);
            let x = self.number_at(words, flow, number, k, v);
            number[v] = x;
        }
    }
}
