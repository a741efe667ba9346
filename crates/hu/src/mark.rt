// Marks: the sources that stand at the variables which reach a variable.
ghost use Rattle.std.specs.Prelude.{◌≡◌, ℕ, ◌<◌, ◌≤◌, Bool, ◌&&◌, ◌||◌, ◌≢◌};
ghost use Rattle.graphs.specs.Matrix.{bit, bit_at};
ghost use Rattle.constraints.specs.Constraint.{var_count};
ghost use Rattle.constraints.specs.Lists.{system_of};
ghost use Rattle.flows.specs.Columns.{ReachBits, StandBits};
ghost use Rattle.hu.specs.Marks.{gathered};

use constraints::ConstraintList;
use flows::{Stand, copy_reach, put_sources};
use graphs::bits::Square;

// Which variable reaches which, and where each source stands.
#[derive(Drop)]
pub struct Sources {
    pub reach: Square,
    pub stand: Stand,
    // how many variables there are
    pub count: usize,
    ghost few: { count ≤ 256 },
}

impl Sources {
    // Works all out for a list.
    pub fn find(&mut self, list: &ConstraintList)
        ensures reach { ReachBits (system_of list.now) self.new.reach.words }
        ensures stand { StandBits (system_of list.now) self.new.stand.words }
        ensures count { self.new.count ≡ var_count (system_of list.now) }
    {
        copy_reach(list, &mut self.reach);
        put_sources(list, &mut self.stand);
        self.count = list.variables();
    }

    // Joins what stands at u to the mark of v, if u reaches v.
    // Stays: `u < 256` and no `u8`, since rows are indexed by `usize` and counts of variables go to 256.
    fn join_mark(&self, marks: &mut Stand, u: usize, v: usize)
        requires from { u < 256 }
        requires to { v < 256 }
        ensures row { (c : ℕ) → c < 2560 → bit_at 80 marks.new.words v c ≡ (bit_at 80 marks.old.words v c || (bit_at 80 self.now.stand.words u c && bit self.now.reach.words u v)) }
        ensures others { (x c : ℕ) → c < 2560 → x ≢ v → bit_at 80 marks.new.words x c ≡ bit_at 80 marks.old.words x c }
    {
        if self.reach.has(u, v) {
            marks.join(v, self.stand.row(u));
        }
    }

    // Joins what stands at the variables that reach v to the mark of v.
    fn gather(&self, marks: &mut Stand, v: usize)
        requires { v < 256 }
        ensures row { (c : ℕ) → c < 2560 → bit_at 80 marks.new.words v c ≡ (bit_at 80 marks.old.words v c || gathered self.now.reach.words self.now.stand.words v c self.now.count) }
        ensures others { (x c : ℕ) → c < 2560 → x ≢ v → bit_at 80 marks.new.words x c ≡ bit_at 80 marks.old.words x c }
    {
        for u in 0..self.count {
            self.join_mark(marks, u, v);
        }
    }

    // Writes the mark of each variable.
    pub fn mark_rows(&self, marks: &mut Stand)
        ensures { (v c : ℕ) → v < self.now.count → c < 2560 → bit_at 80 marks.new.words v c ≡ gathered self.now.reach.words self.now.stand.words v c self.now.count }
    {
        marks.clear();
        for v in 0..self.count {
            self.gather(marks, v);
        }
    }
}
