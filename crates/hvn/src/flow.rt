// What the values are worked out along.
ghost use Rattle.std.specs.Prelude.{◌≡◌, ◌<◌, ◌≤◌, MatchOption};
ghost use Rattle.constraints.specs.Lists.{system_of};
ghost use Rattle.hvn.specs.Columns.{member, open_in, FirstOf, NoneOf};

use constraints::ConstraintList;
use flows::{copy_reach, find_open};
use graphs::bits::Square;
use graphs::reach::arrange;

#[derive(Drop)]
pub struct Flow {
    // which variables are open
    // Stays: an array and a count, since `find_open` writes the flags as an array.
    pub flags: [bool; 256],
    // which reaches which along copies
    pub reach: Square,
    // the variables in an order along the copies
    pub order: [u16; 256],
    // how many variables there are
    pub count: usize,
    ghost few: { count ≤ 256 },
}

impl Flow {
    ghost use Rattle.hvn.specs.Flows.{FoundFlow};

    // Works all out for a list.
    pub fn find(&mut self, list: &ConstraintList)
        ensures { FoundFlow (system_of list.now) self.new }
    {
        find_open(list, &mut self.flags);
        copy_reach(list, &mut self.reach);
        self.count = list.variables();
        arrange(&self.reach, &mut self.order, self.count);
    }

    // Whether u is in the component of v.
    // Stays: `v < 256` and no `u8`, since rows are indexed by `usize` and counts of variables go to 256.
    pub fn is_member(&self, v: usize, u: usize) -> bool
        requires of { v < 256 }
        requires who { u < 256 }
        ensures { result ≡ member self.now.reach.words v u }
    {
        self.reach.has(u, v) && self.reach.has(v, u)
    }

    // The lowest open member of the component of v.
    pub fn lowest_open(&self, v: usize) -> Option<usize>
        requires { v < 256 }
        ensures { MatchOption result (NoneOf self.now.count (open_in self.now.flags self.now.reach.words v)) (FirstOf self.now.count (open_in self.now.flags self.now.reach.words v)) }
    {
        (0..self.count).find(|u| self.flags[*u] && self.is_member(v, *u))
    }
}
