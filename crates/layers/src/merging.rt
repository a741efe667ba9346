// A layer over any engine, by any classes of variables.
ghost use Rattle.std.specs.Prelude.{◌≡◌, ℕ, ◌<◌, ◌≤◌, Bool, false, not, length, nat_lt, Ok, ◌==◌, slice_index};
ghost use Rattle.constraints.specs.Finite.{count};
ghost use Rattle.constraints.specs.Constraint.{Valid, var_count};
ghost use Rattle.constraints.specs.Reduced.{replaced};
ghost use Rattle.constraints.specs.Theorems.{LayerIsRight};
ghost use Rattle.constraints.specs.Lists.{system_of, no_words};
ghost use Rattle.engine.specs.Meanings.{gathering, answer};
ghost use Rattle.engine.specs.declared.fault.EngineFault.TheVariants.{NoRoom};
ghost use Rattle.engine.specs.declared.fault.Overflow.{Overflow};
ghost use Rattle.layers.specs.Classes.{Numbers, Named, Representatives};
ghost use Rattle.layers.specs.Layered.{Classing, rep_by, raised, layered, layer_roomy};
ghost use Rattle.layers.specs.Plans.{Prepared, LayerSound, replaced_count, stands_for, handed_words};
ghost use Rattle.arrayvec.specs.ArrayVec.{array_vec_len};

use crate::plan::Plan;
use crate::reduce::{earliest, reduce};
use crate::represent::Classes;
use arrayvec::ArrayVec;
use constraints::ConstraintList;
use engine::{Engine, EngineFault, Overflow, gathering, hand_down};
use flows::find_open;

// How variables are put into classes.
pub trait Merge {
    ghost same: { Classing };

    // Variables of one class have equal rows, and the reduced list keeps them.
    ghost right: { LayerIsRight same };

    // Gives each variable the number of its class.
    fn classify(&mut self, list: &ConstraintList, class: &mut [u16; 256])
        ensures { Numbers (system_of list.now) (same (system_of list.now)) class.new };
}

// Writes the representatives of the list's variables, and the reduced list.
fn prepare<M: Merge>(merge: &mut M, plan: &mut Plan)
    ensures own { plan.new.own ≡ plan.old.own }
    ensures ready { Prepared M.Merge.same plan.new }
{
    let mut is_open = [false; 256];
    let mut class = [0; 256];
    find_open(&plan.own, &mut is_open);
    merge.classify(&plan.own, &mut class);
    let count = plan.own.variables();
    let classes = Classes {
        is_open,
        class,
        count,
    };
    classes.represent(&mut plan.reps);
    reduce(&plan.reps, plan.own.words(), &mut plan.remaining);
}

// A fault from below, as this layer tells it.
fn raise(fault: EngineFault, plan: &Plan) -> EngineFault
    requires named { Named plan.now.reps.items (system_of plan.now.own).words }
    requires within { (o : Overflow) → fault ≡ NoRoom o → o.position < array_vec_len plan.now.remaining }
    ensures { (same : Classing) → Prepared same plan.now → result ≡ raised same (system_of plan.now.own) fault }
{
    match fault {
        EngineFault::NoRoom(o) => {
            let word = plan.remaining[usize::from(o.position)];
            let own = earliest(&plan.reps, plan.own.words(), word);
            EngineFault::NoRoom(Overflow {
                position: own as u16,
                depth: o.depth.saturating_add(1),
                store: o.store,
            })
        }
        other => other,
    }
}

// Hands the plan's blocks and reduced list to the engine below.
fn hand_plan<E: Engine>(below: &mut E, plan: &Plan) -> Result<(), EngineFault>
    requires { Valid (record { blocks = (system_of plan.now.own).blocks; words = plan.now.remaining.items }) }
    ensures done { result ≡ Ok tt }
    ensures after { E.meaning below.new ≡ gathering (E.meaning below.old) (record { blocks = (system_of plan.now.own).blocks; words = plan.now.remaining.items }) }
{
    hand_down(below, plan.own.blocks(), &plan.remaining)
}

// How many of the variables have another representative.
fn count_replaced(reps: &[u16]) -> u16
    requires { length reps.now ≤ 256 }
    ensures { result ≡ count (length reps.now) (λ v. not (slice_index reps.now v == v)) }
{
    let mut n = 0;
    for (v, rep) in reps.iter().enumerate() {
        n += u16::from(usize::from(*rep) != v);
    }
    n
}

#[derive(Drop)]
pub struct Merging<M: Merge, E: Engine> {
    merge: M,
    below: E,
    plan: Plan,
    // Stays: a flag beside the plan, since the plan's memory is kept while gathering.
    settled: bool,
    ghost handed: { LayerSound settled (E.Engine.meaning below) M.Merge.same plan },
}

impl<M: Merge, E: Engine> Merging<M, E> {
    // Empty and gathering, over an engine in any state.
    pub fn new(merge: M, below: E) -> Self
        ensures { layered M.Merge.same (E.meaning result.below) (system_of result.plan.own) result.settled ≡ layered M.Merge.same (E.meaning below) no_words false }
    {
        let plan = Plan {
            own: ConstraintList::new(),
            reps: ArrayVec::new(),
            remaining: ArrayVec::new(),
        };
        Merging {
            merge,
            below,
            plan,
            settled: false,
        }
    }

    // The variable that stands for v, where a question about v is answered.
    fn admit(&self, v: u16) -> Result<u16, EngineFault>
        ensures { result ≡ answer (layered M.Merge.same (E.meaning self.now.below) (system_of self.now.plan.own) self.now.settled) (nat_lt v (var_count (system_of self.now.plan.own))) (rep_by M.Merge.same (system_of self.now.plan.own) v) }
    {
        if !self.settled {
            return Err(EngineFault::Gathering);
        }
        let rep = self.plan.reps.get(usize::from(v));
        rep.copied().ok_or(EngineFault::Outside)
    }

    // How many variables are replaced, 0 while gathering.
    pub fn replaced(&self) -> u16
        ensures { result ≡ replaced_count M.Merge.same self.now.settled (system_of self.now.plan.own) }
    {
        if self.settled {
            count_replaced(&self.plan.reps)
        } else {
            0
        }
    }

    // The variable that stands for v, once settled.
    pub fn representative(&self, v: u16) -> Option<u16>
        ensures { result ≡ stands_for M.Merge.same self.now.settled (system_of self.now.plan.own) v }
    {
        self.admit(v).ok()
    }

    // The words handed down, once settled; none while gathering.
    pub fn handed(&self) -> &[u32]
        ensures { result.now ≡ handed_words M.Merge.same self.now.settled (system_of self.now.plan.own) }
    {
        let words = self.plan.remaining.as_slice();
        if self.settled { words } else { &words[..0] }
    }
}

impl<M: Merge, E: Engine> Engine for Merging<M, E> {
    ghost meaning = { λ s. layered M.Merge.same (E.Engine.meaning s.below) (system_of s.plan.own) s.settled };

    ghost roomy = { λ s. layer_roomy M.Merge.same (E.Engine.meaning s.below).rule M.Merge.right (E.Engine.roomy s.below) };

    fn clear(&mut self) {
        self.settled = false;
        self.plan.own.clear();
    }

    fn block(&mut self, n: u8) -> Result<u16, EngineFault> {
        gathering(self.settled)?;
        Ok(self.plan.own.block(n)?)
    }

    fn add(&mut self, word: u32) -> Result<(), EngineFault> {
        gathering(self.settled)?;
        Ok(self.plan.own.add(word)?)
    }

    fn settle(&mut self) -> Result<(), EngineFault> {
        gathering(self.settled)?;
        prepare(&mut self.merge, &mut self.plan);
        hand_plan(&mut self.below, &self.plan)?;
        // Stays: under `map_err` the proof of what `raise` requires is left open inside the closure.
        if let Err(fault) = self.below.settle() {
            return Err(raise(fault, &self.plan));
        }
        self.settled = true;
        Ok(())
    }

    fn holds(&mut self, v: u16, o: u16) -> Result<bool, EngineFault> {
        let rep = self.admit(v)?;
        self.below.holds(rep, o)
    }

    fn next(&mut self, v: u16, from: u16) -> Result<Option<u16>, EngineFault> {
        let rep = self.admit(v)?;
        self.below.next(rep, from)
    }

    fn size(&mut self, v: u16) -> Result<u16, EngineFault> {
        let rep = self.admit(v)?;
        self.below.size(rep)
    }

    fn room(&self) -> u32 {
        self.below.room()
    }
}
