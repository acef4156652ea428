//! The circuits of a search: while a node that is won is left, those of the existentials behind it that are not the
//! constant 0. The circuits of the first side of a universal are put aside while the second side is looked at, and joined
//! with those of the second: (u and second) or (not u and first).
ghost use Rattle.std.specs.Prelude.{◌≡◌, ℕ, [], true, false, IfOk, OnOk};
ghost use Rattle.q_logic.specs.declared.formulas.Quant.TheVariants.{Exists, Forall};
ghost use Rattle.q_logic.specs.Prelude.{Distinct};
ghost use Rattle.q_certificate.specs.Prelude.{IsOpened};
ghost use Rattle.q_solve.specs.Passes.{SameGraph, IsPassed, CanPass, IsDropped, has_second};

use crate::joining::join;
use crate::node::Decision;
use crate::picks::{Pick, Picks};
use q_aig::Aig;
use q_certificate::{Table, look, open_inputs};
use q_logic::{Bound, NoMemory, Quant};
use std::alloc::Global;
use std::mem;

/// The graph, the literals of the universals, and the rows of circuits.
#[derive(Drop)]
pub struct Circuits {
    pub aig: Aig,
    pub inputs: Table,
    pub current: Picks,
    pub aside: Vec<Picks>,
}

impl Circuits {
    /// The universals as inputs, and no circuit.
    pub fn start(alloc: Global, prefix: &[Bound]) -> Result<Circuits, NoMemory>
        requires { Distinct prefix.now }
        ensures opened { IfOk result (λ c. IsOpened c.aig c.inputs.items prefix.now) }
        ensures aside { IfOk result (λ c. c.aside.items ≡ []) }
    {
        let mut aig = Aig::new(alloc);
        let inputs = open_inputs(alloc, &mut aig, prefix)?;
        Ok(Circuits {
            aig,
            inputs,
            current: Picks::new(alloc),
            aside: Vec::new(alloc),
        })
    }

    /// At a node that is won each circuit is 0.
    pub fn begin(&mut self)
        ensures graph { SameGraph self.old self.new }
        ensures current { self.new.current ≡ [] }
        ensures aside { self.new.aside.items ≡ self.old.aside.items }
    {
        self.current.clear();
    }

    /// Leaves a side that is won; whether the second side has to be tried.
    pub fn pass(&mut self, last: Decision) -> Result<bool, NoMemory>
        requires { CanPass last.bound.quant last.value last.bound.var last.depth self.old }
        ensures second { IfOk result (λ more. more ≡ has_second last.bound.quant last.value true) }
        ensures passed { OnOk result (IsPassed last.bound.quant last.value last.bound.var last.depth
            self.old self.new) }
    {
        match (last.bound.quant, last.value) {
            (Quant::Exists, false) => Ok(false),
            (Quant::Exists, true) => {
                self.pick(last.depth)?;
                Ok(false)
            }
            (Quant::Forall, false) => {
                self.put_aside()?;
                Ok(true)
            }
            (Quant::Forall, true) => {
                self.join_sides(last)?;
                Ok(false)
            }
        }
    }

    /// Leaves a side that is lost; whether the second side has to be tried.
    pub fn drop_side(&mut self, last: Decision) -> bool
        ensures second { result ≡ has_second last.bound.quant last.value false }
        ensures dropped { IsDropped last.bound.quant last.value self.old self.new }
    {
        match (last.bound.quant, last.value) {
            (Quant::Exists, false) => true,
            (Quant::Exists, true) => false,
            (Quant::Forall, false) => false,
            (Quant::Forall, true) => {
                self.forget_side();
                false
            }
        }
    }

    // The existential of this depth is 1.
    fn pick(&mut self, depth: usize) -> Result<(), NoMemory>
        ensures { OnOk result ((x : ℕ) → IsPassed Exists true x depth self.old self.new) }
    {
        self.current.push(Pick { depth, lit: 1 })?;
        Ok(())
    }

    // The side that was left waits for the second one.
    fn put_aside(&mut self) -> Result<(), NoMemory>
        ensures { OnOk result ((x depth : ℕ) → IsPassed Forall false x depth self.old self.new) }
    {
        let alloc = *self.aside.allocator();
        let side = mem::replace(&mut self.current, Picks::new(alloc));
        self.aside.push(side)?;
        Ok(())
    }

    // Both sides of the universal are won.
    fn join_sides(&mut self, last: Decision) -> Result<(), NoMemory>
        requires { CanPass Forall true last.bound.var last.depth self.old }
        ensures { OnOk result (IsPassed Forall true last.bound.var last.depth self.old self.new) }
    {
        let Some(first) = self.aside.pop() else {
            return Ok(());
        };
        let Some(lit) = look(&self.inputs, last.bound.var) else {
            return Ok(());
        };
        let universal = Pick {
            depth: last.depth,
            lit,
        };
        let joined = join(
            &mut self.aig,
            universal,
            self.current.as_slice(),
            first.as_slice(),
        )?;
        self.current = joined;
        Ok(())
    }

    // The second side of the universal is lost, and the first one with it.
    fn forget_side(&mut self)
        ensures { IsDropped Forall true self.old self.new }
    {
        let _ = self.aside.pop();
    }
}
