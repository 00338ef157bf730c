//! Plans in a list, each made of earlier ones.

ghost use Rattle.std.specs.Prelude.{◌≡◌, ℕ, List, [], ◌∷◌, ◌++◌, length, IfOk, IfErr};
ghost use Rattle.term_plans.specs.Plans.{Plan};
ghost use Rattle.term_plans.specs.Makings.{plan_by, IsOf, AreMakingsOf};

use crate::making::Making;
use digit_tuple::faults::OutOfMemory;
use std::alloc::Global;
use std::marker::Model;

/// Plans, seen as the list of them, each determined by how it is made of earlier ones.
#[derive(Drop)]
pub struct PlanList {
    makings: Vec<Making>,
}

impl Model for PlanList {
    ghost use Rattle.std.specs.Prelude.{List};
    ghost use Rattle.std.specs.Coded.{coded_list, codes};
    ghost use Rattle.term_plans.specs.Plans.{Plan};
    ghost use Rattle.term_plans.specs.PlanCode.{plan_code};
    ghost use Rattle.term_plans.specs.Makings.{unfolded, AreMakingsOf};

    ghost Value = { List Plan };

    ghost coded = { coded_list (plan_code (Prim.hlevel codes)) };

    ghost view = { λ l. unfolded l.makings.items };

    ghost invariant = { λ l. AreMakingsOf (unfolded l.makings.items) l.makings.items };
}

impl PlanList {
    /// No plans.
    pub fn new(alloc: Global) -> Self
        ensures { result ≡ [] }
    {
        PlanList {
            makings: Vec::new(alloc),
        }
    }

    /// How each plan is made: the making at a place is that of the plan at this place, and names
    /// earlier places alone.
    pub fn makings(&self) -> &[Making]
        ensures { AreMakingsOf self.now result.now }
    {
        let makings = &self.makings;
        makings.as_slice()
    }

    /// One plan more, and its place.
    pub fn push(&mut self, making: Making) -> Result<usize, OutOfMemory>
        requires { IsOf (length self.old) making }
        ensures { IfOk result (λ place. (place ≡ length self.old) × (self.new ≡ self.old ++ plan_by self.old making ∷ [])) }
    {
        let place = self.makings.len();
        self.makings.push(making)?;
        Ok(place)
    }
}
