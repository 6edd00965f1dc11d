//! The variables of the tower: x and the monomials.

ghost use Rattle.std.specs.Prelude.{◌≡◌, ◌<◌, ◌+◌, IfOk};
ghost use Rattle.risch_mean.specs.Element as mean;
ghost use Rattle.risch_level.specs.Accessors as spec;
ghost use Rattle.risch_element_theory.specs.WholeTower.{meaning, Within};

use crate::elem::Elem;
use risch_nest::Nest;
use std::alloc::{AllocError, Global};

impl Elem {
    /// The variable of a level l, from 0 to 4: x for l = 0, tl for the others. It lies in the field of the first l + 1 variables.
    ///
    /// `Err(AllocError)` for want of memory alone.
    #[tactic(auto, using(risch_element_theory::proofs::ElementRules::variables))]
    pub fn variable(alloc: Global, level: u8) -> Result<Elem, AllocError>
        requires { level < 5 }
        ensures value { IfOk result (λ it. it ≡ spec.variable 5 level) }
        ensures meaning { IfOk result (λ it. meaning it ≡ mean.variable level) }
        ensures within { IfOk result (λ it. Within (level + 1) it) }
    {
        let inner = Nest::variable(alloc, level)?;
        Ok(Elem::of(inner))
    }
}
