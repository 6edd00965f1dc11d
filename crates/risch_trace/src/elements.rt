//! Lists of elements.

ghost use Rattle.std.specs.Prelude.{◌≡◌, ◌++◌, replicate, OnOk};
ghost use Rattle.risch_polynomial_theory.specs.Meaning.{AllValid};
ghost use Rattle.risch_level.specs.Levels.{element};
ghost use Rattle.risch_element_theory.specs.WholeTower.{IsElement};

use risch_elem::Elem;
use risch_field::Arith;
use std::alloc::{AllocError, Global};

/// Each element of a list is in normal form.
pub fn all_normal(elements: &[Elem])
    ensures { AllValid IsElement elements.now }
{
    for element in elements {
        let _nest = element.nest();
    }
}

/// Appends the elements.
pub fn push_copies(alloc: Global, to: &mut Vec<Elem>, from: &[Elem]) -> Result<(), AllocError>
    ensures { OnOk result (to.new.items ≡ to.old.items ++ from.now) }
{
    for item in from {
        to.push(item.copy(alloc)?)?;
    }
    Ok(())
}

/// Appends 0, 0, .., as many as `count`.
pub fn push_zeros(to: &mut Vec<Elem>, count: usize) -> Result<(), AllocError>
    ensures { OnOk result (to.new.items ≡ to.old.items ++ replicate count element.zero) }
{
    for _i in 0..count {
        to.push(Elem::zero())?;
    }
    Ok(())
}
