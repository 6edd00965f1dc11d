//! The variable of a level.

ghost use Rattle.std.specs.Prelude.{◌≡◌, ◌∷◌, [], IfOk, IsTrue};
ghost use Rattle.risch_level.specs.Accessors as spec;

use crate::over::{Over, Ratio};
use risch_field::Arith;
use risch_polynomial::Poly;
use std::alloc::{AllocError, Global};

/// The polynomial t.
#[tactic(auto, using(crate::proofs::VariablePolynomial::variable_is_polynomial))]
fn own_polynomial<E: Arith>(alloc: Global) -> Result<Poly<E>, AllocError>
    requires zero { IsTrue (E.ops.is_zero E.ops.zero) }
    requires light { E.ops.weight E.ops.one ≡ 1 }
    ensures { IfOk result (λ it. it ≡ E.ops.zero ∷ E.ops.one ∷ []) }
{
    let mut coefficients = Vec::new(alloc);
    coefficients.push(E::zero())?;
    coefficients.push(E::one())?;
    Ok(Poly::kept(coefficients, 1))
}

/// t/1, the variable of the level over a field.
#[tactic(auto, using(crate::proofs::VariablePolynomial::variable_is_light))]
pub fn variable<E: Arith>(alloc: Global) -> Result<Over<E>, AllocError>
    requires zero { IsTrue (E.ops.is_zero E.ops.zero) }
    requires light { E.ops.weight E.ops.one ≡ 1 }
    ensures { IfOk result (λ it. it ≡ spec.own_variable E.ops) }
{
    let num = own_polynomial(alloc)?;
    let den = Poly::one(alloc)?;
    Ok(Over::Quotient(Ratio { num, den }))
}
