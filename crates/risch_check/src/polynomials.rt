//! The polynomials in z of a sum, and their common divisors.

ghost use Rattle.std.specs.Prelude.{◌≡◌, ◌≤◌, length, IfOk};
ghost use Rattle.risch_polynomial.specs.Poly as poly;
ghost use Rattle.risch_level.specs.Levels.{element};
ghost use Rattle.risch_rootsum.specs.Algebra as algebra;
ghost use Rattle.risch_rootsum.specs.Algebra.{IsModulus};
ghost use Rattle.risch_chain_end.specs.Verdict.{Gives};
ghost use Rattle.risch_check.specs.Checked as spec;

use risch_cert::print_poly_in_z;
use risch_chain_end::{Fault, text};
use risch_division::gcd;
use risch_elem::Elem;
use risch_frac::Frac;
use risch_polynomial::Poly;
use std::alloc::{AllocError, Global};

/// The fractions as elements.
fn numbers(alloc: Global, fractions: &[Frac]) -> Result<Vec<Elem>, AllocError>
    ensures { IfOk result (λ elements. elements.items ≡ algebra.modulus fractions.now) }
{
    fractions
        .iter()
        .map(|fraction| Elem::num(*fraction))
        .collect(alloc)
}

/// R over the elements.
#[tactic(auto, using(risch_rootsum::proofs::AlgebraRules::moduli))]
pub(crate) fn modulus(alloc: Global, fractions: &[Frac]) -> Result<Poly<Elem>, AllocError>
    requires { IsModulus fractions.now }
    ensures { IfOk result (λ it. it ≡ algebra.modulus fractions.now) }
{
    let coefficients = numbers(alloc, fractions)?;
    Ok(Poly::trimmed(coefficients))
}

/// The elements once more.
fn copies(alloc: Global, elements: &[Elem]) -> Result<Vec<Elem>, AllocError>
    ensures { IfOk result (λ copies. copies.items ≡ elements.now) }
{
    let mut copies = Vec::new(alloc);
    for element in elements {
        copies.push(element.copy(alloc)?)?;
    }
    Ok(copies)
}

/// The polynomial with these coefficients from exponent 0; those at the end that are 0 are dropped.
#[tactic(auto, using(risch_rootsum::proofs::AlgebraRules::trimmed_length))]
pub(crate) fn polynomial(alloc: Global, coefficients: &[Elem]) -> Result<Poly<Elem>, AllocError>
    requires degree { length coefficients.now ≤ 256 }
    requires weight { poly.weight element coefficients.now ≤ 65536 }
    ensures { IfOk result (λ it. it ≡ poly.trimmed element coefficients.now) }
{
    let copies = copies(alloc, coefficients)?;
    Ok(Poly::trimmed(copies))
}

/// The line is refused unless g = 1.
fn check_one(alloc: Global, line: u32, divisor: &Poly<Elem>) -> Result<(), Fault>
    ensures { Gives result (spec.checked_one line divisor.now) }
{
    if divisor.is_one() {
        return Ok(());
    }
    let left = print_poly_in_z(alloc, divisor.coefficients())?;
    let right = text(alloc, "1")?;
    Err(Fault::Refused { line, left, right })
}

/// The line is refused unless gcd(p, q) = 1.
#[tactic(auto, using(risch_chain_end::proofs::VerdictSteps::steps), unfolding(crate::specs::Checked::checked_coprime))]
pub(crate) fn check_coprime(
    alloc: Global,
    line: u32,
    left: &Poly<Elem>,
    right: &Poly<Elem>,
) -> Result<(), Fault>
    ensures { Gives result (spec.checked_coprime line left.now right.now) }
{
    let divisor = gcd(alloc, left, right)?;
    check_one(alloc, line, &divisor)
}
