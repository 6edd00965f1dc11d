//! The characteristic polynomial of the residues from the traces of their powers, by Newton's identities (Bronstein, section 5.6).

ghost use Rattle.std.specs.Prelude.{◌≡◌, ◌<◌, [], ◌∷◌, false, length, reverse, IfOk};
ghost use Rattle.risch_field.specs.Checked.{Agrees};
ghost use Rattle.risch_polynomial.specs.Poly as poly;
ghost use Rattle.risch_level.specs.Levels.{element};
ghost use Rattle.risch_logarithm_rules.specs.Newton as spec;

use risch_elem::{Elem, ElemList, Fail};
use risch_field::Arith;
use risch_frac::Frac;
use risch_sub::polynomials::Inner;
use std::alloc::{AllocError, Global};

/// e, or -e.
fn signed(alloc: Global, minus: bool, of: &Elem) -> Result<Elem, AllocError>
    ensures { IfOk result (λ it. it ≡ poly.signed element minus of.now) }
{
    if minus { of.neg(alloc) } else { of.copy(alloc) }
}

/// e·p, or -e·p.
fn signed_product(alloc: Global, minus: bool, left: &Elem, right: &Elem) -> Result<Elem, Fail>
    ensures { Agrees result (element.product (poly.signed element minus left.now) right.now) }
{
    let factor = signed(alloc, minus, left)?;
    factor.mul(alloc, right)
}

/// e_(i-1)·p_1 - e_(i-2)·p_2 + .., for e_0 .. e_(i-1).
fn alternating_sum(alloc: Global, es: &[Elem], traces: &[Elem]) -> Result<Elem, Fail>
    ensures { Agrees result (spec.alternating_sum false element.zero (reverse es.now) traces.now) }
{
    let mut total = Elem::zero();
    let mut minus = false;
    for j in 0..es.len().min(traces.len()) {
        let term = signed_product(alloc, minus, &es[es.len() - 1 - j], &traces[j])?;
        total = total.add(alloc, &term)?;
        minus = !minus;
    }
    Ok(total)
}

/// e_i, from e_0 .. e_(i-1).
#[tactic(auto, using(risch_field::proofs::CheckedSteps::stop_passes, risch_field::proofs::CheckedSteps::value_passes), unfolding(risch_logarithm_rules::specs::Newton::next_symmetric))]
fn next_symmetric(alloc: Global, es: &[Elem], traces: &[Elem]) -> Result<Elem, Fail>
    requires { 0 < length es.now }
    ensures { Agrees result (spec.next_symmetric es.now traces.now) }
{
    let sum = alternating_sum(alloc, es, traces)?;
    let inverse = Elem::num(Frac::new(1, es.len() as i128));
    inverse.mul(alloc, &sum)
}

/// e_0 .. e_m, from the traces p_1 .. p_m.
fn symmetrics(alloc: Global, traces: &[Elem]) -> Result<ElemList, Fail>
    ensures { Agrees result (spec.symmetrics_from (length traces.now) (element.one ∷ []) traces.now) }
{
    let mut es = ElemList::new(alloc);
    es.push(Elem::one())?;
    for _step in 0..traces.len() {
        let next = next_symmetric(alloc, es.as_slice(), traces)?;
        es.push(next)?;
    }
    Ok(es)
}

/// e_0, -e_1, e_2, ..
fn alternating(alloc: Global, es: &[Elem]) -> Result<Vec<Elem>, AllocError>
    ensures { IfOk result (λ it. it.items ≡ spec.alternating false es.now) }
{
    let mut signs = Vec::new(alloc);
    let mut minus = false;
    for e in es {
        signs.push(signed(alloc, minus, e)?)?;
        minus = !minus;
    }
    Ok(signs)
}

/// z^m - e_1·z^(m-1) + e_2·z^(m-2) - .., the characteristic polynomial of ρ from the traces p_1 .. p_m of its powers.
///
/// Stops: that of the first value that cannot be formed; Size where the polynomial is beyond the limits.
#[tactic(auto, using(risch_field::proofs::CheckedSteps::stop_passes, risch_field::proofs::CheckedSteps::value_passes), unfolding(risch_logarithm_rules::specs::Newton::characteristic_polynomial))]
pub(crate) fn characteristic_polynomial(alloc: Global, traces: &[Elem]) -> Result<Inner, Fail>
    ensures { Agrees result (spec.characteristic_polynomial traces.now) }
{
    let es = symmetrics(alloc, traces)?;
    let mut coefficients = alternating(alloc, es.as_slice())?;
    coefficients.reverse();
    Inner::from_coefficients(coefficients)
}
