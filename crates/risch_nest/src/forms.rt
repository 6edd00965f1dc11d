//! Fields whose elements are those of another type, and polynomials over the one as polynomials over the other.

ghost use Rattle.std.specs.Prelude.{◌≡◌, ◌++◌, ℕ, List, map, IfOk, OnOk};
ghost use Rattle.risch_polynomial.specs.Polynomial.{IsPolynomial};

use risch_field::Arith;
use risch_polynomial::Poly;
use std::alloc::{AllocError, Global};

/// A field whose elements are those of the field `Form`, as a type of its own.
pub(crate) trait HasForm: Arith {
    /// The field that it is.
    type Form: Arith;

    ghost of: { Self.Form → Self };

    ghost opened: { Self → Self.Form };

    // The same for polynomials, coefficient by coefficient.
    ghost all_of: { List Self.Form → List Self };

    ghost all_opened: { List Self → List Self.Form };

    /// The element.
    fn of(form: Self::Form) -> Self
        ensures { result ≡ of form };

    /// The element of `Form`.
    fn opened(&self) -> &Self::Form
        ensures { result.now ≡ opened self.now };

    /// The same, of an element that is given away.
    fn into_opened(self) -> Self::Form
        ensures { result ≡ opened self };

    ghost all_of_is: { (p : List Self.Form) → all_of p ≡ map of p };

    ghost all_opened_is: { (p : List Self) → all_opened p ≡ map opened p };

    // A polynomial over the one is a polynomial over the other, of the same weight.
    ghost all_of_kept: { (p : List Self.Form) (w : ℕ) → IsPolynomial Self.Form.ops p w → IsPolynomial Self.ops (all_of p) w };

    ghost all_opened_kept: { (p : List Self) (w : ℕ) → IsPolynomial Self.ops p w → IsPolynomial Self.Form.ops (all_opened p) w };
}

/// Appends p_0, p_1, ..
fn push_wrapped<W: HasForm>(to: &mut Vec<W>, from: Vec<W::Form>) -> Result<(), AllocError>
    ensures { OnOk result (to.new.items ≡ to.old.items ++ map W.of from.items) }
{
    for form in from {
        to.push(W::of(form))?;
    }
    Ok(())
}

/// The same polynomial.
pub(crate) fn wrapped<W: HasForm>(alloc: Global, from: Poly<W::Form>) -> Result<Poly<W>, AllocError>
    ensures { IfOk result (λ it. it ≡ W.all_of from) }
{
    let weight = from.kept_weight();
    let mut coefficients = Vec::new(alloc);
    push_wrapped(&mut coefficients, from.into_coefficients())?;
    Ok(Poly::kept(coefficients, weight))
}

/// Appends p_0, p_1, ..
fn push_unwrapped<W: HasForm>(to: &mut Vec<W::Form>, from: Vec<W>) -> Result<(), AllocError>
    ensures { OnOk result (to.new.items ≡ to.old.items ++ map W.opened from.items) }
{
    for element in from {
        to.push(element.into_opened())?;
    }
    Ok(())
}

/// The same polynomial.
pub(crate) fn unwrapped<W: HasForm>(
    alloc: Global,
    from: Poly<W>,
) -> Result<Poly<W::Form>, AllocError>
    ensures { IfOk result (λ it. it ≡ W.all_opened from) }
{
    let weight = from.kept_weight();
    let mut coefficients = Vec::new(alloc);
    push_unwrapped(&mut coefficients, from.into_coefficients())?;
    Ok(Poly::kept(coefficients, weight))
}

/// Appends p_0, p_1, ..
fn push_copies<W: HasForm>(
    alloc: Global,
    to: &mut Vec<W::Form>,
    from: &[W],
) -> Result<(), AllocError>
    ensures { OnOk result (to.new.items ≡ to.old.items ++ map W.opened from.now) }
{
    for item in from {
        let copy = item.opened().copy(alloc)?;
        to.push(copy)?;
    }
    Ok(())
}

/// The same polynomial, and the one that is given stays.
pub(crate) fn copied<W: HasForm>(alloc: Global, from: &Poly<W>) -> Result<Poly<W::Form>, AllocError>
    ensures { IfOk result (λ it. it ≡ W.all_opened from.now) }
{
    let weight = from.kept_weight();
    let mut coefficients = Vec::new(alloc);
    push_copies(alloc, &mut coefficients, from.coefficients())?;
    Ok(Poly::kept(coefficients, weight))
}
