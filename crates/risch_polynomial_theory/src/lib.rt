//! What fractions, and polynomials over them, stand for (Bronstein, Symbolic Integration I, section 1.1): a fraction for num/den, a list of coefficients p for the function
//! t ↦ p_0 + p_1·t + .. on the elements of a tower.
//!
//! The calls change nothing. Each contract states a law, so that the check of this crate proves it: fractions in lowest terms stand for the rational numbers, the rules of sum,
//! product, multiple, negative, monomial and derivative mean what they say, and the derivative by x is that of every tower. What makes a rule mean its operation over any ring stands in
//! `specs/Meaning.antt`; `proofs/PolynomialValues.antt` has the laws over any ring, `proofs/PolynomialShapes.antt` and `proofs/Monomials.antt` those of the lists themselves.
//!
//! Not promised here: division and common divisor, and elements with a variable in the denominator. `risch_element_theory` has their laws.
#![tactic(auto)]

ghost use Rattle.std.specs.Prelude.{◌≡◌, ◌<◌, ◌^◌, ℕ, List, map, length};
ghost use Rattle.risch_frac.specs.Fraction.{Fraction, IsLowest};
ghost use Rattle.risch_mean.specs.Element.{neg, variable, ◌+ₑ◌, ◌*ₑ◌};
ghost use Rattle.risch_mean.specs.ElementField.{elements, ◌^ₑ◌};
ghost use Rattle.risch_mean.specs.Tower.{Tower, derive_in};
ghost use Rattle.risch_mean.specs.Univariate.{value_at, formal_derivative};
ghost use Rattle.risch_polynomial_theory.specs.FractionMeaning.{fraction_meaning, polynomial_value, StandsFor};
ghost use Rattle.risch_field.specs.Ground.{ground};
ghost use Rattle.risch_polynomial_theory.specs.Meaning.{AllValid, Interprets};
ghost use Rattle.risch_polynomial.specs.Poly as poly;

use risch_frac::Frac;
use risch_polynomial::Poly;

/// A fraction in lowest terms stands for the rational number num/den. The operations on fractions, where they have a value, are those on rational numbers, and a
/// fraction is determined by the number.
pub fn fractions_stand_for_numbers()
    ensures { Interprets ground elements.ring IsLowest fraction_meaning }
{}

/// Where a rule gives a polynomial r, its coefficients are in lowest terms, and at every element t it has the value p(t) + q(t), p(t)·q(t) and so on.
pub fn polynomials_stand_for_functions()
    ensures sum { (p q r : List Fraction) → AllValid IsLowest p → AllValid IsLowest q → poly.sum ground p q ≡ Ok r →
        StandsFor r (λ t. polynomial_value p t +ₑ polynomial_value q t) }
    ensures product { (p q r : List Fraction) → AllValid IsLowest p → AllValid IsLowest q → poly.product ground p q ≡ Ok r →
        StandsFor r (λ t. polynomial_value p t *ₑ polynomial_value q t) }
    ensures multiple { (c : Fraction) (p r : List Fraction) → IsLowest c → AllValid IsLowest p → poly.scaled ground c p ≡ Ok r →
        StandsFor r (λ t. fraction_meaning c *ₑ polynomial_value p t) }
    ensures negative { (p : List Fraction) → AllValid IsLowest p →
        StandsFor (poly.negatives ground p) (λ t. neg (polynomial_value p t)) }
    ensures monomial { (c : Fraction) (e : ℕ) (r : List Fraction) → IsLowest c → poly.monomial ground c e ≡ Ok r →
        StandsFor r (λ t. fraction_meaning c *ₑ t ^ₑ e) }
    ensures derivative { (p r : List Fraction) → length p < 2 ^ 16 → AllValid IsLowest p → poly.partial ground p ≡ Ok r →
        StandsFor r (λ t. value_at elements.ring t (formal_derivative elements.ring (map fraction_meaning p))) }
{}

/// D(p(x)) = (dp/dx)(x) in every tower.
pub fn derivative_by_x_is_that_of_a_tower()
    ensures { (tower : Tower) (p r : List Fraction) → length p < 2 ^ 16 → AllValid IsLowest p → poly.partial ground p ≡ Ok r →
        derive_in tower (polynomial_value p (variable 0)) ≡ polynomial_value r (variable 0) }
{}

/// A fraction is in lowest terms.
fn in_lowest_terms(fraction: &Frac)
    ensures { IsLowest fraction.now }
{
    let _numerator = fraction.num();
}

/// The coefficients of a polynomial over the fractions are in lowest terms. The laws above ask for that.
pub fn coefficients_in_lowest_terms(p: &Poly<Frac>)
    ensures { AllValid IsLowest p.now }
{
    for coefficient in p.coefficients() {
        in_lowest_terms(coefficient);
    }
}
