//! The theory of the rules on polynomials and elements: what the rules of risch_polynomial and risch_level mean in K[t] and K(t) (Bronstein, Symbolic Integration I, sections 1.1 to 1.4 and 3.2).
//! The calls do nothing: each contract states a law, so that the check of this crate proves it.
//!
//! What a reader must believe stands in specs/: a list of coefficients p, each of which stands for an element of a field K, stands for the polynomial ⟦p⟧ = p_0 + p_1·t + .. of K[t], and is kept where its last coefficient is not 0 (PolynomialMeaning);
//! what the rules of the inverse modulo a polynomial and of b·r + a·z = c mean (ModularMeaning; the rules stand in risch_polynomial's Modular);
//! what the elements of a level stand for and which are valid (ElementMeaning), and those of every height (LevelMeaning);
//! what those of the whole tower stand for, which are in normal form, and which variables occur in them (WholeTower);
//! the operations of K[t] on its polynomials (ElementPolynomials);
//! what it says that the rule of risch_derivation derives the elements of a tower (DerivationMeaning), and the same for the whole tower (ElementDerivation).
//!
//! The main theorems: the rules form sums, products, multiples and derivatives (`sum-polynomial`, `product-polynomial`, `scaled-polynomial`, `negatives-polynomial`, `monomial-polynomial`, `partial-polynomial`),
//! kept lists have the size of their polynomial and are determined by it (`size-polynomial_of`, `polynomial_of-injective`), the rule of division gives quotient and remainder (`division-is_division`), the quotient by a divisor is exact (`quo-exact`),
//! the rule of the monic multiple gives p/lc(p) (`monic-polynomial`), the rule of the common divisor the monic greatest common divisor (`gcd-is_gcd`, `gcd-polynomial`),
//! and the modular rules give the inverse and the solution, or none only where the polynomials are not coprime (`inverse-means`, `solve-means`).
//! An element of the level over a field stands for one element of K(t), the rules of sum, product, negative and quotient with their normal forms are those of the field, and an element is determined by what it stands for
//! (`over_means`, `represents_unique`); so it is at every level of the tower, where `same` decides equality (`level_means`, `level_lies`, `level_same`, `level_variable`, `element_means`).
//! The sum, the product, the quotient and the negative of elements of the whole tower are in normal form, stand for those of the field (`sum-is_element`, `sum-stands`, ..), and no variable occurs in them that is
//! higher than those of the operands (`sum-element-within`, ..); a fraction and the variable of a level stand for themselves (`number-stands`, `variable-stands`).
//! The rules on polynomials over the whole tower give polynomials that stand for those of K[t] (`sum-is_polynomial`, `sum-stands`, `division-stands`, `gcd-stands`, `inverse-stands`, `solve-stands`, ..), a property of elements that the
//! operations keep holds of each coefficient that they form (CoefficientProperties), and so no variable occurs in them that is higher than those of the operands (`sum-within`, `gcd-within`, ..).
//! At each level of the whole tower the numerator n and the denominator m of an element are polynomials over what lies below the level, m is monic, and an element within the level stands for n(t)/m(t) at the variable t;
//! the rule of the quotient of two such polynomials p and q gives an element within the level that stands for p(t)/q(t) (`numerator-is_polynomial`, `denominator-is_monic`, `parts-stand`, `quotient-is_element`, `quotient-stands`).
//!
//! The rule of the derivation is the derivation: of polynomials (`derive_polynomial-means`), of the elements of a level (`derive_over-means`), and of those of a tower, where D is that of risch_mean (`derive-means`).
//! It leads to no new variable (`derive-within`), and the rates that the rule forms for log a and exp a are those of the tower with this monomial above it (`rates-adjoined`, `logarithm-rate`, `exponential-rate`); the same for the elements of the whole tower (ElementDerivation).
//!
//! Not proved here: that code computes these rules. The contracts of risch_polynomial, risch_level and risch_derivation say so, rule by rule, of their calls; the laws here are about the rules, for valid elements.
#![tactic(auto)]

ghost use Rattle.std.specs.Prelude.{◌≡◌, ◌↔◌, ℕ, true, Ok, List, [], ◌∷◌};
ghost use Rattle.risch_mean.specs.Element.{InField, variable};
ghost use Rattle.risch_mean.specs.ElementField.{elements};
ghost use Rattle.risch_level.specs.Levels.{Field, field};
ghost use Rattle.risch_polynomial_theory.specs.Meaning.{Interprets};
ghost use Rattle.risch_polynomial.specs.Poly as poly;
ghost use Rattle.risch_derivation.specs.Derivation.{Rates, derive};
ghost use Rattle.risch_element_theory.specs.DerivationMeaning.{AreRatesOf};
ghost use Rattle.risch_element_theory.specs.LevelMeaning.{meaning_at, valid_at};
ghost use Rattle.risch_mean.specs.Tower.{IsTower, Tower, derive_in};
ghost use Rattle.risch_element_theory.specs.PolynomialMeaning.{IsKept, KeepsDivision, KeepsGcd};

/// Every level of a tower: a valid element stands for one element of the field of its height; the rules of sum, product, negative and quotient, where they give a value, are the operations of the field; two valid elements are
/// the same exactly where they stand for the same.
pub fn elements_stand_for_a_field()
    ensures rules { (height : ℕ) → Interprets (field height) elements.ring (valid_at height) (meaning_at height) }
    ensures lies { (height : ℕ) (e : Field height) → valid_at height e → InField height (meaning_at height e) }
    ensures same { (height : ℕ) (p q : Field height) → valid_at height p → valid_at height q →
        ((field height).same p q ≡ true → meaning_at height p ≡ meaning_at height q) × (meaning_at height p ≡ meaning_at height q → (field height).same p q ≡ true) }
{}

/// Polynomials over every level: where the rule of division gives a and r, p = a·q + r with deg r < deg q; where the rule of the common divisor gives g, it is the monic greatest common divisor of p and q.
pub fn division_and_common_divisor()
    ensures division { (height : ℕ) (p q a r : List (Field height)) → IsKept (field height) (valid_at height) p → IsKept (field height) (valid_at height) q → ¬ (q ≡ []) →
        poly.division (field height) p q ≡ Ok (a, r) → KeepsDivision (field height) elements (valid_at height) (meaning_at height) p q a r }
    ensures gcd { (height : ℕ) (p q g : List (Field height)) → IsKept (field height) (valid_at height) p → IsKept (field height) (valid_at height) q → (p ≡ [] → q ≡ [] → ⊥) →
        poly.gcd (field height) p q ≡ Ok g → KeepsGcd (field height) elements (valid_at height) (meaning_at height) g p q }
{}

/// The derivation of a tower: where the rule gives f for a valid element e, f stands for De, with Dx = 1, Dt = Da/a for t = log a and Dt = Da·t for t = exp a; the variables past the end of the tower are constants.
pub fn derivation_of_elements()
    ensures { (tower : Tower) → IsTower tower → (height : ℕ) (rates : Rates height) → AreRatesOf tower height rates →
        (e f : Field height) → valid_at height e → derive height rates e ≡ Ok f →
        valid_at height f × (meaning_at height f ≡ derive_in tower (meaning_at height e)) }
{}
