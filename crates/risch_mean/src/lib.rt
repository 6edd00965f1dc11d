//! What the elements of a tower of logarithms and exponentials over Q(x) mean: the definitions that a reader of the other crates has to believe, with their laws.
//!
//! In the order of `specs/Lib.antt`: polynomials, elements, the derivation of a tower (Bronstein, Symbolic Integration I, chapters 3 and 5), sound towers, the value of a written expression, the
//! algebra modulo a polynomial and its trace, answers and integrals (chapter 5), Risch differential equations and their solutions (chapters 6 and 7), residues that are not constant (chapter 5),
//! chains of reductions, and Liouville's form (chapter 5). The laws are in `proofs/`, and so are examples: for each definition what must hold of it at closed terms, and what must not.
//!
//! The calls do nothing. Each contract states a law for all towers, so that the check of this crate proves it. No contract says that a given tower with a monomial is sound, nor that an element
//! which has no integral in a tower has none in any larger field.
#![tactic(auto)]

ghost use Rattle.risch_mean.specs.Answer.{Answer, HasDerivative};
ghost use Rattle.risch_mean.specs.Constants.{IsSoundTo};
ghost use Rattle.risch_mean.specs.Element.{Element, level, one, variable, ◌*ₑ◌, ◌+ₑ◌, ◌/ₑ◌};
ghost use Rattle.risch_mean.specs.ElementField.{elements};
ghost use Rattle.risch_mean.specs.ElementPolynomials.{at_variable};
ghost use Rattle.risch_mean.specs.Tower.{InTower, IsTower, Tower, derivative_of, derive_in, exp, kind_of, log};
ghost use Rattle.risch_ring.specs.CommRing.{Derivation};
ghost use Rattle.std.specs.Prelude.{◌++◌, ◌≡◌, ◌≤◌, ◌∷◌, length, ℕ};

/// The derivation of a tower: D(f + g) = Df + Dg, D(f·g) = Df·g + f·Dg, Dx = 1, Dt = Da/a for the variable t of a monomial log a, and Dt = Da·t for that of exp a.
pub fn derivation_of_a_tower()
    ensures sum { (tower : Tower) (f g : Element) → derive_in tower (f +ₑ g) ≡ derive_in tower f +ₑ derive_in tower g }
    ensures product { (tower : Tower) (f g : Element) → derive_in tower (f *ₑ g) ≡ derive_in tower f *ₑ g +ₑ f *ₑ derive_in tower g }
    ensures x { (tower : Tower) → derive_in tower (variable 0) ≡ one }
    ensures logarithm { (before : Tower) (a : Element) (after : Tower) →
        let tower = before ++ (log a ∷ after) in
        let t = variable (level (length before)) in
        IsTower tower → derive_in tower t ≡ derive_in tower a /ₑ a }
    ensures exponential { (before : Tower) (a : Element) (after : Tower) →
        let tower = before ++ (exp a ∷ after) in
        let t = variable (level (length before)) in
        IsTower tower → derive_in tower t ≡ derive_in tower a *ₑ t }
    // The kind of level n says what Dt is for its variable t: η or η·t.
    ensures kinds { (tower : Tower) (n : ℕ) → n ≤ length tower → IsTower tower →
        derive_in tower (variable n) ≡ at_variable n (derivative_of (kind_of tower n)) }
{}

/// The derivation of a tower is the only one that has its values at x, t1, .., tn.
pub fn derivation_is_unique()
    ensures { (tower : Tower) (D : Derivation elements.ring) →
        ((i : ℕ) → i ≤ length tower → D.derive (variable i) ≡ derive_in tower (variable i)) →
        (f : Element) → InTower tower f → D.derive f ≡ derive_in tower f }
{}

/// Every tower is sound to level 0: a rational function f in x with Df = 0 is a rational number.
///
/// D is the derivation of the whole tower, and nothing is asked of its monomials. So no premise is needed where an equation lies in Q(x).
pub fn trivial_tower_is_sound()
    ensures { (tower : Tower) → IsSoundTo tower (level 0) }
{}

/// A tower that is sound to a field is sound to each smaller one.
pub fn sound_to_lower_fields()
    ensures { (tower : Tower) (m n : ℕ) → m ≤ n → IsSoundTo tower n → IsSoundTo tower m }
{}

/// An answer has at most one derivative, so it is an integral of at most one element.
pub fn answer_has_one_derivative()
    ensures { (tower : Tower) (answer : Answer) (f g : Element) → HasDerivative tower answer f → HasDerivative tower answer g → f ≡ g }
{}
