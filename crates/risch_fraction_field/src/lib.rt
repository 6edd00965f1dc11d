//! The theory of K(t), the rational functions in one variable over a field K in which zero can be decided, with a derivation
//! (Bronstein, Symbolic Integration I, sections 2.2, 3.2, 3.4, 4.1 and 5.3). It has no code of its own.
//!
//! What a reader must believe stands in specs/: a rational function has a monic denominator and a coprime numerator, `Represents` says that it is a/b, and the operations are those of a/b and c/d (Fraction);
//! K(t) is a field that contains K[t] (FractionField); a derivation of K[t] extends by the quotient rule (FractionDerivation);
//! the step of a tower from K to K(t) with a given Dt in K[t] (DifferentialField); the order at an irreducible polynomial (Order).
//!
//! The main theorems: a/b = c/d only where a·d = c·b (`represents_unique`, `represents_same`), the field `fractions`, the derivation `fraction_derivation` with D(a/b) = (D(a)·b - a·D(b))/b² (`represents-derive`),
//! ν(f·g) = ν(f) + ν(g) (`order-mul`), ν(f + g) = ν(f) for ν(f) < ν(g) (`order-add`), ν(D(f)) = ν(f) - 1 at a normal prime with ν(f) ≠ 0 (`order-derive`), ν(D(f)) ≥ ν(f) at a special one (`order-derive_special`),
//! and one step of Hermite's reduction (`hermite_step`).
//!
//! Not proved here: the loop of Hermite's reduction over the square-free parts, and that the code's rules give these fractions.
#![tactic(auto)]
