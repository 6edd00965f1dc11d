//! The logarithms of the integral over a level of a tower, as elements of the tower: those by residues over K(t), where K is the field of the elements below the level and t its variable, have as derivatives the values at t of the
//! derivatives in K(t) (Bronstein, Symbolic Integration I, sections 2.5, 3.4 and 5.6). It has no code of its own.
//!
//! What a reader must believe stands in specs/: K, K[t], the values at t of fractions over K, and D on K with Dt in K[t] (FieldBelow); which logarithms over the level stand for which over K(t), and that their derivatives add up to f (LogarithmElements).
//!
//! The main theorems: the logarithms over a level that stand for logarithms by residues whose derivatives add up to h in K(t) have derivatives by the definitions of risch_mean, which add up to h(t); the moduli are coprime to their derivatives
//! (`logarithms_derivative`, and `part_derivative` for one of them, in LogarithmDerivatives).
//! A polynomial over all elements with coefficients in K is one of K[t], with the same degree, quotients, remainders, divisors, greatest common divisors, derivatives and square-free parts
//! (`included-lift`, `lift-division`, `lift-divides`, `lift-coprime`, `included-gcd`, `lift-derivative`, `lift-are_parts`, `lift-product_of_powers` in FieldBelow);
//! p/q ↦ p(t)/q(t) is an injective homomorphism from K(t) to the elements, which commutes with the derivations, and its values lie in the field of the level
//! (`evaluation_below-polynomial`, `evaluation_below-injective`, `evaluation_below-derive`, `evaluation_below-lies`).
//! The same holds of any homomorphism of fields and any transcendental element (MappedPolynomials, FractionEvaluation). The trace modulo a polynomial by lists of coefficients is that by polynomials (`trace-by_list` in TracesByLists).
//! For S in K[z][t] by its coefficients c_0, c_1, .. in K[z], the values at t of its coefficients by powers of z and of S(c) are Σ (c_i)_k·t^i and Σ c_i(c)·t^i (`value-coefficient`, `value-at_point` in LogarithmArguments).
//!
//! Not proved here: that the rule of the logarithms gives lists of coefficients that stand for logarithms by residues.
#![tactic(auto)]
