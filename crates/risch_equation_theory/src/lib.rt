//! The theory of the Risch differential equation Dy + f·y = g in K(t), with combinations g = c_1·g_1 + .. + c_m·g_m of right sides, over a field K of characteristic 0 with a derivation, for Dt = η and for Dt = η·t with η in K
//! (Bronstein, Symbolic Integration I, chapter 6 and section 7.1). It has no code of its own.
//!
//! What a reader must believe stands in specs/: the equation and its steps in K[t] (Equation), the premises on the constants of K(t) (Constants), residues that are whole numbers and the weak normalizer (WeakNormalization),
//! the characteristic polynomial of ρ modulo d (CharacteristicPolynomial), the normal denominator (NormalDenominator), what decides the degree (DegreeBound), combinations of columns (Combination).
//!
//! The main theorems, each with its statement in the file named:
//! f - D(q)/q is weakly normalized for the q of the whole roots of the characteristic polynomial (`weakly_normalized_by_roots`), and for every solution y the element y·q·h is a polynomial for Dt = η (`denominator-primitive`)
//! and has a power of t as its denominator for Dt = η·t (`denominator-exponential`): proofs/DenominatorsOfSolutions;
//! the equation for y·h, and for a multiple by a power of t, both ways: proofs/Solutions;
//! the order of a pole at t (`bound-below`, `bound-at`, `bound-above`): proofs/SpecialOrderBound;
//! the degree of a polynomial solution (`bound-exponential-right`, `-left`, `-cancel`, `bound-primitive-right`, `-left`, `-below`, `-top`, `-cancel`): proofs/DegreeBound, where the candidate is the only one: proofs/UniqueCandidate;
//! the polynomial part of a logarithmic derivative (`polynomial_part-primitive`, `polynomial_part-exponential`): proofs/LogarithmicDerivatives;
//! the steps of the SPDE reduction, both ways and with the bound (`step_of_solution`, `solution_of_step`, `size-step`): proofs/SpdeReduction, and on all columns at once: proofs/Combinations;
//! the highest coefficient and the rest (`top-determined`, `asked-primitive`, `asked-exponential`): proofs/TopCoefficient, CombinedColumns;
//! the premises from 'an element of K(t) with derivative 0 lies in K' (`sound-primitive`, `sound-exponential`): proofs/ConstantsOfFractions;
//! the characteristic polynomial of ρ modulo a monic square-free d by power traces (`characteristic_of_traces`): proofs/CharacteristicPolynomial.
//!
//! Not proved here: that the search for the whole roots of the characteristic polynomial finds each of them once, which is a premise of `weakly_normalized_by_roots`; the linear conditions through all levels of a tower;
//! the whole equation as one statement on the space of its solutions, by induction on the level; and that the code's rules form these values. The bounds on poles and degrees are inequalities: that they are attained is not said.
#![tactic(auto)]
