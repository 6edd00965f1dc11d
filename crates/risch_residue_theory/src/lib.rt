//! The theory of the logarithmic part of the integral of a/d in K(t), where gcd(d, D(d)) = 1: the logarithms by residues of Rothstein and Trager in the form of Lazard, Rioboo and Trager
//! (Bronstein, Symbolic Integration I, sections 1.4, 1.5, 2.4, 2.5, 4.4 and 5.6). It has no code of its own.
//!
//! The main theorem stands in proofs/LogarithmsOfTraces: `logarithms_of_traces-primitive` for Dt in K, where the derivatives of the logarithms add up to a/d,
//! and `logarithms_of_traces-exponential` for Dt = η·t with η in K, where they add up to a/d + η·r with the sum r of the residues.
//! Its statement speaks of the polynomial of the residues by power traces and Newton's rule (NewtonPolynomial in risch_extension) and of the definitions in specs/: residues (Residue), K[z][t] (BivariatePolynomial), primitive remainder sequences of d and a - z·D(d) (RemainderSequence),
//! logarithms with their derivatives as traces (Logarithm), and their arguments by the member of degree k made monic modulo the square-free part P_k (LogarithmArgument).
//!
//! Besides there are the theorems for any polynomial of the residues (`rothstein_trager-primitive`, `rothstein_trager-exponential`), the polynomial of the residues by Newton's rule (`residue_polynomial-splits`),
//! that a pseudo-remainder divided by its content is the next primitive member (PseudoRemainder, Content), and that the argument asked for exists and is invertible modulo P_k
//! (`member_of_part`, `leading_coefficient-invertible_part`, `argument-invertible_part`).
//!
//! The same for the logarithms as they are formed, where b = a - z·D(d) at the head of the sequence is not made primitive, and a member is divided by its content where it is used (specs/RuleLogarithm):
//! - `rule_logarithms-primitive`, `rule_logarithms-exponential` (proofs/RuleLogarithms): each logarithm has a derivative f, and these add up to a/d, at an exponential to a/d + η·p_1. f is the trace of z·D(S)·T for each inverse T of S modulo R,
//!   and c·D(S(c))/S(c) where R = z - c. The square-free parts are any R_1, R_2, .. with C = R_1·R_2²·.., monic, square-free and pairwise coprime; C has constant coefficients. a may be 0;
//! - `parts-constant` (proofs/ConstantParts): then the coefficients of each R_i are constants;
//! - `rule_sequence-is_primitive`, `rule_argument-is_argument`, `rule_argument-invertible`, `rule_member_exists`, `rule_leading_coefficient-invertible` (proofs/RuleArguments): the primitive part of b and the members after it are a `PrimitiveSequence`;
//!   each S is an argument for it and is invertible modulo R, d too; for each R_i ≠ 1, i ≠ deg d, there is a member of degree i, and the leading coefficient of its primitive part is invertible modulo R_i;
//! - `derivative-is` (proofs/RuleDerivatives), `trace-any_inverse` (proofs/TracesModulo): the derivative of one logarithm, and that it does not depend on the inverse;
//! - for the step from lists of coefficients: `residue_polynomial_of_coefficients`, `rule_sequence-empty` (proofs/PrimitiveParts), `next_of_pseudo_remainder`, `divides_of_pseudo_remainder` (proofs/PseudoRemainder), `coefficient-by_powers`, `size-by_powers-le`,
//!   `by_powers-constants`, `at_point-constants` (proofs/OrderedByPowers), `newton_polynomial-is_residue_polynomial` (proofs/RuleLogarithms).
//!
//! Not proved here: that pseudo-remainders and contents, as the code forms them on lists of coefficients, are those of this theory; and that a/d with a residue that is not constant has no elementary integral.
#![tactic(auto)]
