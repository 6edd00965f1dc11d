//! The theory of the extensions of a field K of characteristic 0 with a derivation in which a polynomial splits, of traces, and of sums over the roots
//! (Bronstein, Symbolic Integration I, sections 2.4, 3.2 and 4.4). It has no code of its own.
//!
//! What a reader must believe stands in specs/: K[z]/(P) as a ring, a field and a differential field (ResidueRing, ResidueField), a homomorphism of fields on polynomials (PolynomialMap),
//! t - x and Π (t - x_i) (LinearFactors), `Extension` and `Splitting` (Extension), the trace over K[z]/(P) (Trace), elementary symmetric functions and power sums (SymmetricFunctions), the characteristic polynomial by power traces and Newton's rule (NewtonPolynomial).
//!
//! The main theorems: for d ≠ 0 there is an extension in which d = c·Π (t - x_i) (`splitting`, doubly negated; `by_splitting` gives what follows from it and is stable), Lagrange's interpolation (`lagrange`),
//! the trace of u modulo Π (t - x_i) is Σ u(x_i) (`trace-at_roots`), Newton's identities and that they determine the elementary symmetric functions (`newton`, `newton_unique`, `coefficient-product_of_linear`), so that power traces give Π (z - ρ(x_i)) (`power_trace-sum`, `newton_polynomial-splits`),
//! gcd(Π (t - x_i), p) is the product of the t - x_i with p(x_i) = 0 (`gcd-at_roots`), and, with α_i·D(d)(x_i) = a(x_i),
//! Σ α_i·D(t - x_i)·d/(t - x_i) = a for Dt in K (`residues-primitive`), = η·(Σ α_i)·d + a for Dt = η·t (`residues-exponential`).
//!
//! Not proved: that a splitting field exists outright, since irreducible factors over an abstract field cannot be found.
#![tactic(auto)]
