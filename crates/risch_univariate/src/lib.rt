//! The theory of K[t], the polynomials in one variable over a field K in which zero can be decided
//! (Bronstein, Symbolic Integration I, sections 1.2, 1.3, 1.7, 3.4 and 3.5). It has no code of its own.
//!
//! What a reader must believe stands in specs/: a polynomial is the list of its coefficients with no zero at the end (Polynomial), K[t] is a commutative ring (PolynomialRing), degree and leading coefficient (Degree),
//! division, divisibility, greatest common divisors, coprime, irreducible and square-free polynomials and multiplicities (Division), square-free parts (SquareFreeParts),
//! normal and special polynomials and the splitting factorization (SplittingFactorization).
//!
//! The main theorems: division and its uniqueness (`divide`, `division_unique`), Bezout's identity (`gcd-bezout`, `gcd_unique`), s·a + t·b = c with deg s < deg b (`diophantine`, `diophantine_unique`),
//! partial fractions (`partial_fractions`, `partial_fractions_unique`), the values p(x) as a homomorphism (`evaluation`), the derivation of K[t] with given values on K and at t (`derivation`),
//! irreducible polynomials are prime (`irreducible-prime`), ν(D(a)) = ν(a) - 1 at a normal irreducible polynomial (`multiplicity-derive`),
//! p = p_1·p_2²·p_3³·… (`product-square_free_parts`, `square_free_parts-are_parts`), the splitting factorization d = n·s (`split`, `split-special`, `split-normal`),
//! and the special polynomials where Dt lies in K or Dt = η·t with η in K (`special-primitive`, `special-exponential`).
//!
//! Not proved: that the code's rules give these polynomials (each is determined by its properties, so that this is an induction over the rule), and that every polynomial of positive degree has an irreducible factor.
//! Of the latter stands only that it cannot be refuted (`irreducible_factor`), and what follows from it where the claim is decidable (`by_irreducible_factor`).
#![tactic(auto)]
