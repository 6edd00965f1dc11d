//! The theory of commutative rings with one, of fields in which zero can be decided, and of derivations, on which the crates above stand
//! (Bronstein, Symbolic Integration I, sections 1.1 and 3.1).
//!
//! What a reader must believe stands in specs/: `CommRing`, `IsDomain`, `HasCharacteristicZero`, `Field`, `Derivation` and `RingMap` with x^n, n·1 and x/y (CommRing),
//! finite sums and products (Sums), the ring of the integers (Integers), and the operations as operators (Operators).
//! What follows stands in proofs/. The solver `ring` proves an identity that holds in every commutative ring, `linear` one that follows from equations
//! with given factors, and `field` one between quotients whose denominators are not zero: the normal form of an expression has the value of
//! the expression (`normal-both`), so two sides with one normal form are equal.
//! Besides there are the laws of fields (FieldLaws), domains with `ints_domain` and `field_domain` (Domains), derivations (Derivations, QuotientRule), homomorphisms (RingMaps), and finite sums and products (Sums).
//!
//! Not proved: that the solver finds every identity. It stops at expressions of degree 256 and more, and knows at most twenty variables.
#![tactic(auto)]

ghost use Rattle.std.specs.Prelude.{◌≡◌, pos, neg_ℤ, ◌+ℤ◌, ◌-ℤ◌, ◌*ℤ◌, ◌≤ℤ◌};

/// x² - y², by one multiplication: an identity over the integers, which the ring solver proves.
pub fn difference_of_squares(x: i64, y: i64) -> i64
    requires sum_low { neg_ℤ (pos 1000000) ≤ℤ (x +ℤ y) }
    requires sum_high { (x +ℤ y) ≤ℤ pos 1000000 }
    requires difference_low { neg_ℤ (pos 1000000) ≤ℤ (x -ℤ y) }
    requires difference_high { (x -ℤ y) ≤ℤ pos 1000000 }
    ensures { result ≡ x *ℤ x -ℤ y *ℤ y }
{
    (x + y) * (x - y)
}
