//! Division of polynomials in one variable over a field (Bronstein, Symbolic Integration I, sections 1.2 to 1.4): quotient and remainder, the monic common divisor,
//! the inverse modulo a polynomial, and the solution of b·r + a·z = c.
//!
//! The rules are definitions: those of division and the common divisor stand in `specs/Poly.antt` of `risch_polynomial`, those of inverses modulo a polynomial in its `specs/Modular.antt`. The contract of
//! each call is one clause, `Agrees result rule`.
//!
//! Not promised here: what the rules mean. `risch_element_theory` states that, of valid coefficients. A division by 0 has a value, which no rule asks for.
#![tactic(auto)]

mod division;
mod divisor;
mod modular;
mod steps;

pub use division::{div_rem, quo};
pub use divisor::gcd;
pub use modular::{inverse_mod, solve_mod};
