//! The program `risch_element_rows`: it plays a table of cases over the public calls of the library of elements, and
//! tells each difference.
//!
//! The table stands on standard input. Its form is that of the tables of `risch_tables`. The lines of a case are calls, which are played
//! in order, and lines `is` with the values that they give.
//!
//! ```text
//! case the derivative of an exponential
//! push exp x^2
//! element derive t1
//! is 2*x*t1
//!
//! case a product that overflows
//! fraction mul 170141183460469231731687303715884105727 2
//! is overflow-mul
//! ```
//!
//! | Key | Value |
//! |---|---|
//! | `push`, `push-other` | `log` or `exp` and its argument: a monomial that is pushed on the tower of the case, or on another that `tower same` compares with it |
//! | `fraction`, `element`, `polynomial`, `tower` | a call of that type and its operands |
//! | `coefficients` | elements: the call that makes the polynomial with these coefficients from exponent 0 |
//! | `remainders` | the least degree, the number of coefficients of the first member, and the coefficients of the first two members from exponent 0, polynomials in z: the coefficients of each member of the primitive remainder
//! sequence, and `end` after each |
//! | `units` | two numbers, most and n: n units are counted, of which there may be that many; how many there are, and `done` or `budget` |
//! | `is` | words for the values of the calls, one for each; all such lines of a case are one |
//!
//! An operand is an expression without blanks, by the grammar of `risch_expression`, in x and t1 to t4; that of a polynomial is in z too,
//! which stands for the variable of any level. A level is a number: 0 is that of x.
//!
//! | Call | Its operands, and its values |
//! |---|---|
//! | `fraction new` | two whole numbers; the first over the second |
//! | `fraction add`, `sub`, `mul`, `div`, `neg`, `same`, `is_zero`, `is_one` | fractions |
//! | `element add`, `mul`, `div`, `neg`, `copy`, `same`, `is_zero`, `weight` | elements |
//! | `element as_num`, `level` | an element; the number that it is, or its level, or `none` |
//! | `element variable` | a level; its variable |
//! | `element num_poly`, `den_poly` | an element and a level; the polynomial at that level |
//! | `element derive` | an element; its derivative in the tower |
//! | `polynomial add`, `mul`, `neg`, `copy`, `same`, `is_zero`, `weight`, `monic`, `partial` | polynomials |
//! | `polynomial degree` | a polynomial; its degree, or `none` |
//! | `polynomial coefficient` | a polynomial and an exponent; the coefficient, or `none` |
//! | `polynomial scale` | a polynomial and an element; the multiple |
//! | `polynomial div_rem` | two polynomials; quotient and remainder |
//! | `polynomial gcd` | two polynomials; the monic common divisor |
//! | `polynomial inverse_mod` | b and a; the inverse of b modulo a, or `none` |
//! | `polynomial solve_mod` | a, b and c; r and z with b·r + a·z = c |
//! | `polynomial square_free` | a polynomial; the square-free parts of its monic multiple, and `end` |
//! | `polynomial characteristic` | d, u and a number n; the traces of u, .., u^n modulo the monic multiple of d |
//! | `polynomial split` | a polynomial and the level of its variable; the normal and the special part of its monic multiple |
//! | `element canonical` | an element and a level; its reduced and its normal part |
//! | `element order_at`, `value_at` | an element and a level; its order there, and its value where that is 0 |
//! | `element hermite` | an element, a level and a number of units; g, h and the rest of its normal part, or the stop, and how many units it cost |
//! | `element residues` | an element, a level and a number of units; of its simple part R and S in z for each logarithm, and the sum of the residues; or the power and the trace by which they are not constant; or the stop; and how many units it cost |
//! | `polynomial quotient` | two polynomials and a level; the element |
//! | `polynomial derive_poly` | a polynomial and the level of its variable; its derivative in the tower |
//! | `tower height` | the number of monomials |
//! | `tower kind`, `eta` | a level; `primitive` or `exponential`, and η |
//! | `tower pushed` | a level from 1; the argument of its monomial, and `log` or `exp` |
//! | `tower same` | whether the two towers are the same |
//!
//! A value is a fraction, an element or a polynomial, which an expression stands for where the two are the same, or a name: `yes`, `no`
//! and those above. The stop or the refusal of a call is its value too: `overflow-add`, `overflow-mul`, `overflow-div`, `size`, `budget`, `not-sound` with its element,
//! `too-high`, `zero-argument` or `constant-argument`. A call whose condition does not hold is not made: its line is badly written.
//!
//! The program prints each difference, and for each line or case that is badly written why. That counts as a difference
//! too. The last line is `N cases, M differences`. The exit status is 0 where M is 0, else 1.
#![tactic(auto)]

mod case;
mod conditions;
mod elements;
mod fractions;
mod halt;
mod operands;
mod polynomials;
mod reductions;
mod sequences;
mod towers;
mod units;
mod values;

use crate::case::ElementCase;
use risch_tables::play;
use std::io;
use std::process::ExitCode;

fn main(rt: HostRuntime) -> io::Result<ExitCode> {
    let table = io::read_to_string(rt.alloc(), rt.stdin())?;
    let report = play::<ElementCase>(rt.alloc(), table.as_str())?;
    rt.print(report.text(rt.alloc())?.as_str())?;
    Ok(report.exit_code())
}
