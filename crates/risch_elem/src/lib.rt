//! Elements of a tower of fields over Q, and polynomials over them (Bronstein, Symbolic Integration I, chapters 1 and 2).
//!
//! [`Elem`] is an element of the tower of five levels, x and four monomials, in normal form at every level. It stands for one element of the field
//! Q(x)(t1)..(t4), and two are the same exactly where they stand for the same.
//!
//! [`Poly`] is a polynomial over the elements, of degree at most 255 and weight at most 65536. It stands for one polynomial over the field of all elements, and two are the same exactly where they stand for the same.
//!
//! The contract of an operation says its value by its rule (`rule`), what it stands for (`meaning`), and which variables occur in it (`within`).
//!
//! A long run counts its steps by [`Units`]: a [`Run`] answers a value, a [`Stop`], that it was left from outside, or want of memory.
//!
//! A list in a public type is of [`Items`], which contracts see as a list.
#![tactic(auto)]

mod accessors;
mod arithmetic;
mod elem;
mod lists;
mod nested;
mod parts;
mod polynomial;
mod units;
mod variables;

pub use elem::Elem;
pub use lists::{Copied, ElemList, FracList, Items, NumberList, PolyList};
pub use polynomial::Poly;
pub use risch_field::Fail;
pub use risch_polynomial::MOST_DEGREE;
pub use units::{Case, Counter, Run, Stop, Units};
