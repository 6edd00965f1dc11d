//! The steps of the division of a list of coefficients by another.

ghost use Rattle.std.specs.Prelude.{◌≡◌, ◌≤◌, ◌<◌, ◌+◌, vec_len, length};
ghost use Rattle.risch_field.specs.Checked.{AgreesWith};
ghost use Rattle.risch_polynomial.specs.Poly as poly;

use risch_field::{Arith, Fail};
use risch_polynomial::coefficients::{add_row, trim};
use std::alloc::Global;

/// One step of a division by q, with u = 1/lc(q): for e = deg r - deg q and c = lc(r)·u, the quotient gets c at exponent e,
/// and r becomes r - c·t^e·q, whose leading coefficient is dropped unformed.
#[tactic(auto, using(risch_field::proofs::CheckedSteps::stop_passes, risch_field::proofs::CheckedSteps::value_passes), unfolding(risch_polynomial::specs::Poly::step))]
fn divide_once<E: Arith>(
    alloc: Global,
    quotient: &mut Vec<E>,
    rest: &mut Vec<E>,
    inverse: &E,
    by: &[E],
) -> Result<(), Fail>
    requires some { 0 < length by.now }
    requires enough { length by.now ≤ vec_len rest.old }
    requires room { vec_len rest.old < vec_len quotient.old + length by.now }
    ensures value { AgreesWith result (quotient.new.items, rest.new.items) (poly.step E.ops quotient.old.items rest.old.items inverse.now by.now) }
    ensures shorter { vec_len rest.new ≤ vec_len rest.old }
    ensures len { vec_len quotient.new ≡ vec_len quotient.old }
{
    let shift = rest.len() - by.len();
    let factor = rest[rest.len() - 1].mul(alloc, inverse)?;
    rest.truncate(rest.len() - 1);
    add_row(alloc, true, rest, shift, &factor, &by[..by.len() - 1])?;
    trim(rest);
    quotient[shift] = factor;
    Ok(())
}

/// Steps of a division until r is 0 or deg r < deg q.
#[tactic(auto, using(crate::proofs::DivisionSteps::divided_done, crate::proofs::DivisionSteps::divided_more, crate::proofs::DivisionSteps::divided_stops))]
pub(crate) fn divide<E: Arith>(
    alloc: Global,
    quotient: &mut Vec<E>,
    rest: &mut Vec<E>,
    inverse: &E,
    by: &[E],
) -> Result<(), Fail>
    requires some { 0 < length by.now }
    requires room { vec_len rest.old < vec_len quotient.old + length by.now }
    ensures { AgreesWith result (quotient.new.items, rest.new.items) (poly.divided E.ops (vec_len rest.old) quotient.old.items rest.old.items inverse.now by.now) }
{
    for _step in 0..rest.len() {
        if rest.len() < by.len() {
            return Ok(());
        }
        divide_once(alloc, quotient, rest, inverse, by)?;
    }
    Ok(())
}
