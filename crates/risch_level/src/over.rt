//! The field E(t) of rational functions in one more variable t over a field E.
//!
//! An element is one of E, or n/m with polynomials n and m over E: m is monic, and t occurs in n or m. An element e of E counts as e/1.

ghost use Rattle.std.specs.Prelude.{◌≡◌, ◌≤◌, IfOk, IsFalse};
ghost use Rattle.risch_field.specs.Checked.{Agrees, map_ok};
ghost use Rattle.risch_level.specs.Over as spec;
ghost use Rattle.risch_level.specs.declared.over.Over.TheVariants.{Below, Quotient};

use risch_division::{gcd, quo};
use risch_field::{Arith, Fail};
use risch_polynomial::Poly;
use std::alloc::{AllocError, Global};
use std::marker::Model;

/// n/m, where n and m have together the weight 65536 at most.
#[derive(Drop)]
pub struct Ratio<E: Arith> {
    pub(crate) num: Poly<E>,
    pub(crate) den: Poly<E>,
}

impl<E: Arith> Model for Ratio<E> {
    ghost use Rattle.std.specs.Prelude.{List, ◌+◌, ◌≤◌};
    ghost use Rattle.std.specs.Coded.{coded×, coded_list};
    ghost use Rattle.risch_polynomial.specs.Poly as poly;

    ghost Value = { List E × List E };

    ghost coded = { coded× (coded_list E.code) (coded_list E.code) };

    ghost view = { λ r. (r.num, r.den) };

    ghost invariant = { λ r. poly.weight E.ops r.num + poly.weight E.ops r.den ≤ 65536 };
}

/// An element of E(t): one of E, or a quotient in which t occurs.
#[derive(Drop)]
pub enum Over<E: Arith> {
    Below(E),
    Quotient(Ratio<E>),
}

/// The answer of the field below as an element of the level.
pub fn below<E: Arith>(answer: Result<E, Fail>) -> Result<Over<E>, Fail>
    ensures { result ≡ map_ok Below answer }
{
    match answer {
        Ok(value) => Ok(Over::Below(value)),
        Err(fail) => Err(fail),
    }
}

/// n/m. Stops: Size where its weight is above 65536.
fn quotient<E: Arith>(num: Poly<E>, den: Poly<E>) -> Result<Over<E>, Fail>
    ensures { Agrees result (spec.ratio E.ops num den) }
{
    if num.weight() + den.weight() > 65536 {
        return Err(Fail::Size);
    }
    Ok(Over::Quotient(Ratio { num, den }))
}

/// n/m for coprime n and m, m monic: an element of E where m = 1 and n is constant.
///
/// Stops: Size where its weight is above 65536.
#[tactic(auto, using(risch_field::proofs::CheckedSteps::stop_passes, risch_field::proofs::CheckedSteps::value_passes), unfolding(crate::specs::Over::element))]
pub fn element<E: Arith>(num: Poly<E>, den: Poly<E>) -> Result<Over<E>, Fail>
    ensures { Agrees result (spec.element E.ops num den) }
{
    if den.is_one() && num.is_constant() {
        return Ok(Over::Below(num.into_constant()));
    }
    quotient(num, den)
}

/// n/g and m/g for a common divisor g; for g = 1 nothing is formed.
#[tactic(auto, using(risch_field::proofs::CheckedSteps::stop_passes, risch_field::proofs::CheckedSteps::value_passes), unfolding(crate::specs::Over::divided))]
fn divided<E: Arith>(
    alloc: Global,
    divisor: &Poly<E>,
    num: &Poly<E>,
    den: &Poly<E>,
) -> Result<(Poly<E>, Poly<E>), Fail>
    ensures { Agrees result (spec.divided E.ops divisor.now num.now den.now) }
{
    if divisor.is_one() {
        return Ok((num.copy(alloc)?, den.copy(alloc)?));
    }
    let num = quo(alloc, num, divisor)?;
    let den = quo(alloc, den, divisor)?;
    Ok((num, den))
}

/// u·n and u·m with u = 1/lc(m); for lc(m) = 1 nothing is formed.
#[tactic(auto, using(risch_field::proofs::CheckedSteps::stop_passes, risch_field::proofs::CheckedSteps::value_passes), unfolding(crate::specs::Over::scaled))]
fn scaled<E: Arith>(alloc: Global, num: Poly<E>, den: Poly<E>) -> Result<(Poly<E>, Poly<E>), Fail>
    ensures { Agrees result (spec.scaled E.ops num den) }
{
    if den.is_monic() {
        return Ok((num, den));
    }
    let inverse = den.inverse_of_last(alloc)?;
    let num = num.scale(alloc, &inverse)?;
    let den = den.scale(alloc, &inverse)?;
    Ok((num, den))
}

/// n/m for coprime n and m, with a monic denominator.
#[tactic(auto, using(risch_field::proofs::CheckedSteps::stop_passes, risch_field::proofs::CheckedSteps::value_passes))]
fn scaled_element<E: Arith>(alloc: Global, num: Poly<E>, den: Poly<E>) -> Result<Over<E>, Fail>
    ensures { Agrees result (spec.scaled_element E.ops num den) }
{
    let (num, den) = scaled(alloc, num, den)?;
    element(num, den)
}

/// n/m without the common divisor of n and m, with a monic denominator.
#[tactic(auto, using(risch_field::proofs::CheckedSteps::stop_passes, risch_field::proofs::CheckedSteps::value_passes))]
fn lowest_terms<E: Arith>(alloc: Global, num: &Poly<E>, den: &Poly<E>) -> Result<Over<E>, Fail>
    ensures { Agrees result (spec.lowest_terms E.ops num.now den.now) }
{
    let divisor = gcd(alloc, num, den)?;
    let (num, den) = divided(alloc, &divisor, num, den)?;
    scaled_element(alloc, num, den)
}

/// The normal form of n/m: without the common divisor of n and m, and with a monic denominator.
///
/// Stops: those of the common divisor, of the divisions by it and of 1/lc(m); Size where the weight is above 65536.
#[tactic(auto, unfolding(crate::specs::Over::normal_form))]
pub fn normal_form<E: Arith>(alloc: Global, num: Poly<E>, den: Poly<E>) -> Result<Over<E>, Fail>
    ensures { Agrees result (spec.normal_form E.ops num den) }
{
    if num.is_zero() {
        return Ok(Over::Below(E::zero()));
    }
    if den.is_one() {
        return element(num, den);
    }
    lowest_terms(alloc, &num, &den)
}

/// The normal form of (n + n')/m.
#[tactic(auto, using(risch_field::proofs::CheckedSteps::stop_passes, risch_field::proofs::CheckedSteps::value_passes))]
fn sum_over<E: Arith>(
    alloc: Global,
    num: &Poly<E>,
    num2: &Poly<E>,
    den: &Poly<E>,
) -> Result<Over<E>, Fail>
    ensures { Agrees result (spec.sum_over E.ops num.now num2.now den.now) }
{
    let sum = num.add(alloc, num2)?;
    normal_form(alloc, sum, den.copy(alloc)?)
}

/// (n + n'·m)/m.
#[tactic(auto, using(risch_field::proofs::CheckedSteps::stop_passes, risch_field::proofs::CheckedSteps::value_passes))]
fn sum_with_polynomial<E: Arith>(
    alloc: Global,
    num: &Poly<E>,
    den: &Poly<E>,
    num2: &Poly<E>,
) -> Result<Over<E>, Fail>
    ensures { Agrees result (spec.sum_with_polynomial E.ops num.now den.now num2.now) }
{
    let right = num2.mul(alloc, den)?;
    let sum = num.add(alloc, &right)?;
    element(sum, den.copy(alloc)?)
}

/// (n·m' + n')/m'.
#[tactic(auto, using(risch_field::proofs::CheckedSteps::stop_passes, risch_field::proofs::CheckedSteps::value_passes))]
fn polynomial_with_sum<E: Arith>(
    alloc: Global,
    num: &Poly<E>,
    num2: &Poly<E>,
    den2: &Poly<E>,
) -> Result<Over<E>, Fail>
    ensures { Agrees result (spec.polynomial_with_sum E.ops num.now num2.now den2.now) }
{
    let left = num.mul(alloc, den2)?;
    let sum = left.add(alloc, num2)?;
    element(sum, den2.copy(alloc)?)
}

/// The normal form of (n·m' + n'·m)/(m·m').
#[tactic(auto, using(risch_field::proofs::CheckedSteps::stop_passes, risch_field::proofs::CheckedSteps::value_passes))]
fn sum_over_product<E: Arith>(
    alloc: Global,
    num: &Poly<E>,
    den: &Poly<E>,
    num2: &Poly<E>,
    den2: &Poly<E>,
) -> Result<Over<E>, Fail>
    ensures { Agrees result (spec.sum_over_product E.ops num.now den.now num2.now den2.now) }
{
    let left = num.mul(alloc, den2)?;
    let right = num2.mul(alloc, den)?;
    let sum = left.add(alloc, &right)?;
    let product = den.mul(alloc, den2)?;
    normal_form(alloc, sum, product)
}

/// n/m + n'/m': the normal form of (n + n')/m where m = m', (n + n'·m)/m where m' = 1, (n·m' + n')/m' where m = 1, and else the
/// normal form of (n·m' + n'·m)/(m·m').
#[tactic(auto, unfolding(crate::specs::Over::quotient_sum))]
fn quotient_sum<E: Arith>(
    alloc: Global,
    num: &Poly<E>,
    den: &Poly<E>,
    num2: &Poly<E>,
    den2: &Poly<E>,
) -> Result<Over<E>, Fail>
    ensures { Agrees result (spec.quotient_sum E.ops num.now den.now num2.now den2.now) }
{
    if den.same(den2) {
        return sum_over(alloc, num, num2, den);
    }
    if den2.is_one() {
        return sum_with_polynomial(alloc, num, den, num2);
    }
    if den.is_one() {
        return polynomial_with_sum(alloc, num, num2, den2);
    }
    sum_over_product(alloc, num, den, num2, den2)
}

/// e + n/m, or n/m + e, for e in E; for e = 0 nothing is formed.
#[tactic(auto, using(risch_field::proofs::CheckedSteps::stop_passes, risch_field::proofs::CheckedSteps::value_passes), unfolding(crate::specs::Over::sum_with))]
fn sum_with<E: Arith>(
    alloc: Global,
    left: bool,
    below: &E,
    ratio: &Ratio<E>,
) -> Result<Over<E>, Fail>
    ensures { Agrees result (spec.sum_with E.ops left below.now (Quotient ratio.now) ratio.now.0 ratio.now.1) }
{
    if below.is_zero() {
        return Ok(Over::Quotient(ratio.copy(alloc)?));
    }
    let constant = Poly::constant(alloc, below.copy(alloc)?)?;
    let one = Poly::one(alloc)?;
    if left {
        quotient_sum(alloc, &constant, &one, &ratio.num, &ratio.den)
    } else {
        quotient_sum(alloc, &ratio.num, &ratio.den, &constant, &one)
    }
}

/// e·(n/m) = (e·n)/m for e in E; for e = 0 and for e = 1 nothing is formed.
#[tactic(auto, using(risch_field::proofs::CheckedSteps::stop_passes, risch_field::proofs::CheckedSteps::value_passes), unfolding(crate::specs::Over::scaled_product))]
fn scaled_product<E: Arith>(alloc: Global, by: &E, ratio: &Ratio<E>) -> Result<Over<E>, Fail>
    ensures { Agrees result (spec.scaled_product E.ops by.now (Quotient ratio.now) ratio.now.0 ratio.now.1) }
{
    if by.is_zero() {
        return Ok(Over::Below(by.copy(alloc)?));
    }
    if by.is_one() {
        return Ok(Over::Quotient(ratio.copy(alloc)?));
    }
    let num = ratio.num.scale(alloc, by)?;
    element(num, ratio.den.copy(alloc)?)
}

/// (n/m)·(n'/m'), the normal form of (n·n')/(m·m').
#[tactic(auto, using(risch_field::proofs::CheckedSteps::stop_passes, risch_field::proofs::CheckedSteps::value_passes), unfolding(crate::specs::Over::quotient_product))]
fn quotient_product<E: Arith>(
    alloc: Global,
    num: &Poly<E>,
    den: &Poly<E>,
    num2: &Poly<E>,
    den2: &Poly<E>,
) -> Result<Over<E>, Fail>
    ensures { Agrees result (spec.quotient_product E.ops num.now den.now num2.now den2.now) }
{
    let top = num.mul(alloc, num2)?;
    if den.is_one() && den2.is_one() {
        return normal_form(alloc, top, den.copy(alloc)?);
    }
    let bottom = den.mul(alloc, den2)?;
    normal_form(alloc, top, bottom)
}

/// a·b.
fn product<E: Arith>(alloc: Global, left: &Over<E>, right: &Over<E>) -> Result<Over<E>, Fail>
    ensures { Agrees result (spec.product E.ops left.now right.now) }
{
    match left {
        Over::Below(a) => match right {
            Over::Below(b) => below(a.mul(alloc, b)),
            Over::Quotient(second) => scaled_product(alloc, a, second),
        },
        Over::Quotient(first) => match right {
            Over::Below(b) => scaled_product(alloc, b, first),
            Over::Quotient(second) => quotient_product(
                alloc,
                &first.num,
                &first.den,
                &second.num,
                &second.den,
            ),
        },
    }
}

/// 1/(n/m) = (u·m)/(u·n) with u = 1/lc(n), for n other than 0.
#[tactic(auto, using(risch_field::proofs::CheckedSteps::stop_passes, risch_field::proofs::CheckedSteps::value_passes), unfolding(crate::specs::Over::inverse_ratio))]
fn inverse_ratio<E: Arith>(alloc: Global, ratio: &Ratio<E>) -> Result<Over<E>, Fail>
    ensures { Agrees result (spec.inverse_ratio E.ops ratio.now.0 ratio.now.1) }
{
    if ratio.num.is_zero() {
        return Ok(Over::Below(E::zero()));
    }
    let inverse = ratio.num.inverse_of_last(alloc)?;
    let num = ratio.den.scale(alloc, &inverse)?;
    let den = ratio.num.monic(alloc)?;
    element(num, den)
}

/// 1/a.
fn inverse<E: Arith>(alloc: Global, element: &Over<E>) -> Result<Over<E>, Fail>
    ensures { Agrees result (spec.inverse E.ops element.now) }
{
    match element {
        Over::Below(value) => {
            let one = E::one();
            below(one.div(alloc, value))
        }
        Over::Quotient(ratio) => inverse_ratio(alloc, ratio),
    }
}

/// a·(1/b).
#[tactic(auto, using(risch_field::proofs::CheckedSteps::stop_passes, risch_field::proofs::CheckedSteps::value_passes), unfolding(crate::specs::Over::inverse_product))]
fn inverse_product<E: Arith>(
    alloc: Global,
    left: &Over<E>,
    right: &Over<E>,
) -> Result<Over<E>, Fail>
    ensures { Agrees result (spec.inverse_product E.ops left.now right.now) }
{
    let inverse = inverse(alloc, right)?;
    product(alloc, left, &inverse)
}

impl<E: Arith> Ratio<E> {
    /// n.
    pub fn num(&self) -> &Poly<E>
        ensures { result.now ≡ self.now.0 }
    {
        &self.num
    }

    /// m.
    pub fn den(&self) -> &Poly<E>
        ensures { result.now ≡ self.now.1 }
    {
        &self.den
    }

    /// n/m once more.
    fn copy(&self, alloc: Global) -> Result<Ratio<E>, AllocError>
        ensures { IfOk result (λ copy. copy ≡ self.now) }
    {
        Ok(Ratio {
            num: self.num.copy(alloc)?,
            den: self.den.copy(alloc)?,
        })
    }
}

impl<E: Arith> Arith for Over<E> {
    ghost use Rattle.risch_level.specs.Over.{over};
    ghost use Rattle.risch_level.specs.Laws.{over_keeps_negatives, over_has_wholes};

    ghost ops = { over E.ops };

    ghost keeps_negatives = { over_keeps_negatives E.ops E.keeps_negatives };

    ghost has_wholes = { over_has_wholes E.ops E.has_wholes };

    fn zero() -> Over<E> {
        Over::Below(E::zero())
    }

    fn one() -> Over<E> {
        Over::Below(E::one())
    }

    fn whole(n: u16) -> Over<E> {
        Over::Below(E::whole(n))
    }

    fn is_zero(&self) -> bool {
        match self {
            Over::Below(e) => e.is_zero(),
            Over::Quotient(_) => false,
        }
    }

    fn is_one(&self) -> bool {
        match self {
            Over::Below(e) => e.is_one(),
            Over::Quotient(_) => false,
        }
    }

    fn same(&self, other: &Over<E>) -> bool {
        match self {
            Over::Below(a) => match other {
                Over::Below(b) => a.same(b),
                Over::Quotient(_) => false,
            },
            Over::Quotient(left) => match other {
                Over::Below(_) => false,
                Over::Quotient(right) => left.num.same(&right.num) && left.den.same(&right.den),
            },
        }
    }

    fn weight(&self) -> u32 {
        match self {
            Over::Below(e) => e.weight(),
            Over::Quotient(ratio) => ratio.num.weight() + ratio.den.weight(),
        }
    }

    fn copy(&self, alloc: Global) -> Result<Over<E>, AllocError> {
        match self {
            Over::Below(e) => Ok(Over::Below(e.copy(alloc)?)),
            Over::Quotient(ratio) => Ok(Over::Quotient(ratio.copy(alloc)?)),
        }
    }

    fn neg(&self, alloc: Global) -> Result<Over<E>, AllocError> {
        match self {
            Over::Below(e) => Ok(Over::Below(e.neg(alloc)?)),
            Over::Quotient(ratio) => Ok(Over::Quotient(Ratio {
                num: ratio.num.neg(alloc)?,
                den: ratio.den.copy(alloc)?,
            })),
        }
    }

    fn add(&self, alloc: Global, other: &Over<E>) -> Result<Over<E>, Fail> {
        match self {
            Over::Below(a) => match other {
                Over::Below(b) => below(a.add(alloc, b)),
                Over::Quotient(right) => sum_with(alloc, true, a, right),
            },
            Over::Quotient(left) => match other {
                Over::Below(b) => sum_with(alloc, false, b, left),
                Over::Quotient(right) => quotient_sum(
                    alloc, &left.num, &left.den, &right.num, &right.den,
                ),
            },
        }
    }

    fn mul(&self, alloc: Global, other: &Over<E>) -> Result<Over<E>, Fail> {
        product(alloc, self, other)
    }

    fn div(&self, alloc: Global, other: &Over<E>) -> Result<Over<E>, Fail> {
        match self {
            Over::Below(a) => match other {
                Over::Below(b) => below(a.div(alloc, b)),
                Over::Quotient(_) => inverse_product(alloc, self, other),
            },
            Over::Quotient(_) => inverse_product(alloc, self, other),
        }
    }
}
