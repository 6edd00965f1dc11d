//! Towers of at most four monomials over Q(x).

ghost use Rattle.std.specs.Prelude.{◌≡◌, ◌≤◌, ◌<◌, ◌+◌, ◌-◌, ◌++◌, ◌∷◌, ◌↔◌, ℕ, [], length, Err, IfOk, IfSome, IsTrue, OnErr, slice_get};
ghost use Rattle.risch_mean.specs.Element.{zero, variable};
ghost use Rattle.risch_mean.specs.Tower.{derive_in, IsTower, kind_of};
ghost use Rattle.risch_field.specs.Checked.{Agrees};
ghost use Rattle.risch_level.specs.Levels.{element};
ghost use Rattle.risch_derivation.specs.Derivation as rules;
ghost use Rattle.risch_element_theory.specs.DerivationMeaning.{kind_with};
ghost use Rattle.risch_element_theory.specs.WholeTower.{IsElement, meaning, value_of, Within, AllWithin};
ghost use Rattle.risch_tower.specs.Tower as spec;
ghost use Rattle.risch_tower.specs.Tower.{Answers, AnswersWith};
ghost use Rattle.risch_tower.specs.TowerMeaning.{monomial_of, monomials, IsZeroLogarithm};
ghost use Rattle.risch_tower.specs.declared.fault.PushFault.TheVariants.{TooHigh, ZeroArgument, ConstantArgument};

use crate::fault::PushFault;
use crate::level::{Level, Monomial, push_copies, same_levels};
use crate::rates::{adjoin, opened};
use risch_derivation::{Derive, Kind, Rate, derive_polynomial};
use risch_elem::{Elem, Poly};
use risch_field::{Arith, Fail};
use risch_nest::{Nest, NestRates};
use std::alloc::{AllocError, Global};
use std::marker::Model;

/// The number of monomials that a tower has at most.
pub const MOST_HEIGHT: u8 = 4;

/// A tower of monomials over Q(x).
///
/// Contracts see it as the list of its monomials with their rates. The variables of the levels above its height have the derivative 0.
#[derive(Drop)]
pub struct Tower {
    x: Rate<Elem>,
    levels: Vec<Level>,
    rates: NestRates,
}

impl Model for Tower {
    ghost use Rattle.std.specs.Prelude.{List, ◌≡◌, ◌≤◌, length};
    ghost use Rattle.risch_tower.specs.declared.level.Level.{Level};
    ghost use Rattle.risch_tower.specs.Tower.{rate_of_x, rates_of};
    ghost use Rattle.risch_tower.specs.TowerMeaning.{AreTower};

    ghost Value = { List Level };

    ghost view = { λ t. t.levels.items };

    ghost invariant = { λ t. (t.x ≡ rate_of_x) × (t.rates ≡ rates_of t.levels.items) × (length t.levels.items ≤ 4) × AreTower t.levels.items };
}

/// The rate of log a.
#[tactic(auto, using(crate::proofs::RefusalSteps::stop_refuses, crate::proofs::RefusalSteps::value_answers), unfolding(crate::specs::Tower::rate_of_logarithm))]
fn rate_of_logarithm(alloc: Global, tower: &Tower, argument: &Elem) -> Result<Rate<Elem>, PushFault>
    requires { Within (length tower.now + 1) argument.now }
    ensures value { Answers result (spec.rate_of_logarithm (spec.derivative tower.now) argument.now) }
    ensures not_high { ¬ (result ≡ Err TooHigh) }
    ensures zero_argument { (result ≡ Err ZeroArgument) ↔ (meaning argument.now ≡ zero) }
    ensures constant_argument { result ≡ Err ConstantArgument → derive_in (monomials tower.now) (meaning argument.now) ≡ zero }
    ensures some_derivative { IfOk result (λ _. ¬ (derive_in (monomials tower.now) (meaning argument.now) ≡ zero)) }
{
    if argument.is_zero() {
        return Err(PushFault::ZeroArgument);
    }
    let derivative = tower.derive(alloc, argument)?;
    if derivative.is_zero() {
        return Err(PushFault::ConstantArgument);
    }
    let eta = derivative.div(alloc, argument)?;
    Ok(Rate {
        kind: Kind::Primitive,
        eta,
    })
}

/// The rate of exp a.
#[tactic(auto, using(crate::proofs::RefusalSteps::stop_refuses, crate::proofs::RefusalSteps::value_answers), unfolding(crate::specs::Tower::rate_of_exponential))]
fn rate_of_exponential(
    alloc: Global,
    tower: &Tower,
    argument: &Elem,
) -> Result<Rate<Elem>, PushFault>
    requires { Within (length tower.now + 1) argument.now }
    ensures value { Answers result (spec.rate_of_exponential (spec.derivative tower.now) argument.now) }
    ensures not_high { ¬ (result ≡ Err TooHigh) }
    ensures some_argument { ¬ (result ≡ Err ZeroArgument) }
    ensures constant_argument { result ≡ Err ConstantArgument → derive_in (monomials tower.now) (meaning argument.now) ≡ zero }
    ensures some_derivative { IfOk result (λ _. ¬ (derive_in (monomials tower.now) (meaning argument.now) ≡ zero)) }
{
    let derivative = tower.derive(alloc, argument)?;
    if derivative.is_zero() {
        return Err(PushFault::ConstantArgument);
    }
    Ok(Rate {
        kind: Kind::Exponential,
        eta: derivative,
    })
}

/// The rate of a monomial.
fn rate_of(alloc: Global, tower: &Tower, monomial: &Monomial) -> Result<Rate<Elem>, PushFault>
    requires { Within (length tower.now + 1) (spec.argument monomial.now) }
    ensures value { Answers result (spec.rate_of (spec.derivative tower.now) monomial.now) }
    ensures not_high { ¬ (result ≡ Err TooHigh) }
    ensures zero_argument { (result ≡ Err ZeroArgument) ↔ IsZeroLogarithm monomial.now }
    ensures constant_argument { result ≡ Err ConstantArgument → derive_in (monomials tower.now) (meaning (spec.argument monomial.now)) ≡ zero }
    ensures some_derivative { IfOk result (λ _. ¬ (derive_in (monomials tower.now) (meaning (spec.argument monomial.now)) ≡ zero)) }
    ensures normal { IsElement (spec.argument monomial.now) }
{
    let argument = monomial.argument();
    match monomial {
        Monomial::Log(_) => rate_of_logarithm(alloc, tower, argument),
        Monomial::Exp(_) => rate_of_exponential(alloc, tower, argument),
    }
}

impl Tower {
    /// Q(x) with no monomial.
    pub fn new(alloc: Global) -> Tower
        ensures { result ≡ [] }
    {
        let mut rates = Nest::constants();
        adjoin(&mut rates, 4, rate_of_x());
        Tower {
            x: rate_of_x(),
            levels: Vec::new(alloc),
            rates,
        }
    }

    /// The number of monomials.
    pub fn height(&self) -> u8
        ensures value { result ≡ length self.now }
        ensures small { result ≤ 4 }
        ensures is_tower { IsTower (monomials self.now) }
    {
        self.levels.len() as u8
    }

    /// The rate of a level.
    fn rate(&self, level: u8) -> &Rate<Elem>
        requires { level ≤ length self.now }
        ensures value { result.now ≡ spec.rate_at self.now level }
        ensures within { Within level result.now.eta }
        ensures means { kind_with result.now.kind (meaning result.now.eta) ≡ kind_of (monomials self.now) level }
    {
        if level == 0 {
            return &self.x;
        }
        &self.levels[usize::from(level) - 1].rate
    }

    /// Whether Dt = η or Dt = η·t for the variable t of the level.
    pub fn kind(&self, level: u8) -> Kind
        requires { level ≤ length self.now }
        ensures { result ≡ (spec.rate_at self.now level).kind }
    {
        self.rate(level).kind
    }

    /// η, in which only the variables below the level occur.
    pub fn eta(&self, level: u8) -> &Elem
        requires { level ≤ length self.now }
        ensures value { result.now ≡ (spec.rate_at self.now level).eta }
        ensures within { Within level result.now }
        ensures means { kind_with (spec.rate_at self.now level).kind (meaning result.now) ≡ kind_of (monomials self.now) level }
    {
        &self.rate(level).eta
    }

    /// The monomial that was pushed as the level; only the variables below the level occur in its argument.
    pub fn pushed(&self, level: u8) -> &Monomial
        requires some { 1 ≤ level }
        requires there { level ≤ length self.now }
        ensures value { IfSome (slice_get self.now (level - 1)) (λ it. result.now ≡ it.monomial) }
        ensures within { Within level (spec.argument result.now) }
    {
        &self.levels[usize::from(level) - 1].monomial
    }

    /// Whether both have the same monomials, one by one.
    pub fn same(&self, other: &Tower) -> bool
        ensures value { result ≡ spec.same_levels self.now other.now }
        ensures means { IsTrue result ↔ (monomials self.now ≡ monomials other.now) }
    {
        same_levels(&self.levels, &other.levels)
    }

    /// The tower once more.
    pub fn copy(&self, alloc: Global) -> Result<Tower, AllocError>
        ensures { IfOk result (λ copy. copy ≡ self.now) }
    {
        let mut levels = Vec::new(alloc);
        push_copies(alloc, &mut levels, &self.levels)?;
        Ok(Tower {
            x: self.x.copy(alloc)?,
            levels,
            rates: Nest::copy_rates(alloc, &self.rates)?,
        })
    }

    /// De, for an element e of the tower.
    ///
    /// Stops: that of the first value that cannot be formed.
    pub fn derive(&self, alloc: Global, element: &Elem) -> Result<Elem, Fail>
        requires { Within (length self.now + 1) element.now }
        ensures rule { Agrees result (spec.derivative self.now element.now) }
        ensures meaning { IfOk result (λ d. meaning d ≡ derive_in (monomials self.now) (meaning element.now)) }
        ensures within { (n : ℕ) → Within n element.now → IfOk result (λ d. Within n d) }
    {
        let derivative = element.nest().derive(alloc, &self.rates)?;
        Ok(Elem::of(derivative))
    }

    /// Dp for a polynomial p in the variable t of the level: its value at t is D(p(t)), and the variables of its coefficients are those of p and the ones below the level.
    ///
    /// Stops: that of the first coefficient that cannot be formed, exponents ascending; Size where the weight is beyond its limit.
    pub fn derive_poly(&self, alloc: Global, level: u8, poly: &Poly) -> Result<Poly, Fail>
        requires { level ≤ length self.now }
        ensures rule { Agrees result (rules.derive_polynomial element (spec.derivative self.now) (spec.rate_at self.now level) poly.now) }
        ensures meaning { IfOk result (λ d. value_of d (variable level) ≡ derive_in (monomials self.now) (value_of poly.now (variable level))) }
        ensures within { (n : ℕ) → level ≤ n → AllWithin n poly.now → IfOk result (λ d. AllWithin n d) }
    {
        let rate = opened(self.rate(level).copy(alloc)?);
        let nested = poly.nested(alloc)?;
        let derivative = derive_polynomial(alloc, &self.rates, &rate, &nested)?;
        Ok(Poly::of_nested(alloc, derivative)?)
    }

    /// Adds a level for log a or exp a, where a lies in the tower.
    ///
    /// Refusals, in this order: `TooHigh` where the tower has four monomials, `ZeroArgument` for log 0, `ConstantArgument` where Da = 0; and the stops of Da and Da/a.
    #[tactic(auto, using(crate::proofs::RefusalSteps::refusal_stays, crate::proofs::RefusalSteps::rates_of_one_more), unfolding(crate::specs::Tower::pushed))]
    pub fn push(&mut self, alloc: Global, monomial: Monomial) -> Result<(), PushFault>
        requires { Within (length self.old + 1) (spec.argument monomial) }
        ensures value { AnswersWith result self.new (spec.pushed self.old monomial) }
        ensures unchanged { OnErr result (self.new ≡ self.old) }
        ensures too_high { (result ≡ Err TooHigh) ↔ (length self.old ≡ 4) }
        ensures zero_argument { (result ≡ Err ZeroArgument) ↔ ((length self.old < 4) × IsZeroLogarithm monomial) }
        ensures constant_argument { result ≡ Err ConstantArgument → derive_in (monomials self.old) (meaning (spec.argument monomial)) ≡ zero }
        ensures some_derivative { IfOk result (λ _. ¬ (derive_in (monomials self.old) (meaning (spec.argument monomial)) ≡ zero)) }
        ensures means { IfOk result (λ _. monomials self.new ≡ monomials self.old ++ monomial_of monomial ∷ []) }
    {
        let height = self.height();
        if height >= MOST_HEIGHT {
            return Err(PushFault::TooHigh);
        }
        let rate = rate_of(alloc, self, &monomial)?;
        let copy = rate.copy(alloc)?;
        self.levels.push(Level { monomial, rate })?;
        adjoin(&mut self.rates, 3 - height, copy);
        Ok(())
    }
}

/// Dx = 1.
fn rate_of_x() -> Rate<Elem>
    ensures { result ≡ spec.rate_of_x }
{
    Rate {
        kind: Kind::Primitive,
        eta: Elem::one(),
    }
}
