//! The logarithms of the residues of an element from the traces of their powers (Bronstein, sections 2.5 and 5.6).

ghost use Rattle.std.specs.Prelude.{◌≡◌, ◌≤◌, ◌<◌, ◌+◌, ℕ, [], None, length, All, IfOk, IfSome};
ghost use Rattle.risch_field.specs.Checked.{Agrees};
ghost use Rattle.risch_element_theory.specs.WholeTower.{Within, AllWithin};
ghost use Rattle.risch_monomial.specs.LevelElements.{numerator_at, denominator_at};
ghost use Rattle.risch_logarithm_rules.specs.Logarithms as spec;

use crate::argument::argument_of;
use crate::logarithm::logarithm;
use crate::members::{Quotient, constants, sequence};
use crate::newton::characteristic_polynomial;
use risch_elem::{Elem, Fail, Items};
use risch_rootsum::LogList;
use risch_sub::members::Member;
use risch_sub::polynomials::Inner;
use risch_sub::square_free_parts::square_free_parts;
use risch_tower::Tower;
use std::alloc::{AllocError, Global};

/// The argument for R from the first member of degree i.
fn argument_at(
    alloc: Global,
    members: &[Member],
    degree: u16,
    modulus: &Inner,
) -> Result<Member, Fail>
    ensures rule { Agrees result (spec.argument_of (spec.member_of_degree degree members.now) modulus.now) }
    ensures within { (n : ℕ) → All (All (AllWithin n)) members.now → AllWithin n modulus.now → IfOk result (λ it. All (AllWithin n) it) }
{
    for member in members {
        if member.len() == usize::from(degree) + 1 {
            return argument_of(alloc, member.as_slice(), modulus);
        }
    }
    let none = Vec::new(alloc);
    argument_of(alloc, &none, modulus)
}

/// The members where they are formed, else those down to the degree i.
fn members_or(
    alloc: Global,
    tower: &Tower,
    level: u8,
    of: &Quotient,
    members: Option<Items<Member>>,
    degree: u16,
) -> Result<Items<Member>, Fail>
    requires level { level ≤ length tower.now }
    requires numerator { AllWithin level of.now.numerator }
    requires denominator { AllWithin level of.now.denominator }
    requires members { IfSome members (λ it. All (All (AllWithin level)) it) }
    ensures rule { Agrees result (spec.members_or tower.now level of.now.numerator of.now.denominator members degree) }
    ensures within { IfOk result (λ it. All (All (AllWithin level)) it) }
{
    match members {
        Some(members) => Ok(members),
        None => sequence(alloc, tower, level, of, degree),
    }
}

/// The argument for R_i, and the members.
#[tactic(auto, using(risch_field::proofs::CheckedSteps::stop_passes, risch_field::proofs::CheckedSteps::value_passes), unfolding(risch_logarithm_rules::specs::Logarithms::argument_for))]
fn argument_for(
    alloc: Global,
    tower: &Tower,
    level: u8,
    of: &Quotient,
    members: Option<Items<Member>>,
    degree: u16,
    modulus: &Inner,
) -> Result<(Member, Option<Items<Member>>), Fail>
    requires level { level ≤ length tower.now }
    requires numerator { AllWithin level of.now.numerator }
    requires denominator { AllWithin level of.now.denominator }
    requires members { IfSome members (λ it. All (All (AllWithin level)) it) }
    requires modulus { AllWithin level modulus.now }
    ensures rule { Agrees result (spec.argument_for tower.now level of.now.numerator of.now.denominator members degree modulus.now) }
    ensures argument { IfOk result (λ it. All (AllWithin level) it.0) }
    ensures members { IfOk result (λ it. IfSome it.1 (λ formed. All (All (AllWithin level)) formed)) }
{
    let coefficients = of.denominator.inner().coefficients();
    if usize::from(degree) + 1 == coefficients.len() {
        return Ok((constants(alloc, coefficients)?, members));
    }
    let formed = members_or(alloc, tower, level, of, members, degree)?;
    let argument = argument_at(alloc, formed.as_slice(), degree, modulus)?;
    Ok((argument, Some(formed)))
}

/// The logarithms for the square-free parts R_1, R_2, ..; a part 1 is passed over.
fn logarithms_of_parts(
    alloc: Global,
    tower: &Tower,
    level: u8,
    of: &Quotient,
    parts: &[Inner],
) -> Result<LogList, Fail>
    requires level { level ≤ length tower.now }
    requires low { level < 5 }
    requires numerator { AllWithin level of.now.numerator }
    requires denominator { AllWithin level of.now.denominator }
    requires parts { All (AllWithin level) parts.now }
    requires few { length parts.now ≤ 256 }
    ensures { Agrees result (spec.logarithms_from tower.now level of.now.numerator of.now.denominator 1 None [] parts.now) }
{
    let mut logs = LogList::new(alloc);
    let mut members = None;
    for place in 0..parts.len() {
        let part = &parts[place];
        if part.is_one() {
            continue;
        }
        let (argument, formed) = argument_for(
            alloc,
            tower,
            level,
            of,
            members,
            place as u16 + 1,
            part,
        )?;
        members = formed;
        let next = logarithm(alloc, level, part, argument.as_slice())?;
        logs.push(next)?;
    }
    Ok(logs)
}

/// The numerator and the denominator of an element of a level.
fn quotient(alloc: Global, level: u8, h: &Elem) -> Result<Quotient, AllocError>
    requires low { level < 5 }
    requires within { Within (level + 1) h.now }
    ensures numerator { IfOk result (λ it. it.numerator ≡ numerator_at level h.now) }
    ensures denominator { IfOk result (λ it. it.denominator ≡ denominator_at level h.now) }
    ensures numerator_within { IfOk result (λ it. AllWithin level it.numerator) }
    ensures denominator_within { IfOk result (λ it. AllWithin level it.denominator) }
{
    let numerator = h.num_poly(alloc, level)?;
    let denominator = h.den_poly(alloc, level)?;
    Ok(Quotient {
        numerator,
        denominator,
    })
}

/// The logarithms of the residues of an element a/d of a level from the traces p_1 .. p_m of the powers of ρ, m = deg d.
///
/// Stops: that of the first value that cannot be formed, of the characteristic polynomial, its square-free parts, the remainder sequence, the arguments and the logarithms.
#[tactic(auto, using(risch_field::proofs::CheckedSteps::stop_passes, risch_field::proofs::CheckedSteps::value_passes), unfolding(risch_logarithm_rules::specs::Logarithms::logarithms))]
pub(crate) fn logarithms(
    alloc: Global,
    tower: &Tower,
    level: u8,
    h: &Elem,
    traces: &[Elem],
) -> Result<LogList, Fail>
    requires level { level ≤ length tower.now }
    requires within { Within (level + 1) h.now }
    requires fractions { AllWithin 0 traces.now }
    ensures { Agrees result (spec.logarithms tower.now level h.now traces.now) }
{
    let _height = tower.height();
    let parts = {
        let polynomial = characteristic_polynomial(alloc, traces)?;
        let _coefficients = polynomial.coefficients();
        square_free_parts(alloc, &polynomial)?
    };
    let of = quotient(alloc, level, h)?;
    logarithms_of_parts(alloc, tower, level, &of, parts.as_slice())
}
