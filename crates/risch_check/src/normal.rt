//! What is known of the values of an integral: fractions are in lowest terms, and elements in normal form.

ghost use Rattle.risch_frac.specs.Fraction.{IsLowest};
ghost use Rattle.risch_polynomial_theory.specs.Meaning.{AllValid};
ghost use Rattle.risch_element_theory.specs.WholeTower.{IsElement};
ghost use Rattle.risch_check.specs.Certificates.{IsNormal};

use risch_elem::Elem;
use risch_frac::Frac;
use risch_rootsum::{Integral, LogPart};

/// Each fraction of a list is in lowest terms.
fn all_lowest(fractions: &[Frac])
    ensures { AllValid IsLowest fractions.now }
{
    for fraction in fractions {
        let _numerator = fraction.num();
    }
}

/// Each element of a list is in normal form.
fn all_normal(elements: &[Elem])
    ensures { AllValid IsElement elements.now }
{
    for element in elements {
        let _nest = element.nest();
    }
}

/// The numbers of a logarithm or a sum are in lowest terms, and its elements in normal form.
fn normal_part(part: &LogPart)
    ensures { IsNormal part.now }
{
    all_lowest(part.poly.as_slice());
    all_normal(part.arg.as_slice());
}

/// The same of each of a list.
fn normal_parts(parts: &[LogPart])
    ensures { AllValid IsNormal parts.now }
{
    for part in parts {
        normal_part(part);
    }
}

/// The same of the part of an integral, and of its logarithms.
pub(crate) fn normal_integral(integral: &Integral)
    ensures part { IsElement integral.now.part }
    ensures logs { AllValid IsNormal integral.now.logs }
{
    let _nest = integral.part.nest();
    normal_parts(integral.logs.as_slice());
}
