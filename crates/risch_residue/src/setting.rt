//! What is known of an element of a level and of its tower.

ghost use Rattle.std.specs.Prelude.{◌≤◌, ◌<◌, ◌+◌, length};
ghost use Rattle.risch_univariate.specs.SplittingFactorization.{IsNormal};
ghost use Rattle.risch_mean.specs.ElementField.{elements};
ghost use Rattle.risch_element_theory.specs.WholeTower.{polynomial, Within};
ghost use Rattle.risch_tower.specs.TowerMeaning.{monomials, AreTower};
ghost use Rattle.risch_monomial.specs.LevelDerivation.{level_derivation};
ghost use Rattle.risch_monomial.specs.LevelElements.{numerator_at, denominator_at};
ghost use Rattle.risch_logarithm_link.proofs.ResidueSetting.{IsSetting};

use risch_elem::Elem;
use risch_monomial::level_of;
use risch_tower::Tower;

/// The levels of a tower have the rates of its monomials.
fn are_levels(tower: &Tower)
    ensures { AreTower tower.now }
{
    for below in 0..tower.height() {
        let _argument = tower.pushed(below + 1).argument();
        let _nest = tower.eta(below + 1).nest();
    }
}

/// The element h = a/d lies in a level of the tower, is proper, and has a normal denominator.
pub(crate) fn setting(tower: &Tower, level: u8, h: &Elem)
    requires level { level ≤ length tower.now }
    requires within { Within (level + 1) h.now }
    requires proper { length (numerator_at level h.now) < length (denominator_at level h.now) }
    requires normal { IsNormal elements (level_derivation (monomials tower.now) level) (polynomial (denominator_at level h.now)) }
    ensures { IsSetting tower.now level h.now }
{
    are_levels(tower);
    level_of(tower, level);
    let _nest = tower.eta(level).nest();
    let _element = h.nest();
}
