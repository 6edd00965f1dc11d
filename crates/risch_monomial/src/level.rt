//! What is known of a level of a tower.

ghost use Rattle.std.specs.Prelude.{◌≤◌, length};
ghost use Rattle.risch_monomial.specs.LevelDerivation.{IsLevelOf};

use risch_tower::Tower;

/// The level has a variable, with the rate of the level.
pub fn level_of(tower: &Tower, level: u8)
    requires { level ≤ length tower.now }
    ensures { IsLevelOf tower.now level }
{
    let _height = tower.height();
    let _nest = tower.eta(level).nest();
}
