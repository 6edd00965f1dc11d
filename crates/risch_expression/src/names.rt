//! The names that are known in an expression.

ghost use Rattle.std.specs.Prelude.{◌≡◌};

use crate::program::Step;

/// The known names: x, t1 to tn for n monomials (at most t9), and z where it may stand.
#[derive(Clone, Copy)]
pub struct Names {
    pub monomials: u8,
    pub with_z: bool,
}

impl Names {
    ghost use Rattle.risch_expression.specs.Grammar.{variable_named, named};
    ghost use Rattle.risch_expression.specs.Reading.{IsStepOf};

    /// The variable that a name stands for, 0 for x and i for ti, where it is known.
    pub fn variable(self, name: &[u8]) -> Option<u8>
        ensures { result ≡ variable_named self.monomials name.now }
    {
        match name {
            [b'x'] => Some(0),
            [b't', digit] if (b'1'..=b'9').contains(digit) && *digit - b'0' <= self.monomials => {
                Some(*digit - b'0')
            }
            _ => None,
        }
    }

    /// The step of what a known name stands for.
    #[tactic(auto, unfolding(crate::specs::Grammar::named))]
    pub(crate) fn step(self, name: &[u8]) -> Option<Step>
        ensures { IsStepOf result (named self name.now) }
    {
        match name {
            [b'z'] if self.with_z => Some(Step::Root),
            _ => self.variable(name).map(Step::Variable),
        }
    }
}
