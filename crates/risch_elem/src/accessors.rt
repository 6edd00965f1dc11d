//! The parts of an element of the tower.

ghost use Rattle.std.specs.Prelude.{◌≡◌, ◌↔◌, ℕ, IfSome, IsTrue};
ghost use Rattle.risch_polynomial_theory.specs.FractionMeaning.{fraction_meaning};
ghost use Rattle.risch_level.specs.Accessors as spec;
ghost use Rattle.risch_element_theory.specs.WholeTower.{meaning, Within};
ghost use Rattle.risch_elem.specs.Accessors.{IsBelow};

use crate::elem::Elem;
use risch_frac::Frac;
use risch_nest::Nest;

impl Elem {
    /// The fraction p/q as an element, in which no variable occurs.
    #[tactic(auto, using(risch_element_theory::proofs::ElementRules::numbers))]
    pub fn num(fraction: Frac) -> Elem
        ensures value { result ≡ spec.number 5 fraction }
        ensures meaning { meaning result ≡ fraction_meaning fraction }
        ensures within { Within 0 result }
    {
        let _numerator = fraction.num();
        Elem::of(Nest::number(fraction))
    }

    /// The level of the element, from 0 for x to 4: that of the highest variable that occurs in it. A fraction has none.
    ///
    /// The element lies in the field of the first n variables exactly where it is a fraction, or of a level l < n.
    #[tactic(auto, using(crate::proofs::LevelsOfElements::level_is_within))]
    pub fn level(&self) -> Option<u8>
        ensures value { result ≡ spec.level 5 self.now }
        ensures within { (n : ℕ) → Within n self.now ↔ IsBelow result n }
    {
        self.inner.level()
    }

    /// The fraction p/q that the element is, and `None` for an element of some level.
    #[tactic(auto, using(risch_element_theory::proofs::ElementRules::numbers))]
    pub fn as_num(&self) -> Option<Frac>
        ensures value { result ≡ spec.as_number 5 self.now }
        ensures meaning { IfSome result (λ q. meaning self.now ≡ fraction_meaning q) }
    {
        self.inner.as_number()
    }

    /// Whether only the first n variables occur in the element, where x is the variable 0: whether it lies below level n, and in level n - 1.
    pub fn is_within(&self, n: u8) -> bool
        ensures { IsTrue result ↔ Within n self.now }
    {
        match self.level() {
            None => true,
            Some(level) => level < n,
        }
    }
}
