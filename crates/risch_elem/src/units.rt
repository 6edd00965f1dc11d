//! The units of a run, and the answers of calls that count them.

ghost use Rattle.std.specs.Prelude.{◌≡◌, ◌≤◌, ◌+◌, ◌↔◌, ℕ, IfOk};
ghost use Rattle.risch_elem.specs.Runs.{OnDone, OnLeft, OnReturn, IsBudget, IsUnitAnswer, Rose};

use crate::elem::Elem;
use crate::lists::Copied;
use risch_frac::Op;
use std::alloc::{AllocError, Global};

/// What a run does not decide.
#[derive(Clone, Copy, Debug, PartialEq, Eq)]
pub enum Case {
    /// A polynomial may have whole roots beyond those that are tried.
    RootBound,
    /// A condition on constants is not decided.
    Undetermined,
}

/// The stop of a run.
#[derive(Drop)]
pub enum Stop {
    /// A number of absolute value above 2^127 - 1 in this operation.
    Overflow(Op),
    /// A degree above 255, or a weight above 65536.
    Size,
    /// A case that is not decided.
    Case(Case),
    /// The tower has more constants than the fractions: this element e, which is no fraction, has De = 0.
    NotSound(Elem),
    /// A unit more than there may be.
    Budget,
}

impl Stop {
    /// The stop once more.
    ///
    /// `Err` for want of memory alone.
    pub fn copy(&self, alloc: Global) -> Result<Stop, AllocError>
        ensures { IfOk result (λ copy. copy ≡ self.now) }
    {
        match self {
            Stop::Overflow(op) => Ok(Stop::Overflow(*op)),
            Stop::Size => Ok(Stop::Size),
            Stop::Case(case) => Ok(Stop::Case(*case)),
            Stop::NotSound(element) => Ok(Stop::NotSound(element.copy(alloc)?)),
            Stop::Budget => Ok(Stop::Budget),
        }
    }
}

impl Copied for Stop {
    fn copied(&self, alloc: Global) -> Result<Stop, AllocError> {
        self.copy(alloc)
    }
}

/// The answer of a call that counts units.
#[derive(Drop)]
pub enum Run<T> {
    /// The value.
    Done(T),
    /// The stop that ends the rule.
    Stopped(Stop),
    /// The run was left from outside, about which no rule says anything.
    Left,
    /// Want of memory, about which no rule says anything.
    Memory,
}

/// A count of units up to a most, and a count of the leaves of the run. Neither count falls.
///
/// Where the run is left, the count of the leaves rises; once it is 2^64 - 1 or more, it may stay as it is.
pub trait Units {
    /// The units so far.
    ghost units: { Self → ℕ };

    /// How many units there may be.
    ghost most: { Self → ℕ };

    /// How often the run was left.
    ghost leaves: { Self → ℕ };

    /// The data that it keeps besides.
    ghost Kept: { Type 0 };

    ghost kept: { Self → Self.Kept };

    /// One unit more.
    ///
    /// `Done(())` with one unit more; `Stopped(Stop::Budget)` exactly where units = most; `Left` where the run was left, with as many units or more. No other answer.
    fn unit(&mut self) -> Run<()>
        ensures answer { IsUnitAnswer result }
        ensures done { OnDone result (units self.new ≡ units self.old + 1) }
        ensures budget { IsBudget result ↔ (units self.old ≡ most self.old) }
        ensures left { OnLeft result (Rose (leaves self.old) (leaves self.new)) }
        ensures not_left { OnReturn result (leaves self.new ≡ leaves self.old) }
        ensures units_grow { units self.old ≤ units self.new }
        ensures same_most { most self.new ≡ most self.old }
        ensures same_kept { kept self.new ≡ kept self.old };

    // There are at most `most` units.
    ghost within: { (counter : Self) → units counter ≤ most counter };
}

/// A count of units that is never left, and keeps nothing.
#[derive(Drop)]
pub struct Counter {
    count: u64,
    most: u64,
    ghost is_within: { count ≤ most },
}

impl Counter {
    /// No units so far, of at most `most`.
    pub fn new(most: u64) -> Counter
        ensures none { ⟦<Counter as Units>⟧.units result ≡ 0 }
        ensures most { ⟦<Counter as Units>⟧.most result ≡ most }
    {
        Counter { count: 0, most }
    }

    /// The units so far, from 0 to the most.
    pub fn count(&self) -> u64
        ensures { result ≡ ⟦<Counter as Units>⟧.units self.now }
    {
        self.count
    }
}

impl Units for Counter {
    ghost units = { λ counter. counter.count };

    ghost most = { λ counter. counter.most };

    ghost leaves = { λ _. 0 };

    ghost Kept = { Unit {0} };

    ghost kept = { λ _. tt };

    ghost within = { λ counter. counter.is_within };

    fn unit(&mut self) -> Run<()> {
        if self.count == self.most {
            return Run::Stopped(Stop::Budget);
        }
        self.count += 1;
        Run::Done(())
    }
}
