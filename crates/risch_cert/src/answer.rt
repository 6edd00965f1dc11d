//! Answers and certificates, and where a run stops.

ghost use Rattle.std.specs.Prelude.{◌≡◌, IfOk};

use crate::chain::Chain;
use risch_elem::{Elem, Stop};
use risch_rootsum::Integral;
use std::alloc::{AllocError, Global};

/// The step of a run. A level is named by its number from 0, which is that of x.
#[derive(Clone, Copy)]
pub enum Place {
    /// Reading the input.
    Reading,
    /// Preparing the round of a level.
    Preparing(u8),
    /// A branch of the round of a level: the level, and the number of the branch from 0.
    Branch(u8, u32),
    /// Gathering what the branches of the round of a level give.
    Gathering(u8),
    /// Checking an answer.
    Checking,
    /// Solving an equation.
    Solving,
}

/// What stops a run, and where.
#[derive(Drop)]
pub struct Halt {
    pub stop: Stop,
    pub place: Place,
}

/// The answer to an integrand.
#[derive(Drop)]
pub enum Answer {
    /// Its integral.
    Integral(Integral),
    /// Why it has no elementary integral.
    Refuted(Chain),
    /// The run stops.
    Stopped(Halt),
    /// The derivative of the integral that was found, and the integrand, which is another element.
    Disagree { left: Elem, right: Elem },
}

/// What an answer claims, for a checker to read.
#[derive(Drop)]
pub enum Certificate {
    /// An integral.
    Integral(Integral),
    /// A refutation.
    Refuted(Chain),
}

impl Halt {
    /// What stops the run, and where, once more.
    ///
    /// `Err` for want of memory alone.
    pub fn copy(&self, alloc: Global) -> Result<Halt, AllocError>
        ensures { IfOk result (λ copy. copy ≡ self.now) }
    {
        let stop = self.stop.copy(alloc)?;
        Ok(Halt {
            stop,
            place: self.place,
        })
    }
}

impl Answer {
    /// The answer once more.
    ///
    /// `Err` for want of memory alone.
    pub fn copy(&self, alloc: Global) -> Result<Answer, AllocError>
        ensures { IfOk result (λ copy. copy ≡ self.now) }
    {
        match self {
            Answer::Integral(integral) => Ok(Answer::Integral(integral.copy(alloc)?)),
            Answer::Refuted(chain) => Ok(Answer::Refuted(chain.copy(alloc)?)),
            Answer::Stopped(halt) => Ok(Answer::Stopped(halt.copy(alloc)?)),
            Answer::Disagree { left, right } => {
                let left = left.copy(alloc)?;
                let right = right.copy(alloc)?;
                Ok(Answer::Disagree { left, right })
            }
        }
    }
}

impl Certificate {
    /// The certificate once more.
    ///
    /// `Err` for want of memory alone.
    pub fn copy(&self, alloc: Global) -> Result<Certificate, AllocError>
        ensures { IfOk result (λ copy. copy ≡ self.now) }
    {
        match self {
            Certificate::Integral(integral) => Ok(Certificate::Integral(integral.copy(alloc)?)),
            Certificate::Refuted(chain) => Ok(Certificate::Refuted(chain.copy(alloc)?)),
        }
    }
}
