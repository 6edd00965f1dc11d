// What the words ask for.
ghost use Rattle.std.specs.Int.{IsInRange};

/// A command of the program.
#[derive(Clone, Copy, Debug, PartialEq, Eq)]
pub enum Command {
    /// `integrate`: an integral, or the refutation that there is one.
    Integrate,
    /// `check`: whether a printed answer holds.
    Check,
    /// `solve`: the solutions of a linear differential equation.
    Solve,
    /// `sample`: the integral of a sample of a given size.
    Sample,
}

/// A command with the numbers of its options.
#[derive(Clone, Copy, Debug, PartialEq, Eq)]
pub struct Request {
    /// The command.
    pub command: Command,
    /// The number of workers, from 1 to 16.
    pub workers: u8,
    /// The budget, from 1 to 2^63 - 1.
    pub budget: u64,
    /// The size of the sample, from 1 to 64.
    pub size: u8,
    pub ghost workers_in_range: { IsInRange 1 16 workers },
    pub ghost budget_in_range: { IsInRange 1 9223372036854775807 budget },
    pub ghost size_in_range: { IsInRange 1 64 size },
}
