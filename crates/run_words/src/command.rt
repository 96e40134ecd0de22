// The commands of the program.
ghost use Rattle.std.specs.Prelude.{◌≡◌};
ghost use Rattle.run_words.specs.Traits.{trains};

/// A command to the program.
#[derive(Clone, Copy, Debug, PartialEq, Eq)]
pub enum Command {
    /// The base cuts of a problem, and their bound.
    Base,
    /// Training up to so many iterations, 0 to 2,000, of a seed, with 1 to 64 paths an iteration where a batch is given.
    Train {
        seed: u64,
        count: u32,
        batch: Option<u16>,
    },
    /// The contents of a journal.
    Check,
    /// Simulation of so many drawn scenarios, 0 to 1,000.
    Simulate {
        seed: u64,
        count: u32,
    },
    /// Simulation of the stored scenarios.
    Validate,
    /// A problem of 1 to 500 stages and 1 to 10 reservoirs.
    Gen {
        seed: u64,
        stages: u32,
        reservoirs: u32,
    },
    /// The cost of the whole policy.
    Evaluate,
    /// The problem of a description of hydro plants.
    Hydro,
    /// The bound on the worst expectation.
    Robust,
}

/// The numbers behind `train`: the seed, how many iterations there are to be in all, and perhaps the paths of each.
#[derive(Clone, Copy, Debug, PartialEq, Eq)]
pub struct TrainingNumbers {
    pub seed: u64,
    pub count: u32,
    pub batch: Option<u16>,
}

/// Tells whether a command trains. It is the one that writes its journal.
pub fn trains(command: Command) -> bool
    ensures { result ≡ trains command }
{
    matches!(command, Command::Train { .. })
}
