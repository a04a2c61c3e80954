//! What a command line may ask for.

use un_model::model::Options;

/// The most nodes that the tree of a search may be given.
pub const MOST_NODES: u32 = 200_000;

/// How many nodes the tree of a search may have where no number is given.
pub(crate) const DEFAULT_NODES: u32 = 2_000;

/// The largest size of a function that is made.
pub(crate) const MOST_SIZE: u32 = 16;

/// What a search may use.
#[derive(Clone, Copy)]
pub struct SearchOptions {
    /// How many nodes its tree may have, 1 to 200,000.
    pub nodes: u32,
    /// How many general registers it may assign, r0 to r(n − 1), where n is 1 to 29; None for all of r0 to r28 and r31.
    pub regs: Option<u32>,
    /// How many frame slots it may use, 0 to 256.
    pub slots: u32,
}

impl SearchOptions {
    ghost use Rattle.std.specs.Prelude.{◌≡◌};
    ghost use Rattle.un_commands.specs.Alloc.{model_options};

    /// What the search may use of the processor.
    pub fn model_options(&self) -> Options
        ensures { result ≡ model_options self.now }
    {
        Options {
            regs: self.regs,
            slots: self.slots,
        }
    }
}

/// What a command line may ask for over an input.
#[derive(Clone, Copy)]
pub enum ReadingCommand {
    /// The report of a function, with its code.
    Alloc(SearchOptions),
    /// What a function does from a start.
    Run,
    /// What code does from a start.
    RunCode,
    /// Whether the report of a function is accepted.
    Check,
    /// The report of a function, by a search from a schedule of it on.
    Improve(SearchOptions),
    /// The report of a function by a table of the processor, with its code.
    AllocTable(SearchOptions),
    /// Whether the report of a function is accepted by such a table.
    CheckTable,
    /// What code does from a start by such a table.
    RunCodeTable,
    /// Whether a function has code that costs less than a limit.
    Refute { limit: u64, options: SearchOptions },
    /// Whether the refutation of a function is accepted.
    RefuteCheck,
    /// The log of the steps that show each leaf of the tree of a function's report, where `counts` with the rule that counts what
    /// cycles hold.
    Steps { counts: bool },
    /// Whether such a log is accepted, where `counts` with that rule.
    StepsCheck { counts: bool },
}

/// What it may ask for without one.
#[derive(Clone, Copy)]
pub enum MakingCommand {
    /// The function that is made from a seed, with so many blocks, 1 to 16.
    Generate { seed: u64, size: u32 },
    /// The report of such a function, by a search of so many nodes, 1 to 200,000.
    GenerateAlloc { seed: u64, size: u32, nodes: u32 },
}

/// What a command line asks for.
#[derive(Clone, Copy)]
pub enum Command {
    /// What is put out over an input.
    Reads(ReadingCommand),
    /// What is put out without one.
    Makes(MakingCommand),
}
