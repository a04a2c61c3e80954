//! How a run of the program ends.

ghost use Rattle.std.specs.Prelude.{◌≡◌};
ghost use Rattle.un_outside.specs.Statuses.{number_of};

/// Why a report is not accepted.
#[derive(Clone, Copy, PartialEq)]
pub enum NoCause {
    /// The report is on a function of another name.
    Name,
    /// The numbers are no solution, by the rule of this number, from 1.
    Solution(u8),
    /// The cost is not the solution's.
    Cost,
    /// The listing is not the solution's code.
    Listing,
    /// The tree's node at this place, from 0, is a branch that does not split its variable's values, or one in a part on a variable
    /// that is not of the part's block.
    Strict(u32),
    /// The tree's node at this place, from 0, is a Split at which something has two values or whose parts refute too little, or a node of
    /// a kind that cannot stand there.
    Split(u32),
    /// The tree's node at this place, from 0, is a branch or an open leaf whose box has no relaxed schedule.
    Alive(u32),
    /// The tree's node at this place, from 0, is a closed leaf that propagation does not refute.
    Closed(u32),
    /// The tree's node at this place, from 0, is a mirror leaf that mirrors no finished side.
    Mirror(u32),
    /// The tree's list ends inside the tree, or goes on after it.
    Short,
    /// A leaf is open and the budget of nodes was not used, or the answer does not fit the leaves.
    Spent,
    /// The bound is not the tree's.
    Bound,
}

/// How a run of the program ended.
#[derive(Clone, Copy, PartialEq)]
pub enum Status {
    /// The output was written whole.
    Done,
    /// The function has no code under the options.
    Infeasible,
    /// No code was found within the budget of nodes.
    Spent,
    /// The function's text has a fault at this line, from 1. The line 0 stands for an input that is too long.
    TextFault { line: u32, code: u8 },
    /// The words of the command line are not in the grammar, at this place, from 0.
    Usage { word: u32 },
    /// The source has failed.
    ReadFault,
    /// The sink has failed.
    WriteFault,
    /// There was no memory.
    NoMemory,
    /// The report is not accepted.
    No(NoCause),
    /// The input's second part is not in its grammar, at this line of it, from 1.
    BadReport { line: u32 },
    /// Code was found that costs less than was asked.
    Found { cost: u64 },
    /// The budget of nodes was used before an answer.
    Cut,
    /// The text of a table is refused, by the cause of this number, 1 to 5.
    BadTable { code: u8 },
    /// The report's tree has a node, at this place, from 0, that no log is found for.
    NoLog { node: u32 },
    /// The log of steps is not accepted, at this line of it, from 1: that is no step which may stand there, or the log ends before it,
    /// or goes on there.
    BadSteps { line: u32 },
}

impl Status {
    /// The exit status of the program: 0 to 14 in the order of the variants.
    pub fn number(&self) -> u8
        ensures { result ≡ number_of self.now }
    {
        match self {
            Status::Done => 0,
            Status::Infeasible => 1,
            Status::Spent => 2,
            Status::TextFault { .. } => 3,
            Status::Usage { .. } => 4,
            Status::ReadFault => 5,
            Status::WriteFault => 6,
            Status::NoMemory => 7,
            Status::No(_) => 8,
            Status::BadReport { .. } => 9,
            Status::Found { .. } => 10,
            Status::Cut => 11,
            Status::BadTable { .. } => 12,
            Status::NoLog { .. } => 13,
            Status::BadSteps { .. } => 14,
        }
    }
}
