//! What is found of each clause of a solution.

/// A clause of a solution that is broken.
#[derive(Clone, Copy)]
pub struct Broken {
    /// Its number, 1 to 10, as in `Verdict`.
    pub clause: u8,
}

/// Whether each clause of a solution is kept.
#[derive(Clone, Copy)]
pub struct Verdict {
    /// 1: each value is in its domain, and there are as many as variables.
    pub domains: bool,
    /// 2: the variables of inactive operations are 0.
    pub zeros: bool,
    /// 3: operands choose active temporaries.
    pub choices: bool,
    /// 4: registers lie in the spaces of the instructions.
    pub spaces: bool,
    /// 5: operations lie within their block, and users wait for their definers.
    pub latencies: bool,
    /// 6: memory is accessed in order.
    pub memory: bool,
    /// 7: temporaries that share a register do so at different times, and calls clobber none of them.
    pub registers: bool,
    /// 8: each packet has the resources for its instructions.
    pub packets: bool,
    /// 9: preassigned operands have their homes.
    pub homes: bool,
    /// 10: the frame flag says whether there is a frame.
    pub frame: bool,
}
