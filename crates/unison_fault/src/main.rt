//! The program over the real outside, with a stored run whose text has a fault.
#![tactic(auto)]

use std::process::ExitCode;
use un_top::program::program;

fn main(rt: HostRuntime) -> ExitCode {
    program(&rt)
}
