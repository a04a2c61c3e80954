//! The program over the real outside.
#![tactic(auto)]

use std::process::ExitCode;
use un_top::program::program;

fn main(rt: HostRuntime) -> ExitCode {
    program(&rt)
}
