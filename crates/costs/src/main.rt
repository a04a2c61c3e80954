//! Prints a line for each kernel beside it: what its first solution costs, what the code of a search with few nodes costs, and that
//! search's bound. All of it follows from the kernels alone, so that the stored table shows where code becomes dearer or cheaper.
#![tactic(auto)]

mod costs;
mod kernels;

use crate::costs::{Costs, costs_of};
use crate::kernels::KERNELS;
use std::rt::Files;
use std::{fs, io};
use un_base::memory_error::NoMemory;

/// Prints a kernel's line.
fn tell(
    rt: &(impl Print + AllocGlobal),
    name: &str,
    found: Result<Option<Costs>, NoMemory>,
) -> io::Result<()> {
    match found {
        Ok(Some(Costs { first, cost, bound })) => {
            println!(rt; "{name}: first {first}, cost {cost}, bound {bound}")
        }
        Ok(None) => println!(rt; "{name}: none"),
        Err(_) => println!(rt; "{name}: no memory"),
    }
}

/// Prints the line of the kernel of this name.
fn tell_named(rt: &(impl Files + Print + AllocGlobal), name: &str) -> io::Result<()> {
    let path = format!(in rt.alloc(); "kernel-{name}.uni")?;
    let text = fs::read_to_string(rt, path.as_str())?;
    tell(rt, name, costs_of(rt.alloc(), text.as_bytes()))
}

fn main(rt: HostRuntime) -> io::Result<()> {
    for name in KERNELS.iter() {
        tell_named(&rt, name)?;
    }
    Ok(())
}
