//! The state of a run and how it stops.

ghost use Rattle.std.specs.Prelude.{◌≡◌, ◌++◌, ◌-◌, ◌≤◌, List, map, take, length, replicate, slice_index, IfOk, OnOk};
ghost use Rattle.un_ir.specs.Source.{assigned, first_state};
ghost use Rattle.un_source.specs.States.{state_of};

use std::alloc::Global;
use un_base::ids::NameId;
use un_base::memory_error::NoMemory;
use un_ir::function::Function;
use un_isa::memory::Memory;
use un_isa::outcome::CallRecord;
use un_isa::start::Start;
use un_lists::items::Items;

/// The state of a run of a function.
#[derive(Drop)]
pub struct State {
    /// The value of each name, by number; 0 before it is assigned.
    pub values: Items<u32>,
    /// The memory now.
    pub memory: Memory,
    /// The calls so far, in order.
    pub calls: Items<CallRecord>,
    /// How many of the start's replies they took.
    pub replied: usize,
}

/// How a run stops within a block.
#[derive(Drop)]
pub enum Stop {
    Returned(Option<u32>),
    Trapped,
    Waiting(CallRecord),
}

/// The value of a name.
pub fn value_in(values: &[u32], name: NameId) -> u32
    ensures { result ≡ slice_index values.now name.0 }
{
    values.get(name.0 as usize).copied().unwrap_or(0)
}

/// A name has the value `v` from there on.
pub fn assign(values: &mut Items<u32>, name: Option<NameId>, v: u32)
    ensures { values.new ≡ assigned values.old name v }
{
    if let Some(name) = name {
        let place = name.0 as usize;
        if place < values.len() {
            values.set(place, v);
        }
    }
}

/// The first of these values, as many as there are up to a count.
#[tactic(auto, using(crate::proofs::Steps::take_least))]
fn first_of(alloc: Global, values: &[u32], count: usize) -> Result<Vec<u32>, NoMemory>
    ensures { IfOk result (λ first. first.items ≡ take count values.now) }
{
    let least = count.min(values.len());
    let first = Vec::from_slice(alloc, &values[..least])?;
    Ok(first)
}

/// So many zeros behind values.
fn push_zeros(alloc: Global, values: &mut Vec<u32>, count: usize) -> Result<(), NoMemory>
    ensures { OnOk result (values.new.items ≡ values.old.items ++ replicate count 0) }
{
    let zeros = vec![in alloc; 0; count]?;
    values.extend_from_slice(&zeros)?;
    Ok(())
}

/// The values at the start: the parameters', which are the first names, and 0 for the others.
fn first_values(alloc: Global, f: &Function, start: &Start) -> Result<Items<u32>, NoMemory>
    ensures { IfOk result (λ values. values
        ≡ take (length f.now.params) start.now.regs ++ replicate (length f.now.names - length f.now.params) 0) }
{
    let mut values = first_of(alloc, &start.regs, f.params.len())?;
    let others = f.names.len().saturating_sub(f.params.len());
    push_zeros(alloc, &mut values, others)?;
    Ok(Items::from_vec(values))
}

/// The state at the start.
pub fn first_state(alloc: Global, f: &Function, start: &Start) -> Result<State, NoMemory>
    ensures { IfOk result (λ s. state_of start.now.replies s ≡ first_state f.now start.now) }
{
    let values = first_values(alloc, f, start)?;
    let memory = start.memory.clone()?;
    Ok(State {
        values,
        memory,
        calls: Items::new(alloc),
        replied: 0,
    })
}
