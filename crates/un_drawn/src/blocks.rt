//! A solution with all that is drawn of it, block by block.

use std::alloc::Global;
use un_base::ids::OpId;
use un_base::memory_error::NoMemory;
use un_base::name::Name;
use un_base::numbers::{advance, number};
use un_ir::extended::{ExtBlock, ExtOp};
use un_ir::function::Kind;
use un_lists::items::Items;
use un_model::cost::value;
use un_model::model::Model;
use un_model::schedule::Schedule;
use un_packet::code::{CodeBlock, Packet};

/// A solution with all that is drawn of it.
#[derive(Clone, Copy)]
pub struct Sheet<'a> {
    /// The name of the function.
    pub name: &'a Name,
    /// The text of the function, as the printer writes it.
    pub source: &'a [u8],
    /// The names of the function with their kinds, by number.
    pub names: &'a [(Name, Kind)],
    /// The function's model.
    pub m: &'a Model,
    /// The solution as a schedule.
    pub plan: &'a Schedule,
    /// The numbers of the registers that a function keeps, rising, and then that of the link register.
    pub saved: &'a [u32],
    /// The code of the solution, block by block.
    pub code: &'a [CodeBlock],
}

/// A block of a solution.
#[derive(Clone, Copy)]
pub struct Section<'a> {
    /// The block of the extended function.
    pub block: &'a ExtBlock,
    /// Its place among the function's blocks, 0 for the entry.
    pub number: u32,
    /// The number of its first operation in the function.
    pub first: u32,
    /// How many packets the solution has in it: its end less 1.
    pub length: u32,
}

/// What a block costs: its frequency times its packets.
pub fn cost_of(section: &Section<'_>) -> u64 {
    u64::from(section.block.freq).saturating_mul(u64::from(section.length))
}

/// What all blocks cost.
pub(crate) fn whole_cost(sections: &[Section<'_>]) -> u64 {
    let mut sum: u64 = 0;
    for section in sections {
        sum = sum.saturating_add(cost_of(section));
    }
    sum
}

/// The blocks of a model as values make them.
pub(crate) fn sections<'a>(
    alloc: Global,
    m: &'a Model,
    values: &[u32],
) -> Result<Items<Section<'a>>, NoMemory> {
    let mut all = Items::new(alloc);
    let mut first = 0;
    for k in 0..m.ext.blocks.len().min(m.blocks.len()) {
        let block = m.ext.blocks.get(k);
        let end = value(values, m.blocks.get(k).end);
        all.push(Section {
            block,
            number: number(k)?,
            first,
            length: end.saturating_sub(1),
        })?;
        first = advance(first, block.ops.len())?;
    }
    Ok(all)
}

/// An operation of a block by its number in the function.
pub fn operation<'a>(section: &Section<'a>, op: OpId) -> Option<&'a ExtOp> {
    let place = op.0.saturating_sub(section.first);
    section.block.ops.as_slice().get(place as usize)
}

/// The packet of a cycle, from 1, of a block.
pub fn packet<'a>(sheet: &Sheet<'a>, section: &Section<'_>, cycle: u32) -> Option<&'a Packet> {
    let block = sheet.code.get(section.number as usize)?;
    let place = cycle.checked_sub(1)?;
    block.packets.as_slice().get(place as usize)
}
