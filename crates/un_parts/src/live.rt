//! The names live at each block's start.

use std::alloc::Global;
use un_base::ids::NameId;
use un_base::memory_error::NoMemory;
use un_base::name::Name;
use un_ir::extended::LiveSets;
use un_ir::function::{Block, Function, Kind};
use un_ir::print::put_name;
use un_ir::text::put_text;

/// Appends the line of a block: its label, and the names live at its start.
fn put_block(
    out: &mut Vec<u8>,
    names: &[(Name, Kind)],
    block: &Block,
    live: &[NameId],
) -> Result<(), NoMemory> {
    put_text(out, block.label.as_bytes())?;
    put_text(out, b":")?;
    for name in live {
        put_text(out, b" ")?;
        put_name(out, names, *name)?;
    }
    put_text(out, b"\n")
}

/// A line for each block: its label, and the names live at its start in the order of their first appearance.
pub fn live_text(alloc: Global, f: &Function, live: &LiveSets) -> Result<Vec<u8>, NoMemory> {
    let mut out = Vec::new(alloc);
    let blocks = f.blocks.as_slice().iter();
    for (block, names) in blocks.zip(live.at_start.as_slice()) {
        put_block(&mut out, f.names.as_slice(), block, names.as_slice())?;
    }
    Ok(out)
}
