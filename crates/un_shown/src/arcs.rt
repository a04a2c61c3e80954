//! The precedences of a model as text, and the bound that they give.

ghost use Rattle.std.specs.Prelude.{All};
ghost use Rattle.un_bound.specs.Arcs.{IsShort};
ghost use Rattle.un_ir.specs.Extended.{IsExtended};
ghost use Rattle.un_isa.specs.Fit.{IsFit};
ghost use Rattle.un_model.specs.Variables.{IsModel};

use crate::text::put_between;
use un_base::memory_error::NoMemory;
use un_bound::plain::plain_bound;
use un_model::model::{Arc, Model};

/// Appends the line of a precedence: its two operations and how many cycles they are apart.
fn put_arc(out: &mut Vec<u8>, arc: &Arc) -> Result<(), NoMemory> {
    put_between(out, b"arc o", u64::from(arc.from.0), b" o")?;
    put_between(out, b"", u64::from(arc.to.0), b" ")?;
    put_between(out, b"", u64::from(arc.gap), b"\n")
}

/// Appends the lines of a block's precedences.
fn put_arcs(out: &mut Vec<u8>, arcs: &[Arc]) -> Result<(), NoMemory> {
    for arc in arcs {
        put_arc(out, arc)?;
    }
    Ok(())
}

/// Appends the line of what every solution costs at least, by precedences and counts of resources alone.
fn put_bound(out: &mut Vec<u8>, m: &Model) -> Result<(), NoMemory>
    requires model { IsModel m.now }
    requires extended { IsExtended m.now.ext }
    requires fit { IsFit m.now.ext.table }
    requires short { All IsShort m.now.ext.blocks }
{
    put_between(out, b"bound ", plain_bound(m), b"\n")
}

/// Appends a line for each precedence, block by block, and last the bound.
pub fn put_all_arcs(out: &mut Vec<u8>, m: &Model) -> Result<(), NoMemory>
    requires model { IsModel m.now }
    requires extended { IsExtended m.now.ext }
    requires fit { IsFit m.now.ext.table }
    requires short { All IsShort m.now.ext.blocks }
{
    for arcs in m.arcs.as_slice() {
        put_arcs(out, arcs.as_slice())?;
    }
    put_bound(out, m)
}
