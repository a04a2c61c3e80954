//! All operations of a model, and the definers of all its temporaries.

ghost use Rattle.std.specs.Prelude.{◌≡◌, ◌++◌, IfOk, OnOk, map};
ghost use Rattle.un_sites.specs.Places.{block_places, places_of, definer_of};
ghost use Rattle.un_sites.specs.Sites.{place_of, definers_in};

use crate::sites::{Site, Spot, spot_at};
use std::alloc::{AllocError, Global};
use un_base::memory_error::NoMemory;
use un_base::numbers::{advance, number};
use un_ir::extended::ExtBlock;
use un_lists::items::Items;
use un_model::model::{BlockVars, Model, TempVars};

/// Adds the operations of block `b`, of which the first has the number `first`.
pub fn add_block<'a>(
    spots: &mut Items<Spot<'a>>,
    b: u32,
    first: u32,
    block: &'a ExtBlock,
    vars: &'a BlockVars,
) -> Result<(), NoMemory>
    ensures { OnOk result (map place_of spots.new ≡ map place_of spots.old ++ block_places b first block.now vars.now) }
{
    let mut n = first;
    for k in 0..block.ops.len().min(vars.ops.len()) {
        let spot = Spot {
            block: b,
            end: vars.end,
            op: n,
            it: block.ops.get(k),
            vars: vars.ops.get(k),
        };
        spots.push(spot)?;
        n = advance(n, 1)?;
    }
    Ok(())
}

/// Adds the operations of all blocks.
fn add_blocks<'a>(spots: &mut Items<Spot<'a>>, m: &'a Model) -> Result<(), NoMemory>
    ensures { OnOk result (map place_of spots.new ≡ map place_of spots.old ++ places_of m.now) }
{
    let mut n = 0;
    for k in 0..m.ext.blocks.len().min(m.blocks.len()) {
        let b = number(k)?;
        let block = m.ext.blocks.get(k);
        add_block(spots, b, n, block, m.blocks.get(k))?;
        n = advance(n, block.ops.len())?;
    }
    Ok(())
}

/// All operations of a model.
pub fn all_spots<'a>(alloc: Global, m: &'a Model) -> Result<Items<Spot<'a>>, NoMemory>
    ensures { IfOk result (λ spots. map place_of spots ≡ places_of m.now) }
{
    let mut spots = Items::new(alloc);
    add_blocks(&mut spots, m)?;
    Ok(spots)
}

/// The definer of each temporary.
pub fn all_sites<'a>(
    alloc: Global,
    spots: &[Spot<'a>],
    temps: &[TempVars],
) -> Result<Items<Site<'a>>, AllocError>
    ensures { IfOk result (λ sites. definers_in sites ≡ map (definer_of (map place_of spots.now)) temps.now) }
{
    let mut sites = Items::from_vec(Vec::with_capacity(alloc, temps.len())?);
    for t in temps {
        let site = Site {
            place: spot_at(spots, t.op.0 as usize),
            reg: t.reg,
        };
        sites.push(site)?;
    }
    Ok(sites)
}
