//! What is posted of the cost.

ghost use Rattle.std.specs.Prelude.{◌≡◌, [], ◌∷◌, ◌++◌, IfOk, OnOk};
ghost use Rattle.un_kinds.specs.Constraints.{Below};
ghost use Rattle.un_kinds.specs.Scopes.{Makes};
ghost use Rattle.un_sites.specs.Postings.{ends_by, limit_of, part_limit, weighted};

use std::alloc::Global;
use un_base::memory_error::NoMemory;
use un_ir::extended::ExtBlock;
use un_kinds::any::AnyProp;
use un_kinds::make_prec::make_below;
use un_kinds::props::Props;
use un_lists::items::Items;
use un_model::model::{BlockVars, Model};
use un_prec::below::Weighted;

/// The ends of the blocks, with their frequencies.
fn ends_of(
    alloc: Global,
    blocks: &Items<ExtBlock>,
    vars: &Items<BlockVars>,
) -> Result<Items<Weighted>, NoMemory>
    ensures { IfOk result (λ ends. ends ≡ ends_by blocks.now vars.now) }
{
    let mut ends = Items::new(alloc);
    for k in 0..blocks.len().min(vars.len()) {
        let weighted = Weighted {
            end: vars.get(k).end,
            freq: blocks.get(k).freq,
        };
        ends.push(weighted)?;
    }
    Ok(ends)
}

/// The propagator by which the cost is less than a limit.
pub fn limit_prop(alloc: Global, m: &Model, limit: u64) -> Result<AnyProp, NoMemory>
    ensures { IfOk result (Makes (Below (ends_by m.now.ext.blocks m.now.blocks) limit)) }
{
    let ends = ends_of(alloc, &m.ext.blocks, &m.blocks)?;
    make_below(alloc, ends, limit)
}

/// The cost is less than a limit, where there is one.
pub fn post_limit(props: &mut Props, m: &Model, limit: Option<u64>) -> Result<(), NoMemory>
    ensures { OnOk result (props.new ≡ props.old ++ limit_of m.now limit) }
{
    match limit {
        None => Ok(()),
        Some(most) => {
            let made = limit_prop(props.alloc(), m, most)?;
            props.push(made)
        }
    }
}

/// The propagator by which the cost of one block is less than a limit.
fn part_prop(
    alloc: Global,
    block: &ExtBlock,
    vars: &BlockVars,
    limit: u64,
) -> Result<AnyProp, NoMemory>
    ensures { IfOk result (Makes (Below (weighted block.now vars.now ∷ []) limit)) }
{
    let mut ends = Items::new(alloc);
    ends.push(Weighted {
        end: vars.end,
        freq: block.freq,
    })?;
    make_below(alloc, ends, limit)
}

/// The cost of one block is less than a limit, where there is one.
pub fn post_part_limit(
    props: &mut Props,
    block: &ExtBlock,
    vars: &BlockVars,
    limit: Option<u64>,
) -> Result<(), NoMemory>
    ensures { OnOk result (props.new ≡ props.old ++ part_limit block.now vars.now limit) }
{
    match limit {
        None => Ok(()),
        Some(most) => {
            let made = part_prop(props.alloc(), block, vars, most)?;
            props.push(made)
        }
    }
}
