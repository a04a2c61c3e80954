//! Making a linear function.

ghost use Rattle.std.specs.Prelude.{◌≡◌, map, length, IfOk};
ghost use Rattle.un_ir.specs.Extended.{IsLinear};
ghost use Rattle.un_ir.specs.Runs.{RunsAsSource};
ghost use Rattle.un_ir.specs.LinearOf.{AreLive, kind_of_pair, lin_of, linear_blocks};
ghost use Rattle.un_isa.specs.Fit.{IsFit};

use crate::blocks::linear_blocks;
use std::alloc::Global;
use un_base::memory_error::NoMemory;
use un_base::name::Name;
use un_ir::extended::{LiveSets, Lssa, LssaBlock};
use un_ir::function::{Function, Kind};
use un_isa::reg_set::callee_saved;
use un_isa::table::Table;
use un_lists::items::Items;

/// The kind of each name.
fn kinds(alloc: Global, names: &[(Name, Kind)]) -> Result<Items<Kind>, NoMemory>
    ensures { IfOk result (λ kinds. kinds ≡ map kind_of_pair names.now) }
{
    let mut kinds = Items::new(alloc);
    for name in names {
        kinds.push(name.1)?;
    }
    Ok(kinds)
}

/// The blocks of the linear function of a function with these live names.
fn blocks_of(
    alloc: Global,
    f: &Function,
    live: &LiveSets,
    t: &Table,
) -> Result<Items<LssaBlock>, NoMemory>
    requires { AreLive f.now.blocks live.now.at_start }
    ensures { IfOk result (λ bs. bs ≡ linear_blocks t.now (length f.now.names) live.now.at_start 0 0 f.now.blocks) }
{
    let registers = callee_saved(alloc, t)?;
    linear_blocks(
        alloc,
        t,
        &registers,
        live,
        f.names.len(),
        f.blocks.as_slice(),
    )
}

/// The linear function of a function with these live names, under a table: every block defines its own temporaries, first
/// one for each name that is live at its start and for each saved value. From each start it comes to what the function comes
/// to, for any number of blocks entered.
///
/// # Errors
/// `NoMemory` where there is no memory for it.
pub fn linearize(alloc: Global, f: &Function, live: &LiveSets, t: &Table) -> Result<Lssa, NoMemory>
    requires { AreLive f.now.blocks live.now.at_start }
    ensures linear { IfOk result (λ l. l ≡ lin_of f.now live.now.at_start t.now) }
    ensures runs { IfOk result (RunsAsSource f.now live.now.at_start t.now) }
    ensures kept { IsFit t.now → IfOk result IsLinear }
{
    let names = kinds(alloc, f.names.as_slice())?;
    let blocks = blocks_of(alloc, f, live, t)?;
    Ok(Lssa {
        table: *t,
        names,
        blocks,
    })
}
