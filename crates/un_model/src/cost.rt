//! What a solution costs.

ghost use Rattle.std.specs.Prelude.{◌≡◌, slice_index};
ghost use Rattle.un_model.specs.Cost.{value_of, block_cost, blocks_cost, cost_of};
ghost use Rattle.un_model.specs.Extended.{HasSmallCounts};
ghost use Rattle.un_model.specs.Variables.{IsModel};

use crate::model::{BlockVars, Model, Solution};
use un_base::ids::VarId;
use un_ir::extended::ExtBlock;

/// The value of a variable, 0 where there is none.
pub fn value(values: &[u32], v: VarId) -> u32
    ensures { result ≡ value_of values.now v }
{
    values.get(v.0 as usize).copied().unwrap_or(0)
}

/// The cost of a block.
fn block_cost(values: &[u32], block: &ExtBlock, vars: &BlockVars) -> u64
    ensures { result ≡ block_cost values.now block.now vars.now }
{
    u64::from(block.freq) * u64::from(value(values, vars.end).saturating_sub(1))
}

/// The cost of a solution: the sum over the blocks of frequency times the cycles before the block's end.
pub fn cost(m: &Model, s: &Solution) -> u64
    requires model { IsModel m.now }
    requires counts { HasSmallCounts m.now.ext }
    ensures { result ≡ cost_of m.now s.now }
{
    let values = s.values.as_slice();
    let mut sum = 0;
    for k in 0..m.ext.blocks.len().min(m.blocks.len()) {
        sum += block_cost(values, m.ext.blocks.get(k), m.blocks.get(k));
    }
    sum
}
