//! The least cost of the relaxation of a model in a box.

ghost use Rattle.std.specs.Prelude.{◌≡◌, ◌+◌, ◌≤◌, All, length};
ghost use Rattle.un_domains.specs.Sets.{NoneEmpty};
ghost use Rattle.un_prop.specs.Pruning.{HasRoom};
ghost use Rattle.un_bound.specs.Arcs.{IsOrderly};
ghost use Rattle.un_bound.specs.Choices.{AllKnown, HasPlaces};
ghost use Rattle.un_bound.specs.Relaxations.{IsRelaxation};
ghost use Rattle.un_ir.specs.Extended.{IsExtended};
ghost use Rattle.un_isa.specs.Fit.{IsFit};
ghost use Rattle.un_model.specs.Variables.{IsModel};

use crate::settle::least_stop;
use un_domains::store::Store;
use un_model::model::Model;
use un_prop::propagator::Scratch;

/// What the relaxation has: no member, or members of which the cheapest costs so much.
#[derive(Clone, Copy, PartialEq)]
pub enum RelaxAnswer {
    Empty,
    Least(u64),
}

/// What the relaxation has, by way of `room`, which has a place for each operation of a block.
fn relax_by(m: &Model, store: &Store, room: &mut [u32]) -> RelaxAnswer
    requires orderly { IsOrderly m.now }
    requires known { AllKnown (length store.now.sets) m.now.ext.blocks m.now.blocks }
    requires live { NoneEmpty store.now.sets }
    requires room { All (HasPlaces (length room.old)) m.now.ext.blocks }
    ensures { IsRelaxation m.now store.now.sets result }
{
    let mut sum = 0;
    let mut first = 0;
    for k in 0..m.ext.blocks.len().min(m.blocks.len()).min(m.arcs.len()) {
        let block = m.ext.blocks.get(k);
        let arcs = m.arcs.get(k).as_slice();
        match least_stop(store, room, first, block, m.blocks.get(k), arcs) {
            None => return RelaxAnswer::Empty,
            Some(stop) => {
                sum += u64::from(block.freq) * u64::from(stop.saturating_sub(1));
                first += block.ops.len();
            }
        }
    }
    RelaxAnswer::Least(sum)
}

/// Whether there are cycles of the sets of a store that keep what the relaxation of the model asks for, and what the cheapest cost. It
/// takes no memory.
pub fn relax_bound(m: &Model, store: &Store, scratch: &mut Scratch) -> RelaxAnswer
    requires model { IsModel m.now }
    requires extended { IsExtended m.now.ext }
    requires fit { IsFit m.now.ext.table }
    requires known { length m.now.domains ≤ length store.now.sets }
    requires live { NoneEmpty store.now.sets }
    requires room { All (λ block. HasRoom (length store.now.sets) (block.horizon + 1) scratch.old) m.now.ext.blocks }
    ensures answer { IsRelaxation m.now store.now.sets result }
    ensures fixed { length scratch.new.fixed.items ≡ length scratch.old.fixed.items }
    ensures cycles { length scratch.new.cycles.items ≡ length scratch.old.cycles.items }
{
    relax_by(m, store, scratch.cycles.as_mut_slice())
}
