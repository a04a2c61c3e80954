//! The bound that knows no domain.

ghost use Rattle.std.specs.Prelude.{◌≡◌, ◌*◌, ◌≤◌, ◌↔◌, All, IsTrue, length};
ghost use Rattle.un_ir.specs.Extended.{IsExtended};
ghost use Rattle.un_isa.specs.Fit.{IsFit};
ghost use Rattle.un_model.specs.Variables.{IsModel};
ghost use Rattle.un_bound.specs.Arcs.{LeadOn, IsShort, IsOrderly};
ghost use Rattle.un_bound.specs.Plain.{plain_share, share_by_class, needed, packets_for, packets_of, IsPacketBound, IsPlainBound};

use crate::lengths::{ROOM, least_length};
use un_ir::extended::{ExtBlock, ExtOp};
use un_isa::facts::{Class, class_of};
use un_isa::op::Op;
use un_isa::packet_counts::{Resource, places};
use un_model::instructions::instruction;
use un_model::model::{Arc, Model};

/// How much of a resource an instruction of a class takes, whatever a table says.
fn share_by_class(resource: Resource, class: Class) -> u32
    ensures value { result ≡ share_by_class resource class }
    ensures few { result ≤ 1 }
{
    let takes = match resource {
        Resource::Instructions => true,
        Resource::Memory => matches!(class, Class::Loading | Class::Storing),
        Resource::Stores => matches!(class, Class::Storing),
        Resource::MultiplyOrControl => matches!(class, Class::Xtype | Class::Control),
        Resource::Control => matches!(class, Class::Control),
    };
    u32::from(takes)
}

/// How much of a resource an instruction takes by its class, if there is one.
fn plain_share(resource: Resource, instr: Option<Op>) -> u32
    ensures value { result ≡ plain_share resource instr }
    ensures few { result ≤ 1 }
{
    match instr {
        None => 0,
        Some(op) => share_by_class(resource, class_of(op)),
    }
}

/// How much of a resource the operations of a block take that every solution issues.
fn needed(resource: Resource, ops: &[ExtOp]) -> u32
    requires { length ops.now ≤ ROOM }
    ensures value { result ≡ needed resource ops.now }
    ensures few { result ≤ ROOM }
{
    let mut sum = 0;
    for op in ops {
        sum += plain_share(resource, instruction(&op.kind, 0));
    }
    sum
}

/// The least number of packets that has it.
fn packets_for(resource: Resource, ops: &[ExtOp]) -> u32
    requires { length ops.now ≤ ROOM }
    ensures value { result ≡ packets_for resource ops.now }
    ensures few { result ≤ 256 * ROOM }
{
    let places = places(resource);
    (needed(resource, ops) + (places - 1)) / places
}

/// The least number of packets of a block whose precedences allow this length.
fn packets(len: u64, ops: &[ExtOp]) -> u64
    requires room { length ops.now ≤ ROOM }
    requires few { len ≤ 256 * ROOM }
    ensures value { result ≡ packets_of len ops.now }
    ensures few { result ≤ 256 * ROOM }
{
    let all = packets_for(Resource::Instructions, ops);
    let memory = packets_for(Resource::Memory, ops);
    let stores = packets_for(Resource::Stores, ops);
    let others = packets_for(Resource::MultiplyOrControl, ops);
    len.max(u64::from(all.max(memory).max(stores.max(others))))
}

/// The least number of packets of a block, by way of `room`, which has a place for each operation.
fn block_bound(room: &mut [u32], first: usize, block: &ExtBlock, arcs: &[Arc]) -> u64
    requires long { length block.now.ops ≤ length room.old }
    requires room { length block.now.ops ≤ ROOM }
    requires arcs { LeadOn first block.now.ops arcs.now }
    ensures value { IsPacketBound first block.now arcs.now result }
    ensures few { result ≤ 256 * ROOM }
{
    let ops = block.ops.as_slice();
    let length = least_length(room, first, ops, arcs);
    packets(length, ops)
}

/// The sum over the blocks of their frequencies times their least numbers of packets, by way of `room`.
fn sum_of(m: &Model, room: &mut [u32]) -> u64
    requires orderly { IsOrderly m.now }
    requires short { All IsShort m.now.ext.blocks }
    requires room { ROOM ≤ length room.old }
    ensures { IsPlainBound m.now result }
{
    let mut sum = 0;
    let mut first = 0;
    for k in 0..m.ext.blocks.len().min(m.arcs.len()) {
        let block = m.ext.blocks.get(k);
        let packets = block_bound(room, first, block, m.arcs.get(k).as_slice());
        sum += u64::from(block.freq) * packets;
        first += block.ops.len();
    }
    sum
}

/// Whether each block of a model has few enough operations for `plain_bound`.
pub fn is_short(m: &Model) -> bool
    ensures { IsTrue result ↔ All IsShort m.now.ext.blocks }
{
    m.ext.blocks.iter().all(|block| block.ops.len() <= ROOM)
}

/// What every solution costs at least, by precedences and counts of resources alone. It takes no memory.
pub fn plain_bound(m: &Model) -> u64
    requires model { IsModel m.now }
    requires extended { IsExtended m.now.ext }
    requires fit { IsFit m.now.ext.table }
    requires short { All IsShort m.now.ext.blocks }
    ensures { IsPlainBound m.now result }
{
    let mut room = [0; ROOM];
    sum_of(m, &mut room)
}
