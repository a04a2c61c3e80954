//! The check of a tree with mirrors.

ghost use Rattle.std.specs.Prelude.{◌≡◌, ◌≤◌, ℕ, List, [], IfOk, Option};
ghost use Rattle.un_ir.specs.Extended.{IsExtended};
ghost use Rattle.un_isa.specs.Fit.{IsFit};
ghost use Rattle.un_model.specs.Cost.{cost_of};
ghost use Rattle.un_model.specs.Options.{AreOptions};
ghost use Rattle.un_model.specs.Solutions.{IsSolution};
ghost use Rattle.un_model.specs.Variables.{IsModel};
ghost use Rattle.un_model.specs.declared.model.Model.{Model};
ghost use Rattle.un_model.specs.declared.model.Solution.{Solution};
ghost use Rattle.un_stand.specs.Rooms.{CanCheck, IsAt};
ghost use Rattle.un_symtree.specs.declared.node.SymNode.{SymNode};
ghost use Rattle.un_refutes.specs.SymVerdicts.{IsSymVerdict, IsVerdict, OnYes};
ghost use Rattle.un_refutes.specs.SymWalks.{IsWalk};

use crate::verdict::SymVerdict;
use crate::walk::{Walk, visit};
use std::alloc::Global;
use un_base::memory_error::NoMemory;
use un_mirrors::registers::registers_of;
use un_model::model::Model;
use un_post::post::{Posted, post};
use un_stand::room::first_room;
use un_stand::rules::Rules;
use un_symtree::node::SymTree;

/// Before the first node.
fn begin(alloc: Global, rules: &Rules) -> Result<Walk, NoMemory>
    requires model { IsModel rules.now.m.now }
    requires extended { IsExtended rules.now.m.now.ext }
    requires fit { IsFit rules.now.m.now.ext.table }
    requires options { AreOptions rules.now.m.now.options }
    ensures rules { IfOk result (λ walk. CanCheck rules.now) }
    ensures at { IfOk result (λ walk. IsAt rules.now.m.now rules.now.limit walk.room) }
    ensures walk { IfOk result (λ walk. (nodes : List SymNode) → IsWalk rules.now.m.now rules.now.limit nodes nodes walk) }
{
    let posted = post(alloc, rules.m, rules.limit)?;
    let cuts = posted.store.copy(alloc)?;
    let Posted {
        props,
        store,
        horizon,
        ..
    } = posted;
    let room = first_room(alloc, cuts, props, store, horizon)?;
    Ok(Walk {
        room,
        more: true,
        place: 0,
    })
}

/// The verdict behind the last node.
fn verdict_of(walk: &Walk) -> SymVerdict
    ensures { (m : Model) (limit : Option ℕ) (nodes : List SymNode) → IsWalk m limit nodes [] walk.now → IsVerdict m limit nodes result }
{
    if walk.more {
        SymVerdict::Short
    } else {
        SymVerdict::Yes
    }
}

/// The check of a tree with mirrors under a limit on the cost: which node is the first that breaks its point, and whether the list is
/// one whole tree. Where all is well, no solution costs less than the limit: what a mirror leaves out is, with its registers
/// exchanged, in a left side that holds none.
///
/// # Errors
/// Where memory is short, or there are more nodes, variables or operations than numbers below 2^32.
pub fn check_sym(alloc: Global, m: &Model, limit: u64, t: &SymTree) -> Result<SymVerdict, NoMemory>
    requires model { IsModel m.now }
    requires extended { IsExtended m.now.ext }
    requires fit { IsFit m.now.ext.table }
    requires options { AreOptions m.now.options }
    ensures verdict { IfOk result (IsSymVerdict m.now limit t.now.nodes.items) }
    ensures sound { IfOk result (OnYes ((x : Solution) → IsSolution m.now x → limit ≤ cost_of m.now x)) }
{
    let limit = Some(limit);
    let rules = Rules { m, limit };
    let registers = registers_of(alloc, m)?;
    let mut walk = begin(alloc, &rules)?;
    for node in &t.nodes {
        let told = visit(&rules, &registers, &mut walk, *node)?;
        if let Some(verdict) = told {
            return Ok(verdict);
        }
    }
    Ok(verdict_of(&walk))
}
