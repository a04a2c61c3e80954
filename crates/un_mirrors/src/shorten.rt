//! Trees shortened: a subtree in whose place a mirror of two neighbouring registers stands on the nearest branch is put as that mirror.

ghost use Rattle.std.specs.Prelude.{◌≡◌, ◌≢◌, ◌<◌, ◌++◌, ◌∷◌, [], ℕ, true, All, OnOk, IfOk, IfSome, IfNone, length};
ghost use Rattle.un_domains.specs.Domains.{IsDomain};
ghost use Rattle.un_model.specs.Boxes.{root_of};
ghost use Rattle.un_model.specs.Variables.{IsModel};
ghost use Rattle.un_tree.specs.Waits.{HasSides, IsPlain, IsTreeOf, visits_of};
ghost use Rattle.un_tree.specs.declared.node.Node.TheVariants.{Open};
ghost use Rattle.un_symtree.specs.SymTexts.{SymFits};
ghost use Rattle.un_walk.specs.Routes.{IsWholeBy};
ghost use Rattle.un_walk.specs.Stands.{IsStandAt};
ghost use Rattle.un_mirrors.specs.Exchanged.{AreRegisters};
ghost use Rattle.un_mirrors.specs.Mirrors.{sym_branch_at};
ghost use Rattle.un_mirrors.specs.Shortened.{IsKept, IsMirrorOnNearest, IsNoMore, IsShortOf, MirrorsAt, SplitsAt, sym_routes};
ghost use Rattle.un_mirrors.specs.Works.{IsMirrorHere, IsSameNode, IsShortenable, IsWork};

use crate::mirror::is_mirror;
use crate::nearest::nearest_right;
use crate::registers::{Registers, registers_of};
use crate::tree_end::tree_end;
use std::alloc::{AllocError, Global};
use un_base::memory_error::NoMemory;
use un_base::numbers::number;
use un_domains::domain::Domain;
use un_domains::store::Store;
use un_isa::reg::Reg;
use un_model::model::Model;
use un_symtree::node::{SymNode, SymTree};
use un_tree::node::{Node, Tree};
use un_walk::branch::branch_of;
use un_walk::stand::{Stand, first_stand, step};

/// How far the shortening of a tree has come.
#[derive(Drop)]
pub(crate) struct Work {
    /// At the next node.
    pub stand: Stand,
    /// Whether there is one.
    pub more: bool,
    /// Its place.
    pub place: usize,
    /// The nodes before it, shortened.
    pub nodes: Vec<SymNode>,
}

/// The same domains once more.
fn copy_domains(alloc: Global, domains: &[Domain]) -> Result<Vec<Domain>, AllocError>
    ensures { IfOk result (λ same. same.items ≡ domains.now) }
{
    let mut same = Vec::new(alloc);
    for domain in domains {
        same.push(domain.copy()?)?;
    }
    Ok(same)
}

/// The store of the first box of a model.
fn first_store(alloc: Global, m: &Model) -> Result<Store, NoMemory>
    requires { All IsDomain m.now.domains }
    ensures sets { IfOk result (λ s. s.sets ≡ root_of m.now) }
    ensures marked { IfOk result (λ s. s.marked ≡ []) }
{
    number(m.domains.len())?;
    let same = copy_domains(alloc, m.domains.as_slice())?;
    Store::new(alloc, same)
}

/// Before the first node.
fn first_work(alloc: Global, m: &Model, nodes: &[Node]) -> Result<Work, NoMemory>
    requires domains { All IsDomain m.now.domains }
    requires tree { IsShortenable m.now nodes.now }
    ensures { IfOk result (IsWork m.now nodes.now) }
{
    let _ = nodes;
    let cuts = first_store(alloc, m)?;
    Ok(Work {
        stand: first_stand(alloc, cuts),
        more: true,
        place: 0,
        nodes: Vec::new(alloc),
    })
}

/// The mirror that may stand where a walk stands: of a register and the next one, on the nearest branch on whose right side that is.
/// The variable of that branch has to have one value left there, and this value is the second of the two.
fn mirror_at(m: &Model, registers: &Registers, stand: &Stand) -> Option<SymNode>
    requires model { IsModel m.now }
    requires registers { AreRegisters m.now registers.now }
    requires at { IsStandAt (root_of m.now) stand.now }
    ensures some { IfSome result (IsMirrorHere m.now stand.now.path.items) }
    ensures none { IfNone result ((a : ℕ) → IsMirrorOnNearest m.now a stand.now.path.items → ⊥) }
    ensures fits { IfSome result SymFits }
{
    stand.cuts.facts();
    let depth = nearest_right(stand.path.as_slice())?;
    let value = stand.cuts.min(stand.path[depth].var);
    let a = Reg(value - 1);
    let b = Reg(value);
    let depth = depth as u32;
    if is_mirror(m, registers, stand, a, b, depth) {
        Some(SymNode::Mirror { a, b, depth })
    } else {
        None
    }
}

/// Adds a node.
fn push(nodes: &mut Vec<SymNode>, node: SymNode) -> Result<(), NoMemory>
    ensures { OnOk result (nodes.new.items ≡ nodes.old.items ++ node ∷ []) }
{
    match nodes.push(node) {
        Ok(_) => Ok(()),
        Err(_) => Err(NoMemory),
    }
}

/// A node that is kept.
fn same_node(node: Node) -> SymNode
    requires closed { node ≢ Open }
    requires plain { IsPlain node }
    ensures same { IsSameNode node result }
    ensures fits { SymFits result }
{
    match node {
        Node::Branch { var, val } => SymNode::Branch { var, val },
        Node::Closed => SymNode::Closed,
        Node::Open => unreachable!(),
        Node::Split => unreachable!(),
        Node::Part { .. } => unreachable!(),
    }
}

/// Keeps the next node.
fn keep(m: &Model, nodes: &[Node], work: &mut Work) -> Result<(), NoMemory>
    requires tree { IsShortenable m.now nodes.now }
    requires work { IsWork m.now nodes.now work.old }
    requires more { work.old.more ≡ true }
    requires none { (a : ℕ) → IsMirrorOnNearest m.now a work.old.stand.path.items → ⊥ }
    ensures work { OnOk result (IsWork m.now nodes.now work.new) }
    ensures later { OnOk result (work.old.place < work.new.place) }
{
    let _ = m;
    let node = nodes[work.place];
    push(&mut work.nodes, same_node(node))?;
    work.place += 1;
    work.more = step(&mut work.stand, branch_of(node))?;
    Ok(())
}

/// Puts the next subtree as a mirror.
fn put(m: &Model, nodes: &[Node], work: &mut Work, mirror: SymNode) -> Result<(), NoMemory>
    requires tree { IsShortenable m.now nodes.now }
    requires work { IsWork m.now nodes.now work.old }
    requires more { work.old.more ≡ true }
    requires mirror { IsMirrorHere m.now work.old.stand.path.items mirror }
    requires fits { SymFits mirror }
    ensures work { OnOk result (IsWork m.now nodes.now work.new) }
    ensures later { OnOk result (work.old.place < work.new.place) }
{
    let _ = m;
    push(&mut work.nodes, mirror)?;
    work.place = tree_end(nodes, work.place);
    work.more = step(&mut work.stand, None)?;
    Ok(())
}

/// A whole tree without open leaves and without a Split, each of whose branches has both sides, shortened in one pass: each subtree is put as a mirror
/// where a mirror of two neighbouring registers stands there on the nearest branch on whose right side it is.
///
/// # Errors
/// `NoMemory` where there is no memory for the walk or for the nodes.
pub fn shorten(alloc: Global, m: &Model, t: &Tree) -> Result<SymTree, NoMemory>
    requires model { IsModel m.now }
    requires domains { All IsDomain m.now.domains }
    requires whole { IsTreeOf (length m.now.ext.blocks) (root_of m.now) t.now.nodes.items }
    requires plain { All IsPlain t.now.nodes.items }
    requires strict { All HasSides (visits_of (length m.now.ext.blocks) (root_of m.now) t.now.nodes.items) }
    requires closed { All (λ n. n ≢ Open) t.now.nodes.items }
    ensures cuts { IfOk result (λ u. IsShortOf t.now.nodes.items u.nodes.items) }
    ensures whole { IfOk result (λ u. IsWholeBy sym_branch_at u.nodes.items ([] ∷ [])) }
    ensures kept { IfOk result (λ u. All (λ r. IsKept t.now.nodes.items r.node r.path) (sym_routes u.nodes.items)) }
    ensures strict { IfOk result (λ u. All (λ r. SplitsAt (root_of m.now) r.node r.path) (sym_routes u.nodes.items)) }
    ensures mirrors { IfOk result (λ u. All (λ r. MirrorsAt m.now r.node r.path) (sym_routes u.nodes.items)) }
    ensures no_more { IfOk result (λ u. All (λ r. IsNoMore m.now r.node r.path) (sym_routes u.nodes.items)) }
    ensures fits { IfOk result (λ u. All SymFits u.nodes.items) }
{
    let registers = registers_of(alloc, m)?;
    let nodes = t.nodes.as_slice();
    let mut work = first_work(alloc, m, nodes)?;
    while work.more {
        match mirror_at(m, &registers, &work.stand) {
            Some(mirror) => put(m, nodes, &mut work, mirror)?,
            None => keep(m, nodes, &mut work)?,
        }
    }
    Ok(SymTree { nodes: work.nodes })
}
