//! What stands behind a function for its rounds: a limit on the cost, or none, and decisions on variables.

ghost use Rattle.std.specs.Prelude.{◌≡◌, All, IfOk, IfSome, OnOk};
ghost use Rattle.inspect.specs.Nodes.{IsOn};

use std::alloc::Global;
use un_base::decimal::read_decimal;
use un_base::ids::VarId;
use un_base::lines::lines;
use un_domains::side::Side;
use un_outside::status::Status;
use un_shown::input::{small_number, words};

/// A decision on a variable.
#[derive(Clone, Copy)]
pub struct Decision {
    /// The variable that is decided on.
    pub var: VarId,
    /// Whether its values up to `value` are kept, or those above.
    pub side: Side,
    /// The greatest value of the lower side.
    pub value: u32,
}

/// A node of a search.
#[derive(Drop)]
pub struct Node {
    /// What the cost is to be less than; None where the text has no limit.
    pub limit: Option<u64>,
    /// The decisions that lead to it from the first box, in order.
    pub decisions: Vec<Decision>,
}

/// The side that a word names.
fn side_of(word: &[u8]) -> Option<Side> {
    if word == b"<=".as_slice() {
        Some(Side::AtMost)
    } else if word == b">".as_slice() {
        Some(Side::Above)
    } else {
        None
    }
}

/// The decision that three words are, on one of so many variables.
fn decision_of(var: &[u8], side: &[u8], value: &[u8], vars: usize) -> Option<Decision>
    ensures { IfSome result (IsOn vars) }
{
    let var = small_number(var)?;
    let side = side_of(side)?;
    let value = small_number(value)?;
    if var as usize >= vars {
        return None;
    }
    Some(Decision {
        var: VarId(var),
        side,
        value,
    })
}

/// Adds the decision that a line is.
fn add_decision(
    node: &mut Node,
    vars: usize,
    decision: Option<Decision>,
    number: u32,
) -> Result<(), Status>
    requires decision { IfSome decision (IsOn vars) }
    requires known { All (IsOn vars) node.old.decisions.items }
    ensures { OnOk result (All (IsOn vars) node.new.decisions.items) }
{
    let _ = vars;
    match decision {
        Some(decision) => match node.decisions.push(decision) {
            Ok(()) => Ok(()),
            Err(_) => Err(Status::NoMemory),
        },
        None => Err(Status::BadReport { line: number }),
    }
}

/// Sets the limit that a line is. It stands before all decisions, once.
fn set_limit(node: &mut Node, limit: Option<u64>, number: u32) -> Result<(), Status>
    ensures { node.new.decisions.items ≡ node.old.decisions.items }
{
    if limit.is_none() || node.limit.is_some() || !node.decisions.is_empty() {
        return Err(Status::BadReport { line: number });
    }
    node.limit = limit;
    Ok(())
}

/// Adds what a line says.
///
/// # Errors
/// `BadReport` with this line's number where it says nothing that may stand there; `NoMemory`.
fn add_line(node: &mut Node, line: &[u8], vars: usize, number: u32) -> Result<(), Status>
    requires { All (IsOn vars) node.old.decisions.items }
    ensures { OnOk result (All (IsOn vars) node.new.decisions.items) }
{
    let (first, n) = words(line);
    match n {
        0 => Ok(()),
        2 if first[0] == b"limit".as_slice() => set_limit(node, read_decimal(first[1]), number),
        3 => {
            let decision = decision_of(first[0], first[1], first[2], vars);
            add_decision(node, vars, decision, number)
        }
        _ => Err(Status::BadReport { line: number }),
    }
}

/// The node that a text describes, of a model with so many variables.
///
/// # Errors
/// `BadReport` with the first line, from 1, that says nothing that may stand there; `NoMemory`.
pub fn node_of(alloc: Global, text: &[u8], vars: usize) -> Result<Node, Status>
    ensures { IfOk result (λ node. All (IsOn vars) node.decisions.items) }
{
    let mut node = Node {
        limit: None,
        decisions: Vec::new(alloc),
    };
    let mut number: u32 = 0;
    for line in lines(text) {
        number = number.saturating_add(1);
        add_line(&mut node, line, vars, number)?;
    }
    Ok(node)
}
