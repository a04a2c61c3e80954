//! The parts of the function that lines without a fault are.

ghost use Rattle.std.specs.Prelude.{◌≡◌, ◌+◌, ◌<◌, ◌^◌, ◌≤◌, IfOk, length, map, Some};
ghost use Rattle.std.specs.Option.{option_map};
ghost use Rattle.std.specs.List.{position_or_len};
ghost use Rattle.std.specs.Str.{bytes_eq};
ghost use Rattle.un_faults.specs.Before.{same_name, names_of, labels_of, name_of};
ghost use Rattle.un_faults.specs.Groups.{ops_of, term_of};
ghost use Rattle.un_reader.specs.Functions.{name_id, block_id, op_of, term_by, blocks_of, params_of, ArePartsOf};

use crate::draft::Draft;
use std::alloc::Global;
use un_base::ids::{BlockId, NameId};
use un_base::memory_error::NoMemory;
use un_base::name::Name;
use un_faults::literal::literal_value;
use un_faults::names::Names;
use un_faults::text_fault::find_term;
use un_ir::function::{Block, Kind, SrcOp, Term};
use un_lists::few::Few;
use un_lists::items::Items;
use un_words::forms::is_text;
use un_words::line::{Line, OpLine, TermLine};

/// The number of a name.
fn name_id(names: &Names, name: &(Name, Kind)) -> NameId
    requires { length names.now < 2 ^ 32 }
    ensures { result ≡ name_id names.now name.now }
{
    NameId(names.place(name) as u32)
}

/// The place of a label, or the count where it has none.
fn label_place(labels: &[Name], label: &Name) -> usize
    ensures place { result ≡ position_or_len (bytes_eq label.now) labels.now }
    ensures bound { result ≤ length labels.now }
{
    for (i, l) in labels.iter().enumerate() {
        if is_text(label.as_bytes(), l.as_bytes()) {
            return i;
        }
    }
    labels.len()
}

/// The number of a block.
fn block_id(labels: &[Name], label: &Name) -> BlockId
    requires { length labels.now < 2 ^ 32 }
    ensures { result ≡ block_id labels.now label.now }
{
    BlockId(label_place(labels, label) as u32)
}

/// The numbers of names.
fn operand_ids(alloc: Global, names: &Names, list: &[(Name, Kind)]) -> Result<Few<NameId>, NoMemory>
    requires { length names.now < 2 ^ 32 }
    ensures { IfOk result (λ ids. ids ≡ map (name_id names.now) list.now) }
{
    let mut ids = Few::new(alloc);
    for name in list {
        ids.push(name_id(names, name))?;
    }
    Ok(ids)
}

/// The numbers of parameters.
fn param_ids(alloc: Global, names: &Names, list: &[(Name, Kind)]) -> Result<Items<NameId>, NoMemory>
    requires { length names.now < 2 ^ 32 }
    ensures { IfOk result (λ ids. ids ≡ map (name_id names.now) list.now) }
{
    let mut ids = Items::new(alloc);
    for name in list {
        ids.push(name_id(names, name))?;
    }
    Ok(ids)
}

/// The number of a name, where there is one.
fn optional_id(names: &Names, name: &Option<(Name, Kind)>) -> Option<NameId>
    requires { length names.now < 2 ^ 32 }
    ensures { result ≡ option_map (name_id names.now) name.now }
{
    match name {
        Some(name) => Some(name_id(names, name)),
        None => None,
    }
}

/// The operation on a line.
fn source_op(alloc: Global, names: &Names, o: &OpLine) -> Result<SrcOp, NoMemory>
    requires { length names.now < 2 ^ 32 }
    ensures { IfOk result (λ op. op ≡ op_of names.now o.now) }
{
    let srcs = operand_ids(alloc, names, o.srcs.as_slice())?;
    Ok(SrcOp {
        op: o.op,
        dst: optional_id(names, &o.dst),
        srcs,
        imm: literal_value(o.imm),
        callee: o.callee,
    })
}

/// The operations of a block, by the lines behind its block line.
fn source_ops(alloc: Global, names: &Names, lines: &[Line]) -> Result<Items<SrcOp>, NoMemory>
    requires { length names.now < 2 ^ 32 }
    ensures { IfOk result (λ ops. ops ≡ map (op_of names.now) (ops_of lines.now)) }
{
    let mut ops = Items::new(alloc);
    for line in lines {
        match line {
            Line::Operation(o) => ops.push(source_op(alloc, names, o)?)?,
            Line::Block { .. } => return Ok(ops),
            Line::Terminator(_) => return Ok(ops),
            _ => {}
        }
    }
    Ok(ops)
}

/// The terminator that a block's line is.
fn source_term(names: &Names, labels: &[Name], term: &Option<TermLine>) -> Term
    requires names { length names.now < 2 ^ 32 }
    requires labels { length labels.now < 2 ^ 32 }
    ensures { result ≡ term_by names.now labels.now term.now }
{
    match term {
        None => Term::Fall,
        Some(TermLine::Jump(to)) => Term::Jump(block_id(labels, to)),
        Some(TermLine::Branch { pred, sense, to }) => Term::Branch {
            pred: name_id(names, pred),
            sense: *sense,
            to: block_id(labels, to),
        },
        Some(TermLine::Ret(value)) => Term::Ret(optional_id(names, value)),
    }
}

/// The block with this label and frequency, by the lines behind its block line.
fn source_block(
    alloc: Global,
    names: &Names,
    labels: &[Name],
    label: Name,
    freq: u32,
    lines: &[Line],
) -> Result<Block, NoMemory>
    requires names { length names.now < 2 ^ 32 }
    requires labels { length labels.now < 2 ^ 32 }
    ensures { IfOk result (λ block. block ≡ record {
      label = label;
      freq = freq;
      ops = map (op_of names.now) (ops_of lines.now);
      term =
          term_by names.now labels.now (term_of lines.now);
    }) }
{
    let ops = source_ops(alloc, names, lines)?;
    let term = source_term(names, labels, &find_term(lines));
    Ok(Block {
        label,
        freq,
        ops,
        term,
    })
}

/// The blocks of the lines.
fn source_blocks(
    alloc: Global,
    names: &Names,
    labels: &[Name],
    lines: &[Line],
) -> Result<Items<Block>, NoMemory>
    requires names { length names.now < 2 ^ 32 }
    requires labels { length labels.now < 2 ^ 32 }
    ensures { IfOk result (λ blocks. blocks ≡ blocks_of names.now labels.now lines.now) }
{
    let mut blocks = Items::new(alloc);
    for (i, line) in lines.iter().enumerate() {
        if let Line::Block { label, freq } = line {
            blocks.push(source_block(alloc, names, labels, *label, freq.size, &lines[i + 1..])?)?;
        }
    }
    Ok(blocks)
}

/// The parameters on the `func` line.
fn find_params(alloc: Global, names: &Names, lines: &[Line]) -> Result<Items<NameId>, NoMemory>
    requires { length names.now < 2 ^ 32 }
    ensures { IfOk result (λ ids. ids ≡ map (name_id names.now) (params_of lines.now)) }
{
    for line in lines {
        if let Line::Func { params, .. } = line {
            return param_ids(alloc, names, params.as_slice());
        }
    }
    Ok(Items::new(alloc))
}

/// The parts that lines without a fault give, by the name of the function, their names and labels.
pub fn source_parts(
    alloc: Global,
    name: Name,
    names: &Names,
    labels: &[Name],
    lines: &[Line],
) -> Result<Draft, NoMemory>
    requires name { name_of lines.now ≡ Some name }
    requires names { names.now ≡ names_of lines.now }
    requires labels { labels.now ≡ labels_of lines.now }
    requires few_names { length names.now < 2 ^ 32 }
    requires few_labels { length labels.now < 2 ^ 32 }
    ensures { IfOk result (λ d. ArePartsOf lines.now d.name d.params d.names d.blocks) }
{
    let params = find_params(alloc, names, lines)?;
    let blocks = source_blocks(alloc, names, labels, lines)?;
    let names = names.to_items(alloc)?;
    Ok(Draft {
        name,
        params,
        names,
        blocks,
    })
}
