//! Refutations, and trees that were cut off, as text. Each function that appends has `NoMemory` where it finds no room.

ghost use Rattle.std.specs.Prelude.{◌≡◌, ◌++◌, OnOk, IfOk, codes};
ghost use Rattle.un_report.specs.Reports.{regs_text};
ghost use Rattle.un_report_reader.specs.Lines.{number_text, function_text};
ghost use Rattle.un_refutation.specs.Refutations.{options_text, refutation_text, cut_text};

use std::alloc::Global;
use un_base::memory_error::NoMemory;
use un_base::name::Name;
use un_ir::text::{put_number, put_text};
use un_model::model::Options;
use un_symtree::node::SymTree;
use un_symtree::print::put_sym_tree;
use un_tree::node::Tree;
use un_tree::print::put_tree;

/// Appends a line of a word and a number.
fn put_number_line(out: &mut Vec<u8>, word: &[u8], n: u64) -> Result<(), NoMemory>
    ensures { OnOk result (out.new.items ≡ out.old.items ++ number_text word.now n) }
{
    put_text(out, word)?;
    put_number(out, n)?;
    put_text(out, b"\n")
}

/// Appends the line of a function's name.
fn put_function(out: &mut Vec<u8>, name: Name) -> Result<(), NoMemory>
    ensures { OnOk result (out.new.items ≡ out.old.items ++ function_text name) }
{
    put_text(out, b"function ")?;
    put_text(out, name.as_bytes())?;
    put_text(out, b"\n")
}

/// Appends how many registers there are.
fn put_regs(out: &mut Vec<u8>, regs: Option<u32>) -> Result<(), NoMemory>
    ensures { OnOk result (out.new.items ≡ out.old.items ++ regs_text regs) }
{
    match regs {
        None => put_text(out, b"all"),
        Some(n) => put_number(out, u64::from(n)),
    }
}

/// Appends the line of the options.
fn put_options(out: &mut Vec<u8>, options: Options) -> Result<(), NoMemory>
    ensures { OnOk result (out.new.items ≡ out.old.items ++ options_text options) }
{
    put_text(out, b"model regs ")?;
    put_regs(out, options.regs)?;
    put_number_line(out, b" slots ", u64::from(options.slots))
}

/// Appends the lines before the tree, the first of which is that of the limit.
fn put_head(
    out: &mut Vec<u8>,
    word: &[u8],
    limit: u64,
    name: Name,
    options: Options,
) -> Result<(), NoMemory>
    ensures { OnOk result (out.new.items ≡ out.old.items
        ++ (number_text word.now limit ++ (function_text name ++ options_text options))) }
{
    put_number_line(out, word, limit)?;
    put_function(out, name)?;
    put_options(out, options)
}

/// The text of a refutation: its limit, the function's name, its options, and the lines of its tree with their number before and `end`
/// behind them.
///
/// # Errors
/// `NoMemory` where there is no memory for the text.
pub fn print_refutation(
    alloc: Global,
    limit: u64,
    name: Name,
    options: Options,
    t: &SymTree,
) -> Result<Vec<u8>, NoMemory>
    ensures { IfOk result (λ text. text.items ≡ refutation_text limit name options t.now.nodes.items) }
{
    let mut out = Vec::new(alloc);
    put_head(&mut out, b"refuted ", limit, name, options)?;
    put_number_line(&mut out, b"nodes ", t.nodes.len() as u64)?;
    put_sym_tree(alloc, &mut out, t)?;
    put_text(&mut out, b"end\n")?;
    Ok(out)
}

/// The text of a search for a refutation that was cut off: the same lines with another first word, and those of its tree.
///
/// # Errors
/// `NoMemory` where there is no memory for the text.
pub fn print_cut(
    alloc: Global,
    limit: u64,
    name: Name,
    options: Options,
    t: &Tree,
) -> Result<Vec<u8>, NoMemory>
    ensures { IfOk result (λ text. text.items ≡ cut_text limit name options t.now.nodes.items) }
{
    let mut out = Vec::new(alloc);
    put_head(&mut out, b"cut ", limit, name, options)?;
    put_number_line(&mut out, b"nodes ", t.nodes.len() as u64)?;
    put_tree(alloc, &mut out, t)?;
    put_text(&mut out, b"end\n")?;
    Ok(out)
}
