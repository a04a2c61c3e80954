//! Refutations from their texts.

ghost use Rattle.std.specs.Prelude.{◌≡◌, IfOk, IfErr};
ghost use Rattle.un_report_reader.specs.Lines.{IsName};
ghost use Rattle.un_refutation.specs.declared.refutation.Refutation.{Refutation};
ghost use Rattle.un_refutation.specs.Refutations.{text_of};
ghost use Rattle.un_refutation.specs.Readings.{IsRefutation, IsRefutationRead, IsErrorOf, IsRefutationBack};

use crate::options::read_options;
use crate::refutation::Refutation;
use crate::tree::read_nodes;
use std::alloc::Global;
use un_base::name::Name;
use un_commands::command::MOST_NODES;
use un_report_reader::error::ReportError;
use un_report_reader::head::{name_line, number_line};
use un_report_reader::place::Place;
use un_report_reader::tree::end;
use un_symtree::node::SymTree;

/// The name with these bytes, which are one.
fn name_from(bytes: &[u8]) -> Name
    requires { IsName bytes.now }
    ensures { result ≡ bytes.now }
{
    match Name::from_bytes(bytes) {
        Some(name) => name,
        None => unreachable!(),
    }
}

/// The refutation whose text this is.
fn refutation(alloc: Global, text: &[u8]) -> Result<Refutation, ReportError>
    ensures ok { IfOk result (IsRefutationRead text.now) }
    ensures bad { IfErr result (IsErrorOf text.now) }
{
    let at = Place {
        rest: text,
        lines: 0,
    };
    let (limit, at) = number_line(at, b"refuted ", 0, u64::MAX)?;
    let (name, at) = name_line(at)?;
    let (options, at) = read_options(at)?;
    let (count, at) = number_line(at, b"nodes ", 1, MOST_NODES as u64)?;
    let (nodes, at) = read_nodes(alloc, at, count as u32)?;
    end(at)?;
    Ok(Refutation {
        limit,
        name: name_from(name),
        options,
        tree: SymTree { nodes },
    })
}

/// The refutation whose text this is.
///
/// # Errors
/// `BadReport` with the first line outside the grammar, from 1, the one behind the last where lines are missing; `NoMemory` where there is
/// no memory for the refutation.
pub fn read_refutation(alloc: Global, text: &[u8]) -> Result<Refutation, ReportError>
    ensures ok { IfOk result (IsRefutationRead text.now) }
    ensures bad { IfErr result (IsErrorOf text.now) }
    ensures whole { (r : Refutation) → IsRefutation r → text.now ≡ text_of r → IsRefutationBack r result }
{
    refutation(alloc, text)
}
