//! Functions as text.

ghost use Rattle.std.specs.Prelude.{◌≡◌, ◌++◌, [], ◌∷◌, Some, OnOk, IfOk, codes, map, if◌then◌else◌};
ghost use Rattle.std.specs.List.{flat_map};
ghost use Rattle.un_ir.specs.Text.{name_text, spaced, result_text, callee_text, literal_text, with_literal, operand_texts, op_line};
ghost use Rattle.un_ir.specs.Text.{label_of, term_lines, block_line, block_lines, func_line, function_text, ended};

use crate::function::{Block, Function, Kind, SrcOp, Term};
use crate::text::{put_number, put_signed_number, put_text};
use std::alloc::Global;
use un_base::ids::{BlockId, NameId};
use un_base::memory_error::NoMemory;
use un_base::name::Name;
use un_isa::facts::{Range, literal_range, source_name};

/// Appends a name with its sigil, nothing where there is no such name.
///
/// # Errors
/// Where there is no memory for the text.
pub fn put_name(out: &mut Vec<u8>, names: &[(Name, Kind)], name: NameId) -> Result<(), NoMemory>
    ensures { OnOk result (out.new.items ≡ out.old.items ++ name_text names.now name) }
{
    match names.get(name.0 as usize) {
        None => Ok(()),
        Some((name, kind)) => {
            match kind {
                Kind::General => put_text(out, b"%")?,
                Kind::Pred => put_text(out, b"$")?,
            }
            put_text(out, name.as_bytes())
        }
    }
}

/// Appends a comma and a space.
fn put_comma(out: &mut Vec<u8>) -> Result<(), NoMemory>
    ensures { OnOk result (out.new.items ≡ out.old.items ++ codes ", ") }
{
    put_text(out, b", ")
}

/// Appends a space and a name.
fn put_first(out: &mut Vec<u8>, names: &[(Name, Kind)], name: NameId) -> Result<(), NoMemory>
    ensures { OnOk result (out.new.items ≡ out.old.items ++ (codes " " ++ name_text names.now name)) }
{
    put_text(out, b" ")?;
    put_name(out, names, name)
}

/// Appends each name after a comma.
fn put_more_names(
    out: &mut Vec<u8>,
    names: &[(Name, Kind)],
    list: &[NameId],
) -> Result<(), NoMemory>
    ensures { OnOk result (out.new.items ≡ out.old.items
        ++ flat_map (λ x. codes ", " ++ x) (map (name_text names.now) list.now)) }
{
    for name in list {
        put_comma(out)?;
        put_name(out, names, *name)?;
    }
    Ok(())
}

/// Appends a space and names with commas between them, where there are some.
fn put_names(out: &mut Vec<u8>, names: &[(Name, Kind)], list: &[NameId]) -> Result<(), NoMemory>
    ensures { OnOk result
        (out.new.items ≡ out.old.items ++ spaced (map (name_text names.now) list.now)) }
{
    match list {
        [] => Ok(()),
        [first, rest @ ..] => {
            put_first(out, names, *first)?;
            put_more_names(out, names, rest)
        }
    }
}

/// Appends the literal of an operation.
fn put_literal(out: &mut Vec<u8>, o: &SrcOp) -> Result<(), NoMemory>
    ensures { OnOk result (out.new.items ≡ out.old.items ++ literal_text o.now) }
{
    put_text(out, b"#")?;
    put_signed_number(out, o.imm)
}

/// Appends a space and the literal of an operation.
fn put_only_literal(out: &mut Vec<u8>, o: &SrcOp) -> Result<(), NoMemory>
    ensures { OnOk result (out.new.items ≡ out.old.items ++ (codes " " ++ literal_text o.now)) }
{
    put_text(out, b" ")?;
    put_literal(out, o)
}

/// Appends a comma and the literal of an operation.
fn put_next_literal(out: &mut Vec<u8>, o: &SrcOp) -> Result<(), NoMemory>
    ensures { OnOk result (out.new.items ≡ out.old.items ++ (codes ", " ++ literal_text o.now)) }
{
    put_comma(out)?;
    put_literal(out, o)
}

/// Appends a space, and with commas between them names and last the literal of an operation.
fn put_names_and_literal(
    out: &mut Vec<u8>,
    names: &[(Name, Kind)],
    list: &[NameId],
    o: &SrcOp,
) -> Result<(), NoMemory>
    ensures { OnOk result (out.new.items ≡ out.old.items
        ++ spaced (map (name_text names.now) list.now ++ literal_text o.now ∷ [])) }
{
    match list {
        [] => put_only_literal(out, o),
        [first, rest @ ..] => {
            put_first(out, names, *first)?;
            put_more_names(out, names, rest)?;
            put_next_literal(out, o)
        }
    }
}

/// Appends a space, and with commas between them names and behind the first of them, the base, the offset.
fn put_base_and_offset(
    out: &mut Vec<u8>,
    names: &[(Name, Kind)],
    list: &[NameId],
    o: &SrcOp,
) -> Result<(), NoMemory>
    ensures { OnOk result (out.new.items ≡ out.old.items
        ++ spaced (with_literal (Some Range.Offset) (literal_text o.now) (map (name_text names.now) list.now))) }
{
    match list {
        [] => put_only_literal(out, o),
        [base, rest @ ..] => {
            put_first(out, names, *base)?;
            put_next_literal(out, o)?;
            put_more_names(out, names, rest)
        }
    }
}

/// Appends the operands of an operation with its literal, each after a space, and with commas between them.
fn put_operands(out: &mut Vec<u8>, names: &[(Name, Kind)], o: &SrcOp) -> Result<(), NoMemory>
    ensures { OnOk result (out.new.items ≡ out.old.items
        ++ spaced (operand_texts o.now.op o.now (map (name_text names.now) o.now.srcs))) }
{
    let list = o.srcs.as_slice();
    match literal_range(o.op) {
        None => put_names(out, names, list),
        Some(Range::Offset) => put_base_and_offset(out, names, list, o),
        Some(Range::Signed16 | Range::Signed10 | Range::Unsigned5 | Range::FrameOffset) => {
            put_names_and_literal(out, names, list, o)
        }
    }
}

/// Appends the name that an operation assigns and `=`, where there is one.
fn put_result(
    out: &mut Vec<u8>,
    names: &[(Name, Kind)],
    dst: Option<NameId>,
) -> Result<(), NoMemory>
    ensures { OnOk result (out.new.items ≡ out.old.items ++ result_text names.now dst) }
{
    match dst {
        None => Ok(()),
        Some(name) => {
            put_name(out, names, name)?;
            put_text(out, b" = ")
        }
    }
}

/// Appends a space and the function that a Call calls, where there is one.
fn put_callee(out: &mut Vec<u8>, callee: &Option<Name>) -> Result<(), NoMemory>
    ensures { OnOk result (out.new.items ≡ out.old.items ++ callee_text callee.now) }
{
    match callee {
        None => Ok(()),
        Some(name) => {
            put_text(out, b" ")?;
            put_text(out, name.as_bytes())
        }
    }
}

/// Appends the line of an operation.
fn put_op(out: &mut Vec<u8>, names: &[(Name, Kind)], o: &SrcOp) -> Result<(), NoMemory>
    ensures { OnOk result (out.new.items ≡ out.old.items ++ ended (op_line names.now o.now)) }
{
    put_text(out, b"  ")?;
    put_result(out, names, o.dst)?;
    put_text(out, source_name(o.op))?;
    put_callee(out, &o.callee)?;
    put_operands(out, names, o)?;
    put_text(out, b"\n")
}

/// Appends the label of a block, where there is such a block.
fn put_label(out: &mut Vec<u8>, blocks: &[Block], to: BlockId) -> Result<(), NoMemory>
    ensures { OnOk result (out.new.items ≡ out.old.items ++ label_of blocks.now to.0) }
{
    match blocks.get(to.0 as usize) {
        None => Ok(()),
        Some(block) => put_text(out, block.label.as_bytes()),
    }
}

/// Appends `!` where a jump is taken where its predicate is false.
fn put_sense(out: &mut Vec<u8>, sense: bool) -> Result<(), NoMemory>
    ensures { OnOk result (out.new.items ≡ out.old.items ++ (if sense then [] else codes "!")) }
{
    if sense { Ok(()) } else { put_text(out, b"!") }
}

/// Appends the line of a jump.
fn put_jump(out: &mut Vec<u8>, blocks: &[Block], to: BlockId) -> Result<(), NoMemory>
    ensures { OnOk result
        (out.new.items ≡ out.old.items ++ ended (codes "  jump " ++ label_of blocks.now to.0)) }
{
    put_text(out, b"  jump ")?;
    put_label(out, blocks, to)?;
    put_text(out, b"\n")
}

/// Appends the condition of a branch, from the indent on.
fn put_condition(
    out: &mut Vec<u8>,
    names: &[(Name, Kind)],
    pred: NameId,
    sense: bool,
) -> Result<(), NoMemory>
    ensures { OnOk result (out.new.items ≡ out.old.items
        ++ (codes "  if " ++ ((if sense then [] else codes "!") ++ name_text names.now pred))) }
{
    put_text(out, b"  if ")?;
    put_sense(out, sense)?;
    put_name(out, names, pred)
}

/// Appends the target of a branch and the end of its line.
fn put_target(out: &mut Vec<u8>, blocks: &[Block], to: BlockId) -> Result<(), NoMemory>
    ensures { OnOk result
        (out.new.items ≡ out.old.items ++ ended (codes " jump " ++ label_of blocks.now to.0)) }
{
    put_text(out, b" jump ")?;
    put_label(out, blocks, to)?;
    put_text(out, b"\n")
}

/// Appends the line of a return with a value.
fn put_value(out: &mut Vec<u8>, names: &[(Name, Kind)], name: NameId) -> Result<(), NoMemory>
    ensures { OnOk result
        (out.new.items ≡ out.old.items ++ ended (codes "  ret " ++ name_text names.now name)) }
{
    put_text(out, b"  ret ")?;
    put_name(out, names, name)?;
    put_text(out, b"\n")
}

/// Appends the line of a terminator, where it has one.
fn put_term(
    out: &mut Vec<u8>,
    blocks: &[Block],
    names: &[(Name, Kind)],
    term: Term,
) -> Result<(), NoMemory>
    ensures { OnOk result
        (out.new.items ≡ out.old.items ++ flat_map ended (term_lines blocks.now names.now term)) }
{
    match term {
        Term::Fall => Ok(()),
        Term::Jump(to) => put_jump(out, blocks, to),
        Term::Branch { pred, sense, to } => {
            put_condition(out, names, pred, sense)?;
            put_target(out, blocks, to)
        }
        Term::Ret(None) => put_text(out, b"  ret\n"),
        Term::Ret(Some(name)) => put_value(out, names, name),
    }
}

/// Appends the lines of operations.
fn put_ops(out: &mut Vec<u8>, names: &[(Name, Kind)], ops: &[SrcOp]) -> Result<(), NoMemory>
    ensures { OnOk result
        (out.new.items ≡ out.old.items ++ flat_map ended (map (op_line names.now) ops.now)) }
{
    for o in ops {
        put_op(out, names, o)?;
    }
    Ok(())
}

/// Appends the line that begins a block.
fn put_block_line(out: &mut Vec<u8>, block: &Block) -> Result<(), NoMemory>
    ensures { OnOk result (out.new.items ≡ out.old.items ++ ended (block_line block.now)) }
{
    put_text(out, b"block ")?;
    put_text(out, block.label.as_bytes())?;
    put_text(out, b" freq ")?;
    put_number(out, u64::from(block.freq))?;
    put_text(out, b"\n")
}

/// Appends the lines of a block.
fn put_block(
    out: &mut Vec<u8>,
    blocks: &[Block],
    names: &[(Name, Kind)],
    block: &Block,
) -> Result<(), NoMemory>
    ensures { OnOk result (out.new.items ≡ out.old.items
        ++ flat_map ended (block_lines blocks.now names.now block.now)) }
{
    put_block_line(out, block)?;
    put_ops(out, names, block.ops.as_slice())?;
    put_term(out, blocks, names, block.term)
}

/// Appends each parameter after a space.
fn put_params(out: &mut Vec<u8>, names: &[(Name, Kind)], params: &[NameId]) -> Result<(), NoMemory>
    ensures { OnOk result (out.new.items ≡ out.old.items
        ++ flat_map (λ p. codes " " ++ name_text names.now p) params.now) }
{
    for param in params {
        put_first(out, names, *param)?;
    }
    Ok(())
}

/// Appends the line of a function.
fn put_func_line(out: &mut Vec<u8>, f: &Function) -> Result<(), NoMemory>
    ensures { OnOk result (out.new.items ≡ out.old.items ++ ended (func_line f.now)) }
{
    put_text(out, b"func ")?;
    put_text(out, f.name.as_bytes())?;
    put_params(out, f.names.as_slice(), f.params.as_slice())?;
    put_text(out, b"\n")
}

/// Appends the lines of blocks of a function.
fn put_blocks(out: &mut Vec<u8>, blocks: &[Block], names: &[(Name, Kind)]) -> Result<(), NoMemory>
    ensures { OnOk result (out.new.items ≡ out.old.items
        ++ flat_map ended (flat_map (block_lines blocks.now names.now) blocks.now)) }
{
    for block in blocks {
        put_block(out, blocks, names, block)?;
    }
    Ok(())
}

/// The text of a function in its one spelling: single spaces, `, ` between operands, numbers without leading zeros, and
/// two spaces before operations and terminators.
///
/// # Errors
/// `NoMemory` where there is no memory for the text.
pub fn print_function(alloc: Global, f: &Function) -> Result<Vec<u8>, NoMemory>
    ensures { IfOk result (λ text. text.items ≡ function_text f.now) }
{
    let mut out = Vec::new(alloc);
    put_func_line(&mut out, f)?;
    put_blocks(&mut out, f.blocks.as_slice(), f.names.as_slice())?;
    Ok(out)
}
