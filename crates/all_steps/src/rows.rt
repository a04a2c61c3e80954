//! Rows and their answers.

ghost use Rattle.std.specs.Prelude.{◌≡◌, ◌∷◌, [], IfOk};
ghost use Rattle.un_ir.specs.Extended.{IsExtended};
ghost use Rattle.un_isa.specs.Fit.{IsFit};
ghost use Rattle.un_isa.specs.Versions.{IsVersion};
ghost use Rattle.un_model.specs.Options.{AreOptions};
ghost use Rattle.un_model.specs.Variables.{IsModel};
ghost use Rattle.un_tree.specs.declared.node.Node.TheVariants.{Closed};

use std::alloc::{AllocError, Global};
use un_base::decimal::read_decimal;
use un_base::ids::VarId;
use un_base::memory_error::NoMemory;
use un_domains::store::Store;
use un_ir::text::{put_number, put_text};
use un_isa::reg::SLOTS;
use un_isa::table::table_of;
use un_judge::judge::judge;
use un_judge::verdict::StepVerdict;
use un_logs::log::log_tree;
use un_model::model::{ASSIGNABLE, Model, Options};
use un_problem::problem::model;
use un_reader::read::read_function;
use un_root::store::first_box;
use un_steps::allowed::is_allowed;
use un_steps::step::{ALL_RULES, PLAIN_RULES, Rule, Step};
use un_tree::node::{Node, Tree};

/// What stands before and behind the first byte of this kind.
fn cut(text: &[u8], byte: u8) -> (&[u8], &[u8]) {
    let at = text.iter().position(|b| *b == byte).unwrap_or(text.len());
    (
        &text[..at.min(text.len())],
        &text[at.saturating_add(1).min(text.len())..],
    )
}

/// The word at place `k` of a line.
fn word_at(line: &[u8], k: usize) -> &[u8] {
    line.split(|b| *b == b' ').nth(k).unwrap_or(&[])
}

/// The number at place `k` among the words of a line, and for another word one that no row has.
fn number_at(line: &[u8], k: usize) -> u32 {
    match read_decimal(word_at(line, k)) {
        Some(n) => if n <= 4294967295 { n as u32 } else { 100_000 },
        None => 100_000,
    }
}

/// Options with so many general registers and slots; all registers where there are none of so many.
fn options_by(regs: u32, slots: u32) -> Options
    ensures { AreOptions result }
{
    let regs = if regs >= 1 && regs <= ASSIGNABLE {
        Some(regs)
    } else {
        None
    };
    Options {
        regs,
        slots: slots.min(SLOTS),
    }
}

/// A report's version of two.
fn version_of(line: &[u8]) -> u8
    ensures { IsVersion result }
{
    if number_at(line, 3) == 1 { 1 } else { 3 }
}

/// The model of the function that a text is, for the options and the version of a line.
fn model_of(alloc: Global, function: &[u8], line: &[u8]) -> Result<Model, NoMemory>
    ensures model { IfOk result IsModel }
    ensures extended { IfOk result (λ m. IsExtended m.ext) }
    ensures fit { IfOk result (λ m. IsFit m.ext.table) }
    ensures options { IfOk result (λ m. AreOptions m.options) }
{
    let Ok(f) = read_function(alloc, function) else {
        return Err(NoMemory);
    };
    let options = options_by(number_at(line, 1), number_at(line, 2));
    model(alloc, &f, &table_of(version_of(line)), &options)
}

/// The rule with this number.
fn rule_of(number: u32) -> Rule {
    match number {
        1 => Rule::TooSoon,
        2 => Rule::Idle,
        3 => Rule::OutsideBlock,
        4 => Rule::FromIdle,
        5 => Rule::TooLateFor,
        6 => Rule::OutsideSpace,
        7 => Rule::NoSpace,
        8 => Rule::Alike,
        9 => Rule::NotHome,
        10 => Rule::NotCongruent,
        11 => Rule::TooDear,
        12 => Rule::NoFrame,
        _ => Rule::TooFull,
    }
}

/// Keeps the values of a box's lines.
fn narrow(cuts: &mut Store, lines: &[u8]) {
    for line in lines.split(|b| *b == b'\n') {
        let v = number_at(line, 0);
        if v < cuts.len() {
            let _ = cuts.keep_le(VarId(v), number_at(line, 2));
            let lo = number_at(line, 1);
            if lo > 0 {
                let _ = cuts.keep_gt(VarId(v), lo - 1);
            }
        }
    }
}

/// Appends whether a step is allowed.
fn put_step(
    out: &mut Vec<u8>,
    m: &Model,
    limit: Option<u64>,
    cuts: &Store,
    line: &[u8],
) -> Result<(), NoMemory> {
    let step = Step {
        rule: rule_of(number_at(line, 0)),
        place: number_at(line, 1),
        var: VarId(number_at(line, 2)),
        first: number_at(line, 3),
        last: number_at(line, 4),
    };
    let yes = is_allowed(m, limit, cuts, &step);
    put_text(out, line)?;
    put_text(
        out,
        if yes {
            b" yes\n".as_slice()
        } else {
            b" no\n".as_slice()
        },
    )
}

/// Appends whether each step is allowed on a box.
fn put_steps(
    alloc: Global,
    out: &mut Vec<u8>,
    m: &Model,
    limit: Option<u64>,
    lines: &[u8],
    steps: &[u8],
) -> Result<(), NoMemory>
    requires model { IsModel m.now }
    requires extended { IsExtended m.now.ext }
    requires fit { IsFit m.now.ext.table }
    requires options { AreOptions m.now.options }
{
    let mut cuts = first_box(alloc, m)?;
    narrow(&mut cuts, lines);
    for line in steps.split(|b| *b == b'\n') {
        if !line.is_empty() {
            put_step(out, m, limit, &cuts, line)?;
        }
    }
    Ok(())
}

/// A list of one node.
fn one_node(alloc: Global, node: Node) -> Result<Vec<Node>, AllocError>
    ensures { IfOk result (λ nodes. nodes.items ≡ node ∷ []) }
{
    let mut nodes = Vec::new(alloc);
    nodes.push(node)?;
    Ok(nodes)
}

/// The tree of one closed leaf.
fn closed_tree(alloc: Global) -> Result<Tree, NoMemory>
    ensures { IfOk result (λ t. t.nodes.items ≡ Closed ∷ []) }
{
    let nodes = one_node(alloc, Node::Closed)?;
    Ok(Tree { nodes })
}

/// How many rules a row's log is judged and made by.
fn rules_of(head: &[u8]) -> u32 {
    if head.starts_with(b"c") {
        ALL_RULES
    } else {
        PLAIN_RULES
    }
}

/// Appends a verdict.
fn put_verdict(out: &mut Vec<u8>, verdict: StepVerdict) -> Result<(), NoMemory> {
    match verdict {
        StepVerdict::Yes => put_text(out, b"Yes\n"),
        StepVerdict::Short => put_text(out, b"Short\n"),
        StepVerdict::BadStep(line) => {
            put_text(out, b"BadStep ")?;
            put_number(out, u64::from(line))?;
            put_text(out, b"\n")
        }
    }
}

/// Appends what a log comes to on the tree of one closed leaf.
fn put_judged(
    alloc: Global,
    out: &mut Vec<u8>,
    m: &Model,
    limit: Option<u64>,
    rules: u32,
    log: &[u8],
) -> Result<(), NoMemory>
    requires model { IsModel m.now }
    requires extended { IsExtended m.now.ext }
    requires fit { IsFit m.now.ext.table }
    requires options { AreOptions m.now.options }
{
    let t = closed_tree(alloc)?;
    let verdict = judge(alloc, m, limit, rules, &t, log)?;
    put_verdict(out, verdict)
}

/// Appends what the log that is made of the tree of one closed leaf comes to, or that there is none.
fn put_logged(
    alloc: Global,
    out: &mut Vec<u8>,
    m: &Model,
    limit: Option<u64>,
    rules: u32,
) -> Result<(), NoMemory>
    requires model { IsModel m.now }
    requires extended { IsExtended m.now.ext }
    requires fit { IsFit m.now.ext.table }
    requires options { AreOptions m.now.options }
{
    let t = closed_tree(alloc)?;
    match log_tree(alloc, m, limit, rules, &t)? {
        Err(_) => put_text(out, b"no log\n"),
        Ok(log) => {
            put_text(out, b"log ")?;
            put_judged(alloc, out, m, limit, rules, log.as_slice())
        }
    }
}

/// Appends the answers of a row.
fn put_row(alloc: Global, out: &mut Vec<u8>, function: &[u8], row: &[u8]) -> Result<(), NoMemory> {
    let (tried, asked) = cut(row, b'?');
    let (head, lines) = cut(tried, b'\n');
    let m = model_of(alloc, function, head)?;
    let limit = read_decimal(word_at(head, 4));
    if head.starts_with(b"b") {
        put_steps(alloc, out, &m, limit, lines, asked)
    } else {
        let rules = rules_of(head);
        put_judged(alloc, out, &m, limit, rules, asked)?;
        put_logged(alloc, out, &m, limit, rules)
    }
}

/// Appends the answers of all rows.
pub(crate) fn put_rows(alloc: Global, out: &mut Vec<u8>, text: &[u8]) -> Result<(), NoMemory> {
    let mut function: &[u8] = &[];
    for row in text.split(|b| *b == b'|') {
        let (own, rest) = cut(row, b'^');
        if own != b"&".as_slice() {
            function = own;
        }
        put_row(alloc, out, function, rest)?;
    }
    Ok(())
}
