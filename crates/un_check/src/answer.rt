//! Whether the name, the numbers, the cost and the listing of a report are right.

ghost use Rattle.std.specs.Prelude.{◌≡◌, ◌↔◌, ℕ, List, [], ◌∷◌, IfOk, IsTrue, MatchOption, MatchResult, map};
ghost use Rattle.un_emit.specs.Emitted.{IsEmitted};
ghost use Rattle.un_model.specs.Solutions.{IsSolution};
ghost use Rattle.un_model.specs.Variables.{IsModel};
ghost use Rattle.un_problem.specs.Problems.{IsProblemOf};
ghost use Rattle.un_tree.specs.declared.node.Node.{Node};
ghost use Rattle.un_check.specs.Causes.{IsFirstBroken, IsRightCode, IsCodeCause, IsRightAnswer, IsAnswerCause, IsRightHead, IsCause};

use std::alloc::Global;
use un_base::memory_error::NoMemory;
use un_emit::emit::emit;
use un_ir::function::Function;
use un_model::cost::cost as solution_cost;
use un_model::model::{Model, Solution};
use un_model::verdict::Broken;
use un_outside::status::NoCause;
use un_packet::code::Code;
use un_packet::exact::same_code;
use un_report::report::Answered;
use un_violations::violations::violations;

/// The number of the first rule of a list.
fn first_of(broken: &Vec<Broken>) -> Option<u8>
    ensures { MatchOption result (broken.now.items ≡ []) (λ k. (others : List ℕ) × (map (λ b. b.clause) broken.now.items ≡ k ∷ others)) }
{
    match broken.as_slice() {
        [] => None,
        [first, ..] => Some(first.clause),
    }
}

/// The number of the first rule of solutions that values break.
fn first_broken(alloc: Global, m: &Model, s: &Solution) -> Result<Option<u8>, NoMemory>
    requires model { IsModel m.now }
    ensures { IfOk result (λ first. MatchOption first (IsSolution m.now s.now) (IsFirstBroken m.now s.now)) }
{
    let broken = violations(alloc, m, s)?;
    Ok(first_of(&broken))
}

/// Whether code is that of a solution.
fn is_emitted(
    alloc: Global,
    f: &Function,
    m: &Model,
    s: &Solution,
    code: &Code,
) -> Result<bool, NoMemory>
    requires problem { IsProblemOf f.now m.now }
    requires solution { IsSolution m.now s.now }
    ensures { IfOk result (λ same. IsTrue same ↔ IsEmitted m.now s.now.values code.now) }
{
    let emitted = emit(alloc, f, &m.ext, m, s)?;
    Ok(same_code(&emitted, code))
}

/// Whether a cost is that of a solution, and code its code.
fn judge_code(
    alloc: Global,
    f: &Function,
    m: &Model,
    cost: u64,
    code: &Code,
    s: &Solution,
) -> Result<Result<(), NoCause>, NoMemory>
    requires problem { IsProblemOf f.now m.now }
    requires solution { IsSolution m.now s.now }
    ensures { IfOk result (λ told. MatchResult told (λ _. IsRightCode m.now cost code.now s.now) (IsCodeCause m.now cost code.now s.now)) }
{
    if cost != solution_cost(m, s) {
        return Ok(Err(NoCause::Cost));
    }
    if !is_emitted(alloc, f, m, s, code)? {
        return Ok(Err(NoCause::Listing));
    }
    Ok(Ok(()))
}

/// Whether numbers are a solution, with this cost and this code.
fn judge_numbers(
    alloc: Global,
    f: &Function,
    m: &Model,
    cost: u64,
    code: &Code,
    s: &Solution,
) -> Result<Result<(), NoCause>, NoMemory>
    requires problem { IsProblemOf f.now m.now }
    ensures { IfOk result (λ told. MatchResult told (λ _. IsRightCode m.now cost code.now s.now) (IsCodeCause m.now cost code.now s.now)) }
{
    if let Some(clause) = first_broken(alloc, m, s)? {
        return Ok(Err(NoCause::Solution(clause)));
    }
    judge_code(alloc, f, m, cost, code, s)
}

/// Whether the numbers, the cost and the listing of an answer are right.
fn judge_answer(
    alloc: Global,
    f: &Function,
    m: &Model,
    answer: &Answered,
) -> Result<Result<(), NoCause>, NoMemory>
    requires problem { IsProblemOf f.now m.now }
    ensures { IfOk result (λ told. MatchResult told (λ _. IsRightAnswer m.now answer.now) (IsAnswerCause m.now answer.now)) }
{
    match answer {
        Answered::Code {
            cost,
            code,
            solution,
            ..
        } => judge_numbers(alloc, f, m, *cost, code, solution),
        Answered::Infeasible => Ok(Ok(())),
        Answered::Spent => Ok(Ok(())),
    }
}

/// Whether the name, the numbers, the cost and the listing of a report are right.
pub(crate) fn judge_head(
    alloc: Global,
    f: &Function,
    m: &Model,
    name: &[u8],
    answer: &Answered,
) -> Result<Result<(), NoCause>, NoMemory>
    requires problem { IsProblemOf f.now m.now }
    ensures { (nodes : ℕ) (tree : List Node) → IfOk result (λ told. MatchResult told
        (λ _. IsRightHead f.now.name m.now (record { name = name.now; nodes = nodes; answer = answer.now; tree = tree }))
        (IsCause f.now.name m.now (record { name = name.now; nodes = nodes; answer = answer.now; tree = tree }))) }
{
    if name != f.name.as_bytes() {
        return Ok(Err(NoCause::Name));
    }
    judge_answer(alloc, f, m, answer)
}
