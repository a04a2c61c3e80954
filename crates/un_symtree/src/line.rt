//! The line of a node of a tree with mirrors, read.

ghost use Rattle.std.specs.Prelude.{◌≡◌, ◌≢◌, ℕ, ◌<◌, ◌^◌, ◌∷◌, ◌++◌, IfSome, IfNone, codes, decimal};
ghost use Rattle.un_symtree.specs.declared.node.SymNode.{SymNode};
ghost use Rattle.un_symtree.specs.SymTexts.{SymFits, sym_line};

use crate::node::SymNode;
use un_base::decimal::number_of;
use un_base::ids::VarId;
use un_base::lines::cut;
use un_isa::reg::Reg;

/// The two numbers of 32 bits whose texts these are, with a space between.
fn pair_of(text: &[u8]) -> Option<(u32, u32)>
    ensures some { IfSome result (λ p. text.now ≡ decimal p.0 ++ 32 ∷ decimal p.1) }
    ensures none { IfNone result ((m n : ℕ) → m < 2 ^ 32 → n < 2 ^ 32 → text.now ≢ decimal m ++ 32 ∷ decimal n) }
{
    let (first, rest) = cut(text, b' ')?;
    let first = number_of(first)?;
    let second = number_of(rest)?;
    Some((first, second))
}

/// The Branch with these numbers.
fn branch_of(numbers: &[u8]) -> Option<SymNode>
    ensures some { IfSome result (λ n. sym_line n ≡ codes "B " ++ numbers.now) }
    ensures none { IfNone result ((m n : ℕ) → m < 2 ^ 32 → n < 2 ^ 32 → numbers.now ≢ decimal m ++ 32 ∷ decimal n) }
{
    let (var, val) = pair_of(numbers)?;
    Some(SymNode::Branch {
        var: VarId(var),
        val,
    })
}

/// The Mirror with these numbers.
fn mirror_of(numbers: &[u8]) -> Option<SymNode>
    ensures some { IfSome result (λ n. sym_line n ≡ codes "M " ++ numbers.now) }
    ensures none { IfNone result ((a b d : ℕ) → a < 2 ^ 32 → b < 2 ^ 32 → d < 2 ^ 32
        → numbers.now ≢ decimal a ++ 32 ∷ (decimal b ++ 32 ∷ decimal d)) }
{
    let (first, rest) = cut(numbers, b' ')?;
    let a = number_of(first)?;
    let (b, depth) = pair_of(rest)?;
    Some(SymNode::Mirror {
        a: Reg(a),
        b: Reg(b),
        depth,
    })
}

/// The node whose line this is.
pub(crate) fn sym_node_of(line: &[u8]) -> Option<SymNode>
    ensures some { IfSome result (λ n. line.now ≡ sym_line n) }
    ensures none { IfNone result ((n : SymNode) → SymFits n → line.now ≢ sym_line n) }
{
    if line == b"C".as_slice() {
        return Some(SymNode::Closed);
    }
    let (word, numbers) = cut(line, b' ')?;
    if word == b"B".as_slice() {
        return branch_of(numbers);
    }
    if word == b"M".as_slice() {
        return mirror_of(numbers);
    }
    None
}
