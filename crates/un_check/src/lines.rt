//! Lines that are nodes.

ghost use Rattle.std.specs.Prelude.{◌≢◌, List, All, IfSome, IfNone};
ghost use Rattle.un_tree.specs.Texts.{Fits, tree_text};
ghost use Rattle.un_tree.specs.declared.node.Node.{Node};
ghost use Rattle.un_check.specs.Causes.{AreLines};

use un_tree::read::{Step, first_node};

/// How many lines a text has, where each is a node.
pub fn count_lines(text: &[u8]) -> Option<usize>
    ensures some { IfSome result (λ count. AreLines count text.now) }
    ensures none { IfNone result ((nodes : List Node) → All Fits nodes → text.now ≢ tree_text nodes) }
{
    let mut count = 0;
    let mut left = text;
    loop {
        match first_node(left) {
            Step::End => return Some(count),
            Step::Bad => return None,
            Step::Node { rest, .. } => {
                count += 1;
                left = rest;
            }
        }
    }
}
