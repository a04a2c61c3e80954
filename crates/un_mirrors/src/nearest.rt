//! The nearest branch on whose right side a path is.

ghost use Rattle.std.specs.Prelude.{◌≡◌, IfSome, IfNone, All};
ghost use Rattle.un_domains.specs.declared.side.Side.TheVariants.{AtMost};
ghost use Rattle.un_tree.specs.declared.node.Decision.{Decision};
ghost use Rattle.un_mirrors.specs.Shortened.{IsNearestRight};

use un_domains::side::Side;
use un_tree::node::Decision;

/// How many decisions a path has above its last one for a right side.
pub(crate) fn nearest_right(path: &[Decision]) -> Option<usize>
    ensures some { IfSome result (IsNearestRight path.now) }
    ensures none { IfNone result (All (λ (d : Decision). d.side ≡ AtMost) path.now) }
{
    let mut k = path.len();
    while k > 0 {
        k -= 1;
        if let Side::Above = path[k].side {
            return Some(k);
        }
    }
    None
}
