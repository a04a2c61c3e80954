//! The bound that is printed beside the cost of a solution.

ghost use Rattle.std.specs.Prelude.{◌≡◌, List, All};
ghost use Rattle.un_model.specs.declared.model.Model.{Model};
ghost use Rattle.un_bound.specs.Arcs.{IsShort};
ghost use Rattle.un_post.specs.Postable.{IsPostable};
ghost use Rattle.un_tree.specs.Waits.{Visit};
ghost use Rattle.un_tree.specs.declared.node.Node.{Node};
ghost use Rattle.un_certificate.specs.Bounds.{IsBound, IsLeastOpen, IsLowestUnder};
ghost use Rattle.un_certificate.specs.Joints.{visits_in};

use un_bound::plain::plain_bound;
use un_model::model::Model;

/// The least of a cost and of the least costs in open leaves' boxes.
fn lowest_under(cost: u64, least: Option<u64>) -> u64
    ensures { (m : Model) (ps : List Visit) → IsLeastOpen m ps least → IsLowestUnder m cost ps result }
{
    match least {
        None => cost,
        Some(low) => cost.min(low),
    }
}

/// The bound of a tree under the cost of a solution: the plain bound, or the least of that cost and of the least costs in the boxes of
/// its open leaves where that is greater. `least` is the least of these, or none where no leaf is open.
pub fn bound_of(m: &Model, cost: u64, least: Option<u64>) -> u64
    requires postable { IsPostable m.now }
    requires short { All IsShort m.now.ext.blocks }
    ensures { (t : List Node) → IsLeastOpen m.now (visits_in m.now t) least → IsBound m.now cost (visits_in m.now t) result }
{
    plain_bound(m).max(lowest_under(cost, least))
}
