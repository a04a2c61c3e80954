//! The parts of a function before it is known that only parameters are live at its start.

use un_base::ids::NameId;
use un_base::name::Name;
use un_ir::function::{Block, Kind};
use un_lists::items::Items;

/// The parts of a function, as `Function` has them.
#[derive(Drop)]
pub struct Draft {
    /// The function's name.
    pub name: Name,
    /// The parameters, in order.
    pub params: Items<NameId>,
    /// The names with their kinds, in the order of their first appearance in the text: a NameId is a place here.
    pub names: Items<(Name, Kind)>,
    /// The blocks, in order; the first is the entry.
    pub blocks: Items<Block>,
}
