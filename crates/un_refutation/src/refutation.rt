//! What a refutation holds.

use un_base::name::Name;
use un_model::model::Options;
use un_symtree::node::SymTree;

/// A refutation: that a function has no solution that costs less than a limit.
#[derive(Drop)]
pub struct Refutation {
    /// The limit.
    pub limit: u64,
    /// The name of the function.
    pub name: Name,
    /// The options of its model: the registers and the frame slots that a solution might use.
    pub options: Options,
    /// The tree that shows it.
    pub tree: SymTree,
}
