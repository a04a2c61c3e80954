//! What a report holds, with its name and its tree lent from its text.

use crate::report::Answered;
use un_model::model::Options;

/// A report whose name and tree are slices of its text.
#[derive(Drop)]
pub struct ReportView<'a> {
    /// Its version, 1 to the last: it says what the report may have, and by which table it is judged.
    pub version: u8,
    /// The name of the function, as it stands in the text.
    pub name: &'a [u8],
    /// The options of its model: the registers and the frame slots that the search might use.
    pub options: Options,
    /// How many nodes the search was given for its tree, 1 to 200,000.
    pub nodes: u32,
    /// Code with its cost, bound and solution; or that there is no solution; or that the search stopped before it knew.
    pub answer: Answered,
    /// The lines of its tree, each with its line feed.
    pub tree: &'a [u8],
    /// How many lines the tree has: one a node.
    pub count: u32,
}
