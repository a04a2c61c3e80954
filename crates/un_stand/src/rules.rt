//! What a walk over a tree of a model goes by.

use un_model::model::Model;

/// A model, and a limit on the cost of its solutions.
#[derive(Clone, Copy)]
pub struct Rules<'a> {
    pub m: &'a Model,
    pub limit: Option<u64>,
}
