//! Names of the input language.

use std::alloc::Global;
use un_base::memory_error::NoMemory;
use un_ir::function::Kind;
use un_llvm::lists::push;

/// A name by its place among names.
pub type NameId = usize;

/// The names of a function: of which kind each is, and what it is called, nothing where it is new.
#[derive(Drop)]
pub struct Names<'a> {
    pub kinds: Vec<Kind>,
    pub texts: Vec<&'a [u8]>,
}

impl<'a> Names<'a> {
    /// No names.
    pub fn new(alloc: Global) -> Names<'a> {
        Names {
            kinds: Vec::new(alloc),
            texts: Vec::new(alloc),
        }
    }

    /// How many there are.
    pub fn len(&self) -> usize {
        self.kinds.len()
    }

    /// A name more.
    pub fn add(&mut self, kind: Kind, text: &'a [u8]) -> Result<NameId, NoMemory> {
        let place = self.kinds.len();
        push(&mut self.kinds, kind)?;
        push(&mut self.texts, text)?;
        Ok(place)
    }

    /// Whether two names are of one kind.
    pub fn are_alike(&self, a: NameId, b: NameId) -> bool {
        match (self.kinds.get(a), self.kinds.get(b)) {
            (Some(Kind::General), Some(Kind::General)) => true,
            (Some(Kind::Pred), Some(Kind::Pred)) => true,
            _ => false,
        }
    }
}
