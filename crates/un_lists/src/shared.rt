//! A list that several owners share.

ghost use Rattle.std.specs.Prelude.{◌≡◌, List, length, IfOk};

use std::alloc::{AllocError, Global};
use std::marker::Model;
use std::rc::Rc;

/// A list that does not change, and of which further owners take no copy. Contracts see the list of its items.
#[derive(Drop)]
pub struct Shared<T> {
    items: Rc<Vec<T>>,
}

impl<T> Model for Shared<T> {
    ghost Value = { List T };

    ghost view = { λ a. a.items.value.items };
}

impl<T> Shared<T> {
    /// The list of these items, with one owner.
    ///
    /// # Errors
    /// `AllocError` where there is no memory for the count of owners.
    pub fn new(alloc: Global, items: Vec<T>) -> Result<Shared<T>, AllocError>
    where
        T: Drop,
        ensures { IfOk result (λ shared. shared ≡ items.items) }
    {
        let items = Rc::new(alloc, items)?;
        Ok(Shared { items })
    }

    /// The same list for a further owner.
    ///
    /// # Errors
    /// `AllocError` where there are as many owners as can be counted.
    pub fn share(&self) -> Result<Shared<T>, AllocError>
    where
        T: Drop,
        ensures { IfOk result (λ shared. shared ≡ self.now) }
    {
        let items = self.items.clone()?;
        Ok(Shared { items })
    }

    /// How many items there are.
    pub fn len(&self) -> usize
        ensures { result ≡ length self.now }
    {
        self.items.len()
    }

    /// The items, lent.
    pub fn as_slice(&self) -> &[T]
        ensures { result.now ≡ self.now }
    {
        self.items.as_slice()
    }
}
