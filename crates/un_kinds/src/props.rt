//! A list of propagators, seen as what they ask for.

ghost use Rattle.std.specs.Prelude.{◌≡◌, [], ◌∷◌, ◌++◌, All, OnOk, length, map};
ghost use Rattle.un_kinds.specs.Constraints.{Constraint};
ghost use Rattle.un_kinds.specs.AnyProps.{constraint_of};
ghost use Rattle.un_kinds.specs.Scopes.{IsTight};

use crate::any::AnyProp;
use std::alloc::Global;
use std::marker::Model;
use un_base::memory_error::NoMemory;
use un_lists::items::Items;

/// A list of propagators, each with exactly the variables of its fields. Contracts see what they ask for.
#[derive(Drop)]
pub struct Props {
    alloc: Global,
    list: Items<AnyProp>,
}

impl Model for Props {
    ghost use Rattle.std.specs.Prelude.{List, All, map};
    ghost use Rattle.un_kinds.specs.Constraints.{Constraint};
    ghost use Rattle.un_kinds.specs.AnyProps.{constraint_of};
    ghost use Rattle.un_kinds.specs.Scopes.{IsTight};

    ghost Value = { List Constraint };

    ghost view = { λ a. map constraint_of a.list };

    ghost invariant = { λ a. All IsTight a.list };
}

impl Props {
    /// The empty list.
    pub fn new(alloc: Global) -> Props
        ensures { result ≡ [] }
    {
        Props {
            alloc,
            list: Items::new(alloc),
        }
    }

    /// The allocator of the list.
    pub fn alloc(&self) -> Global {
        self.alloc
    }

    /// How many there are.
    pub fn len(&self) -> usize
        ensures { result ≡ length self.now }
    {
        self.list.len()
    }

    /// One propagator more at the end.
    pub fn push(&mut self, p: AnyProp) -> Result<(), NoMemory>
        requires { IsTight p }
        ensures { OnOk result (self.new ≡ self.old ++ constraint_of p ∷ []) }
    {
        self.list.push(p)?;
        Ok(())
    }

    /// The propagators. It takes no memory.
    pub fn into_vec(self) -> Vec<AnyProp>
        ensures asks { map constraint_of result.items ≡ self }
        ensures tight { All IsTight result.items }
    {
        self.list.into_vec()
    }
}
