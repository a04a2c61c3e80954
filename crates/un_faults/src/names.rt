//! The names of a text, numbered by their first appearance.

ghost use Rattle.std.specs.Prelude.{◌≡◌, ◌<◌, ◌≤◌, ◌^◌, OnOk, IfOk, [], length};
ghost use Rattle.std.specs.List.{list_any, position_or_len};
ghost use Rattle.un_faults.specs.Before.{same_name, add_name};

use indexmap::IndexSet;
use std::alloc::Global;
use std::marker::Model;
use un_base::memory_error::NoMemory;
use un_base::name::Name;
use un_ir::function::Kind;
use un_lists::items::Items;

/// Names with their kinds, each once. The number of a name is its place. Contracts see it as the list of the names.
#[derive(Drop)]
pub struct Names {
    places: IndexSet<(Name, Kind)>,
}

impl Model for Names {
    ghost use Rattle.std.specs.Prelude.{ℕ, List};
    ghost use Rattle.un_words.specs.Tokens.{Spelled};

    ghost Value = { List Spelled };

    ghost view = { λ n. n.places.keys };
}

impl Names {
    /// No names.
    pub fn new(alloc: Global) -> Names
        ensures { result ≡ [] }
    {
        Names {
            places: IndexSet::new(alloc),
        }
    }

    /// How many names there are.
    pub fn len(&self) -> usize
        ensures len { result ≡ length self.now }
        ensures few { result < 2 ^ 63 }
    {
        self.places.len()
    }

    /// The names in the order of their numbers.
    pub fn as_slice(&self) -> &[(Name, Kind)]
        ensures { result.now ≡ self.now }
    {
        self.places.as_slice()
    }

    /// Whether the name has a number.
    pub fn has(&self, name: &(Name, Kind)) -> bool
        ensures { result ≡ list_any (same_name name.now) self.now }
    {
        self.places.contains(name)
    }

    /// Gives the name the next number, where it has none.
    ///
    /// # Errors
    /// `NoMemory` where there is no memory for it.
    pub(crate) fn add(&mut self, name: &(Name, Kind)) -> Result<(), NoMemory>
        ensures { OnOk result (self.new ≡ add_name self.old name.now) }
    {
        match self.places.insert(*name) {
            Ok(_) => Ok(()),
            Err(_) => Err(NoMemory),
        }
    }

    /// The number of the name, or how many names there are where it has none.
    pub fn place(&self, name: &(Name, Kind)) -> usize
        ensures place { result ≡ position_or_len (same_name name.now) self.now }
        ensures bound { result ≤ length self.now }
    {
        match self.places.get_index_of(name) {
            Some(place) => place,
            None => self.places.len(),
        }
    }

    /// The names as a list.
    ///
    /// # Errors
    /// `NoMemory` where there is no memory for the list.
    pub fn to_items(&self, alloc: Global) -> Result<Items<(Name, Kind)>, NoMemory>
        ensures { IfOk result (λ items. items ≡ self.now) }
    {
        let list = self.places.as_slice().to_vec(alloc)?;
        Ok(Items::from_vec(list))
    }
}
