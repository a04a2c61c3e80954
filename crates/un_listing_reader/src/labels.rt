//! The labels of a listing, and what stands before one of its lines.

ghost use Rattle.std.specs.Prelude.{◌≡◌, ℕ, List, [], ◌∷◌, ◌++◌, ◌+◌, ◌<◌, ◌↔◌, IsTrue, IfOk, OnOk, Option, Contains};
ghost use Rattle.un_listing_reader.specs.LabelSets.{has_label, add_label};

use indexmap::IndexSet;
use std::alloc::Global;
use std::marker::Model;
use un_base::memory_error::NoMemory;
use un_base::name::Name;

/// A set of labels. Contracts see it as a list of them, each once.
#[derive(Drop)]
pub struct Labels {
    places: IndexSet<Name>,
}

impl Model for Labels {
    ghost use Rattle.std.specs.Prelude.{ℕ, List};

    ghost Value = { List (List ℕ) };

    ghost view = { λ n. n.places.keys };
}

impl Labels {
    /// No labels.
    pub fn new(alloc: Global) -> Labels
        ensures { result ≡ [] }
    {
        Labels {
            places: IndexSet::new(alloc),
        }
    }

    /// Whether the label is in the set.
    pub fn has(&self, label: &Name) -> bool
        ensures { result ≡ has_label self.now label.now }
    {
        self.places.contains(label)
    }

    /// Puts a label into the set.
    ///
    /// # Errors
    /// `NoMemory` where there is no memory for it.
    pub fn add(&mut self, label: &Name) -> Result<(), NoMemory>
        ensures { OnOk result (self.new ≡ add_label self.old label.now) }
    {
        match self.places.insert(*label) {
            Ok(_) => Ok(()),
            Err(_) => Err(NoMemory),
        }
    }
}

/// What stands before a line of a listing.
#[derive(Drop)]
pub struct Before {
    /// The labels of the block lines.
    pub labels: Labels,
    /// How many lines are of blocks.
    pub blocks: u32,
    /// How many lines are of packets.
    pub packets: u32,
    /// Whether there is a line before it: only the first has none.
    pub some: bool,
}
