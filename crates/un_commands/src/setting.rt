//! The options of a search: what one word with the next sets, and what several set together.

ghost use Rattle.std.specs.Prelude.{◌≡◌};
ghost use Rattle.un_commands.specs.Settings.{none_given, with_setting, over_defaults};

use crate::command::{DEFAULT_NODES, SearchOptions};
use un_isa::reg::SLOTS;

/// An option of a search with its value.
#[derive(Clone, Copy)]
pub enum Setting {
    /// How many nodes its tree may have.
    Nodes(u32),
    /// How many registers it may assign.
    Regs(u32),
    /// How many frame slots it may use.
    Slots(u32),
}

/// The values that settings have given, each option at most once.
#[derive(Clone, Copy)]
pub struct Given {
    /// How many nodes the search's tree may have; None where that is not given.
    pub nodes: Option<u32>,
    /// How many general registers it may assign; None where that is not given.
    pub regs: Option<u32>,
    /// How many frame slots it may use; None where that is not given.
    pub slots: Option<u32>,
}

impl Given {
    /// No option is given.
    pub fn nothing() -> Given
        ensures { result ≡ none_given }
    {
        Given {
            nodes: None,
            regs: None,
            slots: None,
        }
    }

    /// What is given with one setting more, in place of what was given for its option.
    pub fn with(self, setting: Setting) -> Given
        ensures { result ≡ with_setting self setting }
    {
        match setting {
            Setting::Nodes(nodes) => Given {
                nodes: Some(nodes),
                ..self
            },
            Setting::Regs(regs) => Given {
                regs: Some(regs),
                ..self
            },
            Setting::Slots(slots) => Given {
                slots: Some(slots),
                ..self
            },
        }
    }

    /// The options of a search, each the value given or its default.
    pub fn options(self) -> SearchOptions
        ensures { result ≡ over_defaults self }
    {
        SearchOptions {
            nodes: self.nodes.unwrap_or(DEFAULT_NODES),
            regs: self.regs,
            slots: self.slots.unwrap_or(SLOTS),
        }
    }
}
