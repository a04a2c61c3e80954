//! Liveness at the start of the entry.

ghost use Rattle.std.specs.Prelude.{◌≡◌, ◌<◌, ◌^◌, IfOk, length, true, false, not};
ghost use Rattle.un_live.specs.Marks.{marked, IsColumn, AreColumns};
ghost use Rattle.un_live.specs.Tables.{reads};
ghost use Rattle.un_reader.specs.Entry.{IsLiveAtEntry, HasNoneLive};

use crate::draft::Draft;
use std::alloc::Global;
use un_base::ids::NameId;
use un_base::memory_error::NoMemory;
use un_lists::items::Items;
use un_live::live::columns_of;
use un_live::marks::marked;

/// Whether the name is a parameter.
fn is_parameter(params: &[NameId], name: NameId) -> bool
    ensures { result ≡ reads name params.now }
{
    params.iter().any(|n| n.0 == name.0)
}

/// Whether the name, with the marks of the blocks at whose start it is live, is no parameter and is live at the start of the entry.
#[tactic(auto, using(crate::proofs::EntryLaws::live_entry, crate::proofs::EntryLaws::param_entry, crate::proofs::EntryLaws::dead_entry))]
fn is_live_name(parts: &Draft, name: NameId, marks: &[bool]) -> bool
    requires number { name.0 < length parts.now.names }
    requires column { IsColumn parts.now.blocks name marks.now }
    ensures yes { result ≡ true → IsLiveAtEntry parts.now.params parts.now.names parts.now.blocks name }
    ensures no { result ≡ false → IsLiveAtEntry parts.now.params parts.now.names parts.now.blocks name → ⊥ }
{
    !is_parameter(parts.params.as_slice(), name) && marked(marks, 0)
}

/// Whether a name that is no parameter is live at the start of the entry, by the marks of each name.
fn has_live_in(parts: &Draft, columns: &[Items<bool>]) -> bool
    requires names { length parts.now.names < 2 ^ 32 }
    requires columns { AreColumns parts.now.blocks (length parts.now.names) columns.now }
    ensures yes { result ≡ true → (name : NameId) × IsLiveAtEntry parts.now.params parts.now.names parts.now.blocks name }
    ensures no { result ≡ false → HasNoneLive parts.now.params parts.now.names parts.now.blocks }
{
    for (i, marks) in columns.iter().enumerate() {
        if is_live_name(parts, NameId(i as u32), marks.as_slice()) {
            return true;
        }
    }
    false
}

/// Whether a name that is no parameter is live at the start of the entry.
pub(crate) fn has_live(alloc: Global, parts: &Draft) -> Result<bool, NoMemory>
    requires names { length parts.now.names < 2 ^ 32 }
    requires blocks { length parts.now.blocks < 2 ^ 32 }
    ensures yes { IfOk result (λ live. live ≡ true → (name : NameId)
        × IsLiveAtEntry parts.now.params parts.now.names parts.now.blocks name) }
    ensures no { IfOk result (λ live. live ≡ false → HasNoneLive parts.now.params parts.now.names parts.now.blocks) }
{
    let columns = columns_of(alloc, parts.blocks.as_slice(), parts.names.len())?;
    Ok(has_live_in(parts, columns.as_slice()))
}
