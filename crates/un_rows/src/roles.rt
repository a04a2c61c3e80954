//! What each block is to the saved values of its function.

ghost use Rattle.std.specs.Prelude.{◌≡◌};
ghost use Rattle.un_rows.specs.Roles.{entry_role, hands_on, joined_role, role_of};

use crate::role::Role;
use un_ir::extended::ExtBlock;
use un_ir::function::Term;
use un_model::ends::term;
use un_saved::boundary::{Boundary, Marks};
use un_saved::joined::is_at;
use un_saved::places::{hands_own, keeps_places};
use un_saved::reads::reads_saved;

/// Whether a block hands values over to another.
fn hands_on(term: &Term) -> bool
    ensures { result ≡ hands_on term.now }
{
    match term {
        Term::Ret(_) => false,
        _ => true,
    }
}

/// The role of the entry.
fn entry_role(block: &ExtBlock) -> Role
    ensures { result ≡ entry_role block.now }
{
    if hands_on(&term(&block.ops)) && hands_own(block) {
        Role::Entry
    } else {
        Role::Other
    }
}

/// That of a block which takes the saved values where the entry leaves them.
fn joined_role(block: &ExtBlock) -> Role
    ensures { result ≡ joined_role block.now }
{
    if hands_on(&term(&block.ops)) && keeps_places(block) {
        return Role::Middle;
    }
    if reads_saved(block) {
        Role::Return
    } else {
        Role::Other
    }
}

/// That of block `k`, which is this one, by the marks of the boundaries that are joined to the end of the entry.
pub fn role_of(marks: &Marks, k: u32, block: &ExtBlock) -> Role
    ensures { result ≡ role_of marks.now k block.now }
{
    if k == 0 {
        return entry_role(block);
    }
    if is_at(marks, Boundary::StartOf(k)) {
        joined_role(block)
    } else {
        Role::Other
    }
}
