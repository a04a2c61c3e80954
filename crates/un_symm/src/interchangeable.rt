//! Whether two registers are interchangeable in a model.

ghost use Rattle.std.specs.Prelude.{◌≡◌, ◌↔◌, ◌<◌, ◌&&◌, IsTrue, All};
ghost use Rattle.un_isa.specs.Registers.{space_of};
ghost use Rattle.un_isa.specs.Tables.{in_mask};
ghost use Rattle.un_domains.specs.Domains.{values_of};
ghost use Rattle.un_domains.specs.Sets.{has};
ghost use Rattle.un_symm.specs.Interchangeable.{may_have, HasBothOrNeither, AreInterchangeable};

use crate::homes::is_home_in;
use un_base::ids::VarId;
use un_domains::domain::Domain;
use un_isa::reg::{Reg, space_of};
use un_isa::reg_set::is_in_mask;
use un_model::model::Model;

/// Whether a domain has a value.
fn has(d: &Domain, x: u32) -> bool
    ensures { result ≡ has (values_of d.now) x }
{
    match d {
        Domain::Range { lo, hi } => *lo <= x && x <= *hi,
        Domain::Set(values) => values.as_slice().iter().any(|value| *value == x),
    }
}

/// Whether a variable may have a value.
fn may_have(m: &Model, v: VarId, x: u32) -> bool
    ensures { result ≡ may_have m.now v.0 x }
{
    match m.domains.as_slice().get(v.0 as usize) {
        None => false,
        Some(d) => has(d, x),
    }
}

/// Whether the register of each temporary may be both or neither.
fn are_alike(m: &Model, a: Reg, b: Reg) -> bool
    ensures { IsTrue result ↔ All (HasBothOrNeither m.now a.0 b.0) m.now.temps }
{
    m.temps
        .iter()
        .all(|t| may_have(m, t.reg, a.0) == may_have(m, t.reg, b.0))
}

/// Whether a call clobbers both or neither.
fn are_clobbered_alike(m: &Model, a: Reg, b: Reg) -> bool
    ensures { IsTrue result ↔ (in_mask m.now.ext.table.clobbered a.0 ≡ in_mask m.now.ext.table.clobbered b.0) }
{
    let clobbered = m.ext.table.clobbered;
    is_in_mask(clobbered, a.0) == is_in_mask(clobbered, b.0)
}

/// Whether two registers are of one kind.
fn are_of_one_kind(a: Reg, b: Reg) -> bool
    ensures { IsTrue result ↔ (space_of a.0 ≡ space_of b.0) }
{
    space_of(a.0) == space_of(b.0)
}

/// Whether two registers are interchangeable: neither is 0, each register variable may at first have both or neither, neither is a
/// home, both are of one kind, and a call clobbers both or neither.
pub fn interchangeable(m: &Model, a: Reg, b: Reg) -> bool
    ensures { IsTrue result ↔ AreInterchangeable m.now a.0 b.0 }
{
    a.0 > 0
        && b.0 > 0
        && are_of_one_kind(a, b)
        && are_clobbered_alike(m, a, b)
        && !is_home_in(m, a)
        && !is_home_in(m, b)
        && are_alike(m, a, b)
}
