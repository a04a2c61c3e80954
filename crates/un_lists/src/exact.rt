//! Types at which equal is identical.

ghost use Rattle.std.specs.Prelude.{◌≡◌, ◌↔◌, IsTrue, true};

use crate::few::Few;
use crate::items::Items;

/// A type at which `==` says that two values are one and the same for contracts.
pub trait Exact: PartialEq {
    ghost is_exact: { (a b : Self) → Self.eq a b ≡ true → a ≡ b };

    ghost is_reflexive: { (a : Self) → Self.eq a a ≡ true };
}

impl<T: Exact> Exact for Few<T> {
    ghost use Rattle.un_lists.specs.Exactness.{list_exact, list_reflexive};

    ghost is_exact = { list_exact T.eq T.is_exact };

    ghost is_reflexive = { list_reflexive T.eq T.is_reflexive };
}

impl<T: Exact> Exact for Items<T> {
    ghost use Rattle.un_lists.specs.Exactness.{list_exact, list_reflexive};

    ghost is_exact = { list_exact T.eq T.is_exact };

    ghost is_reflexive = { list_reflexive T.eq T.is_reflexive };
}

/// Whether two values are one.
pub fn same<T: Exact>(a: &T, b: &T) -> bool
    ensures { IsTrue result ↔ (a.now ≡ b.now) }
{
    a == b
}
