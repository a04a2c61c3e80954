//! Writing on some variables of a store alone.

ghost use Rattle.std.specs.Prelude.{◌≡◌, ◌<◌, ℕ, length, nat_le, nat_lt, nat_eq, not, Contains};
ghost use Rattle.un_domains.specs.Sets.{set_at, has, least, greatest};
ghost use Rattle.un_domains.specs.Cuts.{IsCut};

use crate::cut::Cut;
use crate::store::Store;
use un_base::ids::VarId;

/// A store in which only the variables of a list may be written.
#[derive(Drop)]
pub struct Window<'a> {
    /// The store that is lent.
    pub store: &'a mut Store,
    /// The variables that may be written; all may be read.
    pub vars: &'a [VarId],
}

impl Store {
    /// Lends writing on these variables. When the loan ends, the store is as the window left it.
    pub fn window<'a>(&'a mut self, vars: &'a [VarId]) -> Window<'a>
        ensures same_reference { result.store.ghost_name ≡ self.entry.ghost_name }
        ensures store { result.store.now ≡ self.old }
        ensures vars { result.vars.now ≡ vars.now }
    {
        Window { store: self, vars }
    }
}

impl<'a> Window<'a> {
    /// The least value of `v`.
    pub fn min(&self, v: VarId) -> u32
        requires there { v.0 < length self.now.store.now.sets }
        requires some { 0 < length (set_at self.now.store.now.sets v.0) }
        ensures { result ≡ least (set_at self.now.store.now.sets v.0) }
    {
        self.store.min(v)
    }

    /// The greatest value of `v`.
    pub fn max(&self, v: VarId) -> u32
        requires there { v.0 < length self.now.store.now.sets }
        requires some { 0 < length (set_at self.now.store.now.sets v.0) }
        ensures { result ≡ greatest (set_at self.now.store.now.sets v.0) }
    {
        self.store.max(v)
    }

    /// How many values `v` has.
    pub fn size(&self, v: VarId) -> u32
        requires { v.0 < length self.now.store.now.sets }
        ensures { result ≡ length (set_at self.now.store.now.sets v.0) }
    {
        self.store.size(v)
    }

    /// Whether `v` has one value and no other.
    pub fn is_single(&self, v: VarId) -> bool
        requires { v.0 < length self.now.store.now.sets }
        ensures { result ≡ nat_eq (length (set_at self.now.store.now.sets v.0)) 1 }
    {
        self.store.is_single(v)
    }

    /// Whether `x` is a value of `v`.
    pub fn has(&self, v: VarId, x: u32) -> bool
        requires { v.0 < length self.now.store.now.sets }
        ensures { result ≡ has (set_at self.now.store.now.sets v.0) x }
    {
        self.store.has(v, x)
    }

    /// Keeps the values of `v` that are at most `x`. It takes no memory.
    pub fn keep_le(&mut self, v: VarId, x: u32) -> Cut
        requires there { v.0 < length self.old.store.now.sets }
        requires lent { Contains self.old.vars.now v }
        ensures cut { IsCut (λ y. nat_le y x) v.0 self.old.store.now self.new.store.now result }
        ensures same_reference { self.new.store.ghost_name ≡ self.old.store.ghost_name }
        ensures vars { self.new.vars ≡ self.old.vars }
    {
        self.store.keep_le(v, x)
    }

    /// Keeps the values of `v` that are greater than `x`. It takes no memory.
    pub fn keep_gt(&mut self, v: VarId, x: u32) -> Cut
        requires there { v.0 < length self.old.store.now.sets }
        requires lent { Contains self.old.vars.now v }
        ensures cut { IsCut (λ y. nat_lt x y) v.0 self.old.store.now self.new.store.now result }
        ensures same_reference { self.new.store.ghost_name ≡ self.old.store.ghost_name }
        ensures vars { self.new.vars ≡ self.old.vars }
    {
        self.store.keep_gt(v, x)
    }

    /// Keeps `x` alone of the values of `v`. It takes no memory.
    pub fn keep_eq(&mut self, v: VarId, x: u32) -> Cut
        requires there { v.0 < length self.old.store.now.sets }
        requires lent { Contains self.old.vars.now v }
        ensures cut { IsCut (λ y. nat_eq y x) v.0 self.old.store.now self.new.store.now result }
        ensures same_reference { self.new.store.ghost_name ≡ self.old.store.ghost_name }
        ensures vars { self.new.vars ≡ self.old.vars }
    {
        self.store.keep_eq(v, x)
    }

    /// Takes `x` from the values of `v`. It takes no memory.
    pub fn drop_value(&mut self, v: VarId, x: u32) -> Cut
        requires there { v.0 < length self.old.store.now.sets }
        requires some { 0 < length (set_at self.old.store.now.sets v.0) }
        requires lent { Contains self.old.vars.now v }
        ensures cut { IsCut (λ y. not (nat_eq y x)) v.0 self.old.store.now self.new.store.now result }
        ensures same_reference { self.new.store.ghost_name ≡ self.old.store.ghost_name }
        ensures vars { self.new.vars ≡ self.old.vars }
    {
        self.store.drop_value(v, x)
    }
}
