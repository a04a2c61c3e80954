//! Names of functions, blocks, values and callees.

ghost use Rattle.std.specs.Prelude.{◌≡◌, ℕ, ◌-◌, ◌<◌, ◌≤◌, ◌++◌, ◌↔◌, replicate, List, [], ◌∷◌, length, take, drop, IsTrue, true, IfSome};
ghost use Rattle.std.specs.Prelude.{IsSome};
ghost use Rattle.std.specs.List.{list_all};
ghost use Rattle.un_base.specs.Names.{is_name, is_first, is_rest};

use std::marker::Model;

/// The most bytes of a name.
pub const NAME_BYTES: usize = 32;

/// A name of 1 to `NAME_BYTES` bytes without its sigil: a letter or `_`, then letters, digits, `_` and `.`. Contracts see it as
/// the list of its bytes, and it is copied without memory.
#[derive(Clone, Copy, Hash, PartialEq, Eq)]
pub struct Name {
    bytes: [u8; NAME_BYTES],
    len: usize,
}

impl Model for Name {
    ghost use Rattle.std.specs.Prelude.{◌≡◌, ℕ, ◌-◌, List, ◌++◌, length, take, drop, replicate, true, refl};
    ghost use Rattle.un_base.specs.Names.{is_name, is_first, is_rest};
    ghost use Rattle.un_base.specs.declared.name.TheConstants.{NAME_BYTES};

    ghost Value = { List ℕ };

    ghost view = { λ a. take a.len a.bytes };

    ghost invariant = { λ a. record {
      name : is_name (take a.len a.bytes) ≡ true;
      padded : a.bytes ≡ take a.len a.bytes ++
          replicate (NAME_BYTES - a.len) 0;
      long : length (take a.len a.bytes) ≡ a.len;
    } };

    ghost inverse = { λ bs. record { bytes = bs ++ replicate (NAME_BYTES - length bs) 0; len = length bs } };

    ghost inverse_ok = { λ a h. Prim.rw (h.long, ← h.padded) refl };
}

/// Whether it is a letter or an underscore.
fn is_first(b: u8) -> bool
    ensures { result ≡ is_first b }
{
    b.is_ascii_lowercase() || b.is_ascii_uppercase() || b == b'_'
}

/// Whether it may stand after the first byte.
fn is_rest(b: u8) -> bool
    ensures { result ≡ is_rest b }
{
    is_first(b) || b.is_ascii_digit() || b == b'.'
}

/// Whether each may stand after the first.
fn are_rest(text: &[u8]) -> bool
    ensures { result ≡ list_all is_rest text.now }
{
    text.iter().all(|b| is_rest(*b))
}

/// Whether it is a name.
fn is_name(text: &[u8]) -> bool
    ensures { result ≡ is_name text.now }
{
    if text.is_empty() || text.len() > NAME_BYTES {
        return false;
    }
    if !is_first(text[0]) {
        return false;
    }
    are_rest(text)
}

/// The bytes, and zeros.
fn padded(text: &[u8]) -> [u8; NAME_BYTES]
    requires { length text.now ≤ NAME_BYTES }
    ensures { result ≡ text.now ++ replicate (NAME_BYTES - length text.now) 0 }
{
    let mut bytes = [0; NAME_BYTES];
    for (i, b) in text.iter().enumerate() {
        bytes[i] = *b;
    }
    bytes
}

impl Name {
    /// The name with these bytes, where they are one.
    pub fn from_bytes(text: &[u8]) -> Option<Name>
        ensures named { IsSome result ↔ (is_name text.now ≡ true) }
        ensures bytes { IfSome result (λ n. n ≡ text.now) }
    {
        if !is_name(text) {
            return None;
        }
        let len = text.len();
        let bytes = padded(text);
        Some(Name { bytes, len })
    }

    /// The bytes of the name.
    pub fn as_bytes(&self) -> &[u8]
        ensures bytes { result.now ≡ self.now }
        ensures name { is_name self.now ≡ true }
    {
        &self.bytes[..self.len]
    }
}

/// Whether two names are the same.
pub fn same(a: Name, b: Name) -> bool
    ensures { IsTrue result ↔ (a ≡ b) }
{
    a == b
}
