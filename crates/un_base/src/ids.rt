//! Numbers of things, each from 0 in the order in which the things are listed.

/// A block of a function or of code, by its place.
#[derive(Clone, Copy, PartialEq)]
pub struct BlockId(pub u32);

/// A name of a function, by its first appearance in the text.
#[derive(Clone, Copy, Default, PartialEq)]
pub struct NameId(pub u32);

/// An operation of an extended function.
#[derive(Clone, Copy, PartialEq)]
pub struct OpId(pub u32);

/// A temporary of an extended function.
#[derive(Clone, Copy, PartialEq)]
pub struct TempId(pub u32);

/// A variable of a model.
#[derive(Clone, Copy, PartialEq, Eq, PartialOrd, Ord)]
pub struct VarId(pub u32);
