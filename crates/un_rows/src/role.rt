//! What a block is to the saved values of its function.

/// Where a block has the saved values, and what it does with them.
#[derive(Clone, Copy)]
pub enum Role {
    /// The entry, which hands over those that it takes, wherever they stand.
    Entry,
    /// It takes them where the entry leaves them, and hands them over there.
    Middle,
    /// It takes them where the entry leaves them, and reads each in a register.
    Return,
    /// Nothing is known of it.
    Other,
}
