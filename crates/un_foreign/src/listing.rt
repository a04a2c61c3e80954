//! A listing: its packets under their blocks, and instructions as they are spelled.

use un_lists::items::Items;

/// An instruction as it is spelled.
#[derive(Clone, Copy)]
pub struct Spelled<'a> {
    /// The number of its packet.
    pub packet: u32,
    /// Its line, from 1.
    pub line: u32,
    /// Its text, without blanks at the ends.
    pub text: &'a [u8],
}

/// A packet, by where it stands.
#[derive(Clone, Copy)]
pub struct Listed {
    /// The number of its block.
    pub block: u32,
    /// The line of its first brace, from 1.
    pub line: u32,
}

/// A label of a block.
#[derive(Clone, Copy)]
pub struct Label<'a> {
    /// The number of the block.
    pub block: u32,
    /// The label as it stands there.
    pub text: &'a [u8],
}

/// A listing. Numbers are from 0, in the order of the text.
#[derive(Drop)]
pub struct Listing<'a> {
    /// The bytes of its frame, where it says them.
    pub frame: Option<u32>,
    /// How many blocks there are.
    pub blocks: u32,
    /// The labels of the blocks; a block may have none, or several.
    pub labels: Items<Label<'a>>,
    /// The packets.
    pub packets: Items<Listed>,
    /// The instructions of the packets.
    pub instrs: Items<Spelled<'a>>,
}

/// The first label of a block.
pub fn label_of<'a>(listing: &Listing<'a>, block: u32) -> Option<&'a [u8]> {
    for label in listing.labels.as_slice() {
        if label.block == block {
            return Some(label.text);
        }
    }
    None
}

/// The block with a label.
pub fn block_of(listing: &Listing<'_>, text: &[u8]) -> Option<u32> {
    for label in listing.labels.as_slice() {
        if label.text == text {
            return Some(label.block);
        }
    }
    None
}
