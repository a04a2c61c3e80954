//! A listing in the spelling that `alloc` prints, which `run` takes where all of its instructions are of the subset; and at which line
//! each packet of that stands in the listing itself.

use crate::listing::Listing;
use crate::spelling::put_plain;
use crate::text::parted;
use un_base::decimal::read_decimal;
use un_base::memory_error::NoMemory;
use un_ir::function::Function;
use un_ir::text::{put_number, put_text};

/// The bytes of the frame that an instruction makes, where it makes one.
fn made_frame(text: &[u8]) -> Option<u64> {
    let rest = text.strip_prefix(b"r29 = add(r29,#-")?;
    let place = rest.iter().position(|b| *b == b')')?;
    read_decimal(parted(rest, place).front)
}

/// The bytes of the frame: those that the listing says, else those of the first instruction that makes one.
fn frame_of(listing: &Listing<'_>) -> u64 {
    if let Some(bytes) = listing.frame {
        return u64::from(bytes);
    }
    for instr in listing.instrs.as_slice() {
        if let Some(bytes) = made_frame(instr.text) {
            return bytes;
        }
    }
    0
}

/// Appends a packet.
fn put_packet(
    out: &mut Vec<u8>,
    listing: &Listing<'_>,
    f: &Function,
    packet: usize,
) -> Result<(), NoMemory> {
    put_text(out, b"{")?;
    let mut mark: &[u8] = b" ";
    for instr in listing.instrs.as_slice() {
        if instr.packet as usize == packet {
            put_text(out, mark)?;
            put_plain(out, listing, f, instr.text)?;
            mark = b"; ";
        }
    }
    put_text(out, b" }\n")
}

/// Appends a block under a label of its number.
fn put_block(
    out: &mut Vec<u8>,
    listing: &Listing<'_>,
    f: &Function,
    block: u32,
) -> Result<(), NoMemory> {
    put_text(out, b"block b")?;
    put_number(out, u64::from(block))?;
    put_text(out, b"\n")?;
    for (packet, listed) in listing.packets.as_slice().iter().enumerate() {
        if listed.block == block {
            put_packet(out, listing, f, packet)?;
        }
    }
    Ok(())
}

/// Appends a listing as `alloc` would print it, its blocks under labels of their numbers.
pub fn put_listing(out: &mut Vec<u8>, listing: &Listing<'_>, f: &Function) -> Result<(), NoMemory> {
    put_text(out, b"frame ")?;
    put_number(out, frame_of(listing))?;
    put_text(out, b"\n")?;
    for block in 0..listing.blocks {
        put_block(out, listing, f, block)?;
    }
    Ok(())
}

/// Appends a line for the label of a block, and for each of its packets the packet's line.
fn put_block_lines(out: &mut Vec<u8>, listing: &Listing<'_>, block: u32) -> Result<(), NoMemory> {
    put_text(out, b"0\n")?;
    for listed in listing.packets.as_slice() {
        if listed.block == block {
            put_number(out, u64::from(listed.line))?;
            put_text(out, b"\n")?;
        }
    }
    Ok(())
}

/// Appends for each line that `put_listing` appends the line at which its packet begins in the listing, from 1, and 0 where it is no
/// packet's.
pub fn put_lines(out: &mut Vec<u8>, listing: &Listing<'_>) -> Result<(), NoMemory> {
    put_text(out, b"0\n")?;
    for block in 0..listing.blocks {
        put_block_lines(out, listing, block)?;
    }
    Ok(())
}
