//! A function's code as a source of the assembler: its symbol, its blocks under labels of the function's own, its packets.

use crate::packets::{put_label, put_line};
use std::alloc::Global;
use un_base::memory_error::NoMemory;
use un_ir::text::{put_number, put_text};
use un_packet::code::{Code, CodeBlock, Packet};

/// Appends texts, one after the other.
fn put_texts(out: &mut Vec<u8>, texts: &[&[u8]]) -> Result<(), NoMemory> {
    for text in texts {
        put_text(out, text)?;
    }
    Ok(())
}

/// Appends what stands before a function's code: its symbol, which a linker sees, and the size of its frame as a comment.
fn put_head(out: &mut Vec<u8>, function: &[u8], frame: u32) -> Result<(), NoMemory> {
    put_texts(
        out,
        &[
            b"\t.text\n\t.globl\t",
            function,
            b"\n\t.type\t",
            function,
            b",@function\n\t.p2align\t4\n",
            function,
            b":\n\t// frame ",
        ],
    )?;
    put_number(out, u64::from(frame))?;
    put_text(out, b"\n")
}

/// Appends packets.
fn put_packets(
    alloc: Global,
    out: &mut Vec<u8>,
    function: &[u8],
    packets: &[Packet],
) -> Result<(), NoMemory> {
    for packet in packets {
        put_line(alloc, out, function, packet)?;
    }
    Ok(())
}

/// Appends a block under its label.
fn put_block(
    alloc: Global,
    out: &mut Vec<u8>,
    function: &[u8],
    block: &CodeBlock,
) -> Result<(), NoMemory> {
    put_label(out, function, block.label.as_bytes())?;
    put_text(out, b":\n")?;
    put_packets(alloc, out, function, block.packets.as_slice())
}

/// The assembly of a function with this name: LLVM's assembler for Hexagon takes it, and a linker finds the function by its name.
///
/// # Errors
/// `NoMemory` where there is no memory for the text.
pub fn assembly(alloc: Global, function: &[u8], code: &Code) -> Result<Vec<u8>, NoMemory> {
    let mut out = Vec::new(alloc);
    put_head(&mut out, function, code.frame)?;
    for block in code.blocks.as_slice() {
        put_block(alloc, &mut out, function, block)?;
    }
    put_texts(
        &mut out,
        &[b"\t.size\t", function, b", .-", function, b"\n"],
    )?;
    Ok(out)
}
