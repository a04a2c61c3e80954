//! Packets as the assembler spells them: as in a listing, but a call has no argument list, a jump's label is the function's own, and a
//! jump that tests what its own packet writes says that it is expected not to be taken.

use std::alloc::Global;
use un_base::memory_error::NoMemory;
use un_ir::text::put_text;
use un_listing::print::put_packet;
use un_packet::code::Packet;

/// A text in two parts.
#[derive(Clone, Copy)]
struct Halves<'a> {
    front: &'a [u8],
    behind: &'a [u8],
}

/// A text parted at a place.
fn parted(text: &[u8], place: usize) -> Halves<'_> {
    let (front, behind) = text.split_at(place.min(text.len()));
    Halves { front, behind }
}

/// A text parted behind the first place at which a word stands.
fn parted_behind<'a>(text: &'a [u8], word: &[u8]) -> Option<Halves<'a>> {
    for place in 0..text.len() {
        let rest = parted(text, place).behind;
        if rest.starts_with(word) {
            return Some(parted(text, place.saturating_add(word.len())));
        }
    }
    None
}

/// Where a name ends: at the first byte of these two, or at the end.
fn name_end(text: &[u8], first: u8, second: u8) -> usize {
    match text.iter().position(|b| *b == first || *b == second) {
        Some(place) => place,
        None => text.len(),
    }
}

/// What stands behind an argument list with which a text begins.
fn behind_arguments(text: &[u8]) -> &[u8] {
    let close = name_end(text, b')', b')');
    parted(text, close.saturating_add(1)).behind
}

/// Appends the label of a function's block.
pub(crate) fn put_label(out: &mut Vec<u8>, function: &[u8], label: &[u8]) -> Result<(), NoMemory> {
    put_text(out, b".L")?;
    put_text(out, function)?;
    put_text(out, b"_")?;
    put_text(out, label)
}

/// Appends the text of a call without its argument list; `halves` has the name of the called function first in its second part.
fn put_call(out: &mut Vec<u8>, halves: Halves<'_>) -> Result<(), NoMemory> {
    put_text(out, halves.front)?;
    let called = parted(halves.behind, name_end(halves.behind, b'(', b'('));
    put_text(out, called.front)?;
    put_text(out, behind_arguments(called.behind))
}

/// Appends the text of a jump; `halves` has the label first in its second part.
fn put_jump(out: &mut Vec<u8>, function: &[u8], halves: Halves<'_>) -> Result<(), NoMemory> {
    put_text(out, halves.front)?;
    put_label(out, function, halves.behind)
}

/// Appends the text of a jump that tests what its own packet writes, with the hint that the assembler asks for; `halves` has the jump
/// first in its second part.
fn put_fresh_jump(out: &mut Vec<u8>, function: &[u8], halves: Halves<'_>) -> Result<(), NoMemory> {
    put_text(out, halves.front)?;
    put_text(out, b"jump:nt ")?;
    let label = parted(halves.behind, b"jump ".len()).behind;
    put_label(out, function, label)
}

/// Appends an instruction of a listing, with what stands around it there.
fn put_instruction(out: &mut Vec<u8>, function: &[u8], text: &[u8]) -> Result<(), NoMemory> {
    if let Some(halves) = parted_behind(text, b"call ") {
        return put_call(out, halves);
    }
    if let Some(halves) = parted_behind(text, b".new) ") {
        return put_fresh_jump(out, function, halves);
    }
    match parted_behind(text, b"jump ") {
        Some(halves) => put_jump(out, function, halves),
        None => put_text(out, text),
    }
}

/// Appends the instructions of a packet's line in a listing.
fn put_instructions(out: &mut Vec<u8>, function: &[u8], line: &[u8]) -> Result<(), NoMemory> {
    for (place, text) in line.split(|b| *b == b';').enumerate() {
        if place > 0 {
            put_text(out, b";")?;
        }
        put_instruction(out, function, text)?;
    }
    Ok(())
}

/// Appends the line of a packet.
pub(crate) fn put_line(
    alloc: Global,
    out: &mut Vec<u8>,
    function: &[u8],
    packet: &Packet,
) -> Result<(), NoMemory> {
    let mut line = Vec::new(alloc);
    put_packet(&mut line, packet)?;
    put_text(out, b"\t")?;
    put_instructions(out, function, line.as_slice())
}
