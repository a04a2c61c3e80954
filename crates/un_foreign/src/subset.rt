//! Which instructions of a listing are of the subset, by their forms. Whether their numbers are in range is not looked at.

use crate::listing::{Listing, Spelled};
use crate::spelling::put_plain;
use crate::text::parted;
use std::alloc::Global;
use un_base::memory_error::NoMemory;
use un_ir::function::Function;
use un_lists::items::Items;

/// The forms of the subset's instructions: R stands for a general register, P for a predicate, N for a number, L for a name, and A for what
/// stands in parentheses at the end.
static FORMS: [&[u8]; 32] = [
    b"R = #N",
    b"R = R",
    b"R = P",
    b"P = R",
    b"R = add(R,R)",
    b"R = add(R,#N)",
    b"R = sub(R,R)",
    b"R = and(R,R)",
    b"R = and(R,#N)",
    b"R = or(R,R)",
    b"R = or(R,#N)",
    b"R = xor(R,R)",
    b"R = mpyi(R,R)",
    b"R = asl(R,#N)",
    b"R = asr(R,#N)",
    b"R = lsr(R,#N)",
    b"R = mux(P,R,R)",
    b"P = cmp.eq(R,R)",
    b"P = cmp.eq(R,#N)",
    b"P = cmp.gt(R,R)",
    b"P = cmp.gt(R,#N)",
    b"P = cmp.gtu(R,R)",
    b"R = memw(R+#N)",
    b"memw(R+#N) = R",
    b"jump L",
    b"if (P) jump L",
    b"if (!P) jump L",
    b"if (P.new) jump L",
    b"if (!P.new) jump L",
    b"call LA",
    b"jumpr R",
    b"nop",
];

/// How many digits a text begins with.
fn digits(text: &[u8]) -> usize {
    text.iter()
        .position(|b| !b.is_ascii_digit())
        .unwrap_or(text.len())
}

/// How many bytes a register takes at the front of a text, with this first letter; 0 where there is none.
fn register(letter: u8, text: &[u8]) -> usize {
    match text.split_first() {
        Some((first, rest)) if *first == letter => match digits(rest) {
            1 => 2,
            2 => 3,
            _ => 0,
        },
        _ => 0,
    }
}

/// How many bytes a number takes at the front of a text; 0 where there is none.
fn number(text: &[u8]) -> usize {
    match text.strip_prefix(b"-") {
        Some(rest) => match digits(rest) {
            0 => 0,
            count => count.saturating_add(1),
        },
        None => digits(text),
    }
}

/// Whether a byte may stand in a name.
fn is_in_name(b: u8) -> bool {
    b.is_ascii_alphanumeric() || b == b'_' || b == b'.'
}

/// How many bytes a name takes at the front of a text.
fn name(text: &[u8]) -> usize {
    text.iter()
        .position(|b| !is_in_name(*b))
        .unwrap_or(text.len())
}

/// How many bytes parentheses take that stand around all of a text; 0 where they do not.
fn parentheses(text: &[u8]) -> usize {
    if text.starts_with(b"(") && text.ends_with(b")") {
        text.len()
    } else {
        0
    }
}

/// How many bytes of a text a byte of a form stands for; 0 where it does not fit.
fn taken(kind: u8, text: &[u8]) -> usize {
    match kind {
        b'R' => register(b'r', text),
        b'P' => register(b'p', text),
        b'N' => number(text),
        b'L' => name(text),
        b'A' => parentheses(text),
        _ => match text.first() {
            Some(b) if *b == kind => 1,
            _ => 0,
        },
    }
}

/// Whether a text has a form.
fn fits(form: &[u8], text: &[u8]) -> bool {
    let mut rest = text;
    for kind in form {
        let count = taken(*kind, rest);
        if count == 0 {
            return false;
        }
        rest = parted(rest, count).behind;
    }
    rest.is_empty()
}

/// Whether a text has the form of an instruction of the subset.
fn is_of_subset(text: &[u8]) -> bool {
    for form in FORMS.iter() {
        if fits(form, text) {
            return true;
        }
    }
    false
}

/// Whether an instruction of a listing has such a form, in its plain spelling.
fn is_known(
    alloc: Global,
    listing: &Listing<'_>,
    f: &Function,
    text: &[u8],
) -> Result<bool, NoMemory> {
    let mut plain = Vec::new(alloc);
    put_plain(&mut plain, listing, f, text)?;
    Ok(is_of_subset(plain.as_slice()))
}

/// The instructions of a listing that are not of the subset.
pub fn unknown<'a>(
    alloc: Global,
    listing: &Listing<'a>,
    f: &Function,
) -> Result<Items<Spelled<'a>>, NoMemory> {
    let mut found = Items::new(alloc);
    for instr in listing.instrs.as_slice() {
        if !is_known(alloc, listing, f, instr.text)? {
            found.push(*instr)?;
        }
    }
    Ok(found)
}
