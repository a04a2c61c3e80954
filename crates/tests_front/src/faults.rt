//! Texts with the answers that the input language gives them, and functions that are printed in the one spelling.

use crate::outside_faults::OUTSIDE;
use crate::rows::{About, all_answered, cut, number, number_at};
use std::alloc::Global;
use un_base::memory_error::NoMemory;
use un_ir::function::Function;
use un_ir::print::print_function;
use un_ir::text::{put_number, put_text};
use un_reader::error::ReadError;
use un_reader::read::read_function;
use un_reread::read_back::read_back;

/// What texts are.
static ROWS: &[u8] = b"# Third lines of a text.\
|%c = imm #32767?third:0 0\
|%c = imm #32768?third:3 3\
|%c = imm #-32768?third:0 0\
|%c = imm #-32769?third:3 3\
|%c = imm #0032767?third:0 0\
|%c = imm #-0?third:0 0\
|%c = imm #65536?third:3 3\
|%c = imm #4294967297?third:3 3\
|%c = imm #-99999999999999999999999?third:3 3\
|%c = andi %a, #511?third:0 0\
|%c = andi %a, #512?third:3 3\
|%c = ori %a, #-512?third:0 0\
|$c = cmpgti %a, #-513?third:3 3\
|%c = asl %a, #31?third:0 0\
|%c = asr %a, #32?third:3 3\
|%c = lsr %a, #-1?third:3 3\
|%c = lsr %a, #-0?third:0 0\
|%c = load %a, #4092?third:0 0\
|%c = load %a, #4096?third:3 3\
|%c = load %a, #-4096?third:0 0\
|%c = load %a, #-4100?third:3 3\
|store %a, #2, %b?third:3 3\
|store %a, #-4, %b?third:0 0\
|%c=add %a,%b?third:0 0\
|  %c \t=\tadd  %a ,\t%b  ?third:0 0\
|%c = add %a %b?third:3 2\
|%c = add %a, %b,?third:3 2\
|%c = add %a, #1?third:3 2\
|%c = frob %a, %b?third:3 2\
|add %a, %b?third:3 2\
|%c = store %a, #4, %b?third:3 2\
|%c = imm # 5?third:3 2\
|%c = imm #+5?third:3 2\
|%c = imm #-?third:3 2\
|% c = imm #5?third:3 2\
|%1 = imm #5?third:3 2\
|if ! $a jump e?third:3 2\
|---?third:3 2\
|block e freq?third:3 2\
|func g?third:3 2\
|$c = mov %a?third:3 10\
|%c = mov $a?third:3 10\
|%c = cmpeq %a, %b?third:3 10\
|%c = mux %a, %a, %b?third:3 10\
|$c = imm #99999?third:3 10\
|$c = frob?third:3 2\
|call h %a, %b, %a, %b, %a, %b?third:0 0\
|call h %a, %b, %a, %b, %a, %b, %a?third:3 13\
|call h %a, %b, %a, %b, %a, %b, $a?third:3 10\
|call %a?third:3 2\
|%c = imm #5 ; \xff\x00 %?third:0 0\
|frob \x80?third:3 1\
|%c = imm\x01 #5?third:3 1\
|%abcdefghijklmnopqrstuvwxyz012345 = imm #1?third:0 0\
|%abcdefghijklmnopqrstuvwxyz0123456 = imm #1?third:3 2\
|block e freq 0?third:3 14\
|block e freq 1?third:3 4\
|block x freq 1000001?third:3 14\
|block x freq 0001000000?third:0 0\
|block x freq -0?third:3 14\
|# Whole texts.\
|?fault:1 6\
|\n?fault:2 6\
|func f?fault:2 6\
|func f\n?fault:2 6\
|func f\nblock e freq 1?fault:2 8\
|func f\nblock e freq 1\nret?fault:0 0\
|; c\r\nfunc f\r\nblock e freq 1\r\n\r\nret\r\n?fault:0 0\
|func f\nblock e freq 1\nret\r?fault:3 1\
|func f\nblock e freq 1\nret ; x\r?fault:0 0\
|func f\nblock e freq 1\nret\r\r\n?fault:3 1\
|block e freq 1\nret?fault:1 2\
|func f\nfunc g?fault:2 2\
|func f g?fault:1 2\
|func f %a, %b?fault:1 2\
|func f %a %a?fault:1 2\
|func f %a $a?fault:1 10\
|func f %a %b %c %d %e %f\nblock e freq 1\nret?fault:0 0\
|func f %a %b %c %d %e %f %g?fault:1 13\
|func f %a %b %c %d %e %f %a?fault:1 2\
|func f\nret?fault:2 6\
|func f\n%a = imm #99999?fault:2 3\
|func f\nblock e freq 1\nret\nret?fault:4 7\
|func f\nblock e freq 1\nret\n%a = imm #99999?fault:4 3\
|func f\nblock e freq 1\nif $p jump x\nret?fault:4 7\
|func f\nblock e freq 1\njump x?fault:3 5\
|func f\nblock e freq 1\njump e?fault:3 9\
|func f\nblock e freq 1\njump e\nblock x freq 1\njump y?fault:5 5\
|func f\nblock e freq 1\njump y\nblock x freq 1?fault:4 8\
|func f\nblock e freq 1\nblock x freq 1\nif $p jump x?fault:3 8\
|func f\nblock e freq 1\njump x\nblock x freq 1\nret?fault:0 0\
|func f %a\nblock e freq 1\n$p = cmpeq %a, %a\nif $p jump y\nblock x freq 1\nret\nblock y freq 1\nret %a?fault:8 11\
|func f %a\nblock e freq 1\n$p = cmpeq %a, %a\nif !$p jump y\nblock x freq 1\nret\nblock y freq 1\nret?fault:0 0\
|func u\n\nblock a freq 1\nret %x?fault:3 12\
|func u\nblock a freq 1\n%x = imm #1\nret %x?fault:0 0\
|func f\nblock e freq 1\nblock l freq 9\n%x = addi %x, #1\njump l?fault:2 12\
|func f %n\nblock e freq 1\nblock l freq 9\n$p = cmpgti %n, #0\nif $p jump m\nblock k freq 9\n%x = imm #1\njump l\nblock m freq 1\nret %x?fault:2 12\
|func f\nblock e freq 1\nret $p?fault:3 10\
|func f %a\nblock e freq 1\n$a = cmpeq %a, %a\nret %a?fault:0 0\
|func f %a\nblock e freq 1\n%b = mux $a, %a, %a\nret %b?fault:2 12\
|func dot %x %y %n\nblock entry freq 1\n%s = imm #0\nblock loop freq 100\n%u = load %x, #0\n%v = load %y, #0\n%m = mpyi %u, %v\n%s = add %s, %m\n%x = addi %x, #4\n%y = addi %y, #4\n%n = addi %n, #-1\n$c = cmpgti %n, #0\nif $c jump loop\nblock exit freq 1\nret %s?fault:0 0\
|# Texts with two faults each: on one line, then of whole texts. The first in order is the answer.\
|func f %a\nblock e freq 1\n%b = frob %a\x01?fault:3 1\
|func f %a\nblock e freq 1\n%b = mov $a\x01?fault:3 1\
|func f %a\nblock e freq 0\x01?fault:2 1\
|func f\n%a = imm #1\x01?fault:2 1\
|func f %a %a $b?fault:1 2\
|func f %a %b %c %d %e %f %a?fault:1 2\
|func f\nfrob?fault:2 2\
|func f\nblock e freq 1\nret\nfrob?fault:4 2\
|func f\nblock e freq 1\ncall h %a, %a, %a, %a, %a, %a, $a?fault:3 10\
|func f\nblock e freq 1\n$c = imm #99999?fault:3 10\
|func f\n$c = imm #1?fault:2 10\
|func f\nblock e freq 1\nret\n$c = imm #1?fault:4 10\
|func f\ncall h %a, %a, %a, %a, %a, %a, %a?fault:2 13\
|func f\nblock e freq 1\nret\ncall h %a, %a, %a, %a, %a, %a, %a?fault:4 13\
|func f\n%a = imm #99999?fault:2 3\
|func f\nblock e freq 1\nret\n%a = imm #99999?fault:4 3\
|func f\nblock e freq 1\nret\nblock e freq 0?fault:4 14\
|func f\nblock e freq 1\njump y\nblock x freq 1?fault:4 8\
|func f\nblock e freq 1\njump e\nblock x freq 1?fault:4 8\
|func f %a\nblock e freq 1\nret\nblock x freq 1\nret %a\nblock y freq 1?fault:6 8\
|func f\nblock e freq 1\n%a = mov %b\nblock x freq 1?fault:4 8\
|func f\nblock e freq 1\njump e\nblock x freq 1\njump y?fault:5 5\
|func f %a\nblock e freq 1\nret\nblock x freq 1\nret %a\nblock y freq 1\njump z?fault:7 5\
|func f %a\nblock e freq 1\nret\nblock x freq 1\nret %a\nblock y freq 1\njump e?fault:7 9\
|func f\nblock e freq 1\n%a = mov %b\njump e?fault:4 9\
|func f\nblock e freq 1\nret\nblock x freq 1\nret %b?fault:5 11\
|# Texts at the limits and past them: a head, how often a line stands, that line before its number and behind it, and an end.\
|func f\n^64^block b^freq 1\nret^?repeated:0 0\
|func f\n^65^block b^freq 1\nret^?repeated:130 13\
|func f\n^64^block b^freq 1\nret^block b0 freq 0?repeated:130 13\
|func f\n^16^block b^freq 1^ret?repeated:0 0\
|func f\n^63^block b^freq 1^ret?repeated:0 0\
|func f\n^64^block b^freq 1^ret?repeated:0 0\
|func f\n^66^block b^freq 1^ret?repeated:66 13\
|func f\nblock e freq 1\n^40^%x^= imm #1^ret?repeated:0 0\
|func f\nblock e freq 1\n^41^%x^= imm #1^ret?repeated:0 0\
|func f\nblock e freq 1\n^40^%x^= imm #1^$p = cmpeq %x0, %x0\nret?repeated:0 0\
|func f\nblock e freq 1\n^118^%x^= imm #1^$p = cmpeq %x0, %x0\nret?repeated:0 0\
|func f\nblock e freq 1\n^120^%x^= imm #1^ret?repeated:0 0\
|func f\nblock e freq 1\n^121^%x^= imm #1^ret?repeated:123 13\
|func f\nblock e freq 1\n^120^%x^= imm #1^$p = cmpeq %x0, %x0\nret?repeated:123 13\
|func f\nblock e freq 1\n^120^%x^= imm #1^%y = imm #99999?repeated:123 13\
|func f\nblock e freq 1\n^121^%x^= imm #99999^ret?repeated:3 3\
|func f %a\nblock e freq 1\n^80^%a = addi %a, #^^ret?repeated:0 0\
|func f %a\nblock e freq 1\n^81^%a = addi %a, #^^ret?repeated:0 0\
|func f\nblock e freq 1\n^400^%a = imm #^^ret?repeated:0 0\
|func f\nblock e freq 1\n^401^%a = imm #^^ret?repeated:403 13\
|func f\nblock e freq 1\n^400^%a = imm #^^%a = imm #99999?repeated:403 13\
|func f\nblock e freq 1\n%a = imm #1\nblock g freq 1\n^80^%a = imm #^^ret?repeated:0 0\
|func f\nblock e freq 1\n%a = imm #1\nblock g freq 1\n^398^%a = imm #^^ret?repeated:0 0\
|func f\nblock e freq 1\n%a = imm #1\nblock g freq 1\n^400^%a = imm #^^ret?repeated:404 13\
|func f\nblock e freq 1\n%a = imm #1\nblock g freq 1\n^401^%a = imm #^^ret?repeated:404 13\
|func f %a %b %c %d %e %f\nblock e freq 1\nret?fault:0 0\
|func f %a %b %c %d %e %f %g\nblock e freq 1\nret?fault:1 13\
|# A text that is filled with line feeds may have 262,144 bytes and no more.\
|?up to 262144:262145 6|&?up to 262145:0 13\
|func f\nblock e freq 1\nret\n?up to 65537:0 0|&?up to 262144:0 0\
|# Functions, and the one spelling of each.
|; the dot product
func dot %x\t%y  %n

block entry freq 01
%s=imm #-0
  block loop freq 100
    %u = load %x,#00 ; the next words
    %v = load %y,#0
    %m = mpyi %u , %v
    %s = add %s, %m
    %x = addi %x, #4
    %y = addi %y, #4
    %n = addi %n, #-01
    $c = cmpgti %n, #0
    if $c jump loop
block exit freq 1
  ret %s?printed:func dot %x %y %n
block entry freq 1
  %s = imm #0
block loop freq 100
  %u = load %x, #0
  %v = load %y, #0
  %m = mpyi %u, %v
  %s = add %s, %m
  %x = addi %x, #4
  %y = addi %y, #4
  %n = addi %n, #-1
  $c = cmpgti %n, #0
  if $c jump loop
block exit freq 1
  ret %s
|func dot %x %y %n
block entry freq 1
  %s = imm #0
block loop freq 100
  %u = load %x, #0
  %v = load %y, #0
  %m = mpyi %u, %v
  %s = add %s, %m
  %x = addi %x, #4
  %y = addi %y, #4
  %n = addi %n, #-1
  $c = cmpgti %n, #0
  if $c jump loop
block exit freq 1
  ret %s
?printed:func dot %x %y %n
block entry freq 1
  %s = imm #0
block loop freq 100
  %u = load %x, #0
  %v = load %y, #0
  %m = mpyi %u, %v
  %s = add %s, %m
  %x = addi %x, #4
  %y = addi %y, #4
  %n = addi %n, #-1
  $c = cmpgti %n, #0
  if $c jump loop
block exit freq 1
  ret %s
|func calls %a
block e freq 1000000
  %b = mov %a
  $b = cmpgtu %a, %b
  %b = mux $b, %a, %b
  store %a, #-4096, %b
  %b = call h %a, %b
  call h
  if !$b jump g
block f freq 2
  jump g
block g freq 3
  ret
?printed:func calls %a
block e freq 1000000
  %b = mov %a
  $b = cmpgtu %a, %b
  %b = mux $b, %a, %b
  store %a, #-4096, %b
  %b = call h %a, %b
  call h
  if !$b jump g
block f freq 2
  jump g
block g freq 3
  ret
|func g %a
block e freq 0010
$p = cmpeqi %a, #-0512 ; c
if !$p jump x
block w freq 2
store %a,#-4,%a
%b = call h %a
block x freq 3
ret %a?printed:func g %a
block e freq 10
  $p = cmpeqi %a, #-512
  if !$p jump x
block w freq 2
  store %a, #-4, %a
  %b = call h %a
block x freq 3
  ret %a
";

/// Appends the line and the code of a fault.
fn put_place(out: &mut Vec<u8>, line: u32, code: u8) -> Result<(), NoMemory> {
    put_number(out, u64::from(line))?;
    put_text(out, b" ")?;
    put_number(out, u64::from(code))
}

/// Appends the line and the code of a text's fault: 0 and 0 for a function.
fn put_fault(alloc: Global, out: &mut Vec<u8>, text: &[u8]) -> Result<(), NoMemory> {
    match read_function(alloc, text) {
        Ok(_) => put_place(out, 0, 0),
        Err(ReadError::TextFault { line, code }) => put_place(out, line, code),
        Err(ReadError::NoMemory) => Err(NoMemory),
    }
}

/// Writes a text with this third line.
fn put_third(text: &mut Vec<u8>, line: &[u8]) -> Result<(), NoMemory> {
    put_text(text, b"func f %a %b\nblock e freq 1\n")?;
    put_text(text, line)?;
    put_text(text, b"\nret\n")
}

/// Writes a line with a number.
fn put_line(text: &mut Vec<u8>, line: &[u8], n: u32, after: &[u8]) -> Result<(), NoMemory> {
    put_text(text, line)?;
    put_number(text, u64::from(n))?;
    put_text(text, b" ")?;
    put_text(text, after)?;
    put_text(text, b"\n")
}

/// Writes lines with their numbers from 0.
fn put_lines(text: &mut Vec<u8>, count: u32, line: &[u8], after: &[u8]) -> Result<(), NoMemory> {
    for n in 0..count {
        put_line(text, line, n, after)?;
    }
    Ok(())
}

/// Writes a text of which one line is repeated.
fn put_repeated(text: &mut Vec<u8>, row: &[u8]) -> Result<(), NoMemory> {
    let (head, rest) = cut(row, b'^');
    let (count, rest) = cut(rest, b'^');
    let (line, rest) = cut(rest, b'^');
    let (after, end) = cut(rest, b'^');
    put_text(text, head)?;
    put_lines(text, number(count), line, after)?;
    put_text(text, end)
}

/// Writes a text and line feeds, so many bytes in all.
fn put_filled(text: &mut Vec<u8>, head: &[u8], size: u32) -> Result<(), NoMemory> {
    put_text(text, head)?;
    text.resize(size as usize, b'\n')?;
    Ok(())
}

/// Writes the text that a question makes of another.
fn put_made(text: &mut Vec<u8>, given: &[u8], question: &[u8]) -> Result<(), NoMemory> {
    match question.first() {
        Some(b't') => put_third(text, given),
        Some(b'r') => put_repeated(text, given),
        _ => put_filled(text, given, number_at(question, 2)),
    }
}

/// Appends the fault of such a text.
fn put_fault_of_made(
    alloc: Global,
    out: &mut Vec<u8>,
    given: &[u8],
    question: &[u8],
) -> Result<(), NoMemory> {
    let mut text = Vec::new(alloc);
    put_made(&mut text, given, question)?;
    put_fault(alloc, out, text.as_slice())
}

/// Whether a function is printed so after it was printed and read.
fn comes_back(alloc: Global, f: &Function, printed: &[u8]) -> bool {
    let Ok(back) = read_back(alloc, f) else {
        return false;
    };
    match print_function(alloc, &back) {
        Ok(text) => text.as_slice() == printed,
        Err(_) => false,
    }
}

/// Appends a function in the one spelling, where it comes back from it.
fn put_function(alloc: Global, out: &mut Vec<u8>, f: &Function) -> Result<(), NoMemory> {
    let text = print_function(alloc, f)?;
    if comes_back(alloc, f, text.as_slice()) {
        put_text(out, text.as_slice())
    } else {
        put_text(out, b"?")
    }
}

/// Appends the function of a text in the one spelling.
fn put_printed(alloc: Global, out: &mut Vec<u8>, text: &[u8]) -> Result<(), NoMemory> {
    match read_function(alloc, text) {
        Ok(f) => put_function(alloc, out, &f),
        Err(_) => put_text(out, b"?"),
    }
}

/// Appends the answer to a question about a text of the input language.
pub(crate) fn put_of_text(
    alloc: Global,
    out: &mut Vec<u8>,
    text: &[u8],
    question: &[u8],
) -> Result<(), NoMemory> {
    match question.first() {
        Some(b'f') => put_fault(alloc, out, text),
        Some(b'p') => put_printed(alloc, out, text),
        _ => put_fault_of_made(alloc, out, text, question),
    }
}

#[test]
fn answers_of_texts(rt: HostRuntime) {
    let own = matches!(all_answered(rt.alloc(), About::Texts, ROWS), Ok(true));
    let outside = matches!(all_answered(rt.alloc(), About::Texts, OUTSIDE), Ok(true));
    assert!(rt; own && outside);
}
