//! Texts of starts: what they give, and their first bad lines.

use crate::rows::{About, all_answered, number_at};
use std::alloc::Global;
use un_base::memory_error::NoMemory;
use un_ir::text::{put_number, put_text};
use un_isa::start::{Reply, Start};
use un_start::read::{StartError, read_start};

/// Texts of starts, read by another program from the rules alone. Of a start stand the registers, words, changes and junk that are not 0.
static ROWS: &[u8] = b"# Texts, each with its first bad line or the start that it gives.\
|blocks 0\n?start:reg; mem; blocks 0\
|blocks 1000000\n?start:reg; mem; blocks 1000000\
|blocks 1000001\n?start:bad 1\
|blocks 5?start:bad 1\
|?start:bad 1\
|\n?start:bad 1\
|blocks 05\n?start:bad 1\
|blocks -0\n?start:bad 1\
|blocks 5\nblocks 5\n?start:bad 2\
|blocks 5\n\n?start:bad 2\
|blocks 5 \n?start:bad 1\
|blocks  5\n?start:bad 1\
|blocks\t5\n?start:bad 1\
|blocks 5\r\n?start:bad 1\
|Blocks 5\n?start:bad 1\
|reg 0 5\nreg 1 9\nblocks 5\n?start:reg 0=5 1=9; mem; blocks 5\
|reg 1 9\nreg 0 5\nblocks 5\n?start:bad 2\
|reg 1 9\nreg 1 9\nblocks 5\n?start:bad 2\
|reg 0 0\nreg 31 0\nblocks 5\n?start:reg; mem; blocks 5\
|reg 0 4294967295\nblocks 5\n?start:reg 0=4294967295; mem; blocks 5\
|reg 0 4294967296\nblocks 5\n?start:bad 1\
|reg 0 -1\nblocks 5\n?start:bad 1\
|reg 32 1\nreg 35 0\nblocks 5\n?start:reg 32=1; mem; blocks 5\
|reg 32 2\nblocks 5\n?start:bad 1\
|reg 36 1\nblocks 5\n?start:bad 1\
|reg 00 1\nblocks 5\n?start:bad 1\
|reg 1\nblocks 5\n?start:bad 1\
|reg r1 5\nblocks 5\n?start:bad 1\
|reg 35 1\n?start:bad 2\
|mem 0 1\nmem 4 2\nmem 4294967292 3\nblocks 5\n?start:reg; mem 0=1 4=2 4294967292=3; blocks 5\
|mem 4 1\nmem 4 1\nblocks 5\n?start:bad 2\
|mem 8 1\nmem 4 1\nblocks 5\n?start:bad 2\
|mem 2 1\nblocks 5\n?start:bad 1\
|mem 4294967296 1\nblocks 5\n?start:bad 1\
|mem 4 4294967295\nblocks 5\n?start:reg; mem 4=4294967295; blocks 5\
|mem 4 4294967296\nblocks 5\n?start:bad 1\
|mem 4 1\nreg 0 1\nblocks 5\n?start:bad 2\
|reply 0\nreply 4294967295\nblocks 5\n?start:reg; mem; reply 0; reply 4294967295; blocks 5\
|reply 4294967296\nblocks 5\n?start:bad 1\
|reply\nblocks 5\n?start:bad 1\
|mem 4 1\nmem 8 2\nreply 7\nset 4 9\nset 8 10\njunk 1 3\njunk 28 4\njunk 31 5\njunk 35 1\nblocks 5\n?start:reg; mem 4=1 8=2; reply 7 set 4=9 set 8=10 junk 1=3 junk 28=4 junk 31=5 junk 35=1; blocks 5\
|mem 4 1\nreply 7\nset 8 9\nblocks 5\n?start:bad 3\
|mem 4 1\nmem 8 2\nreply 7\nset 8 9\nset 4 9\nblocks 5\n?start:bad 5\
|mem 4 1\nreply 7\nset 4 9\nset 4 9\nblocks 5\n?start:bad 4\
|mem 4 1\nset 4 9\nblocks 5\n?start:bad 2\
|reply 7\njunk 0 1\nblocks 5\n?start:bad 2\
|reply 7\njunk 16 1\nblocks 5\n?start:bad 2\
|reply 7\njunk 27 1\nblocks 5\n?start:bad 2\
|reply 7\njunk 15 1\njunk 28 0\nblocks 5\n?start:reg; mem; reply 7 junk 15=1; blocks 5\
|reply 7\njunk 29 1\nblocks 5\n?start:bad 2\
|reply 7\njunk 30 1\nblocks 5\n?start:bad 2\
|reply 7\njunk 32 2\nblocks 5\n?start:bad 2\
|reply 7\njunk 33 1\nblocks 5\n?start:reg; mem; reply 7 junk 33=1; blocks 5\
|reply 7\njunk 2 1\njunk 1 1\nblocks 5\n?start:bad 3\
|mem 4 1\nreply 7\njunk 1 1\nset 4 2\nblocks 5\n?start:bad 4\
|junk 1 1\nblocks 5\n?start:bad 1\
|reply 7\nmem 4 1\nblocks 5\n?start:bad 2\
|mem 4 1\nreply 7\nset 4 2\nreply 8\nset 4 3\njunk 1 1\nblocks 2\n?start:reg; mem 4=1; reply 7 set 4=2; reply 8 set 4=3 junk 1=1; blocks 2\
|blocks 5\nreg 0 1\n?start:bad 2\
|; note\nblocks 5\n?start:bad 1\
|reg 0 5 \nblocks 5\n?start:bad 1\
|reg 29 4\nblocks 5\n?start:reg 29=4; mem; blocks 5\
|reg 4 124\nreg 5 112\nreg 6 72\nreg 9 44\nreg 18 64\nreg 19 108\nreg 20 36\nreg 22 80\nreg 24 32\nreg 26 160\nreg 30 92\nmem 0 120\nmem 4 140\nreply 160\nblocks 40\n?start:reg 4=124 5=112 6=72 9=44 18=64 19=108 20=36 22=80 24=32 26=160 30=92; mem 0=120 4=140; reply 160; blocks 40\
|reg 3 156\nreg 2 80\nreg 7 156\nreg 12 2147483647\nreg 13 156\nreg 15 48\nreg 19 92\nreg 20 92\nreg 22 64\nreg 24 36\nreg 27 20\nmem 0 156\nreply 28\nreply 0\njunk 1 516928764\njunk 2 4194887951\njunk 3 2428676358\njunk 4 715126814\nblocks 46\n?start:bad 2\
|reg 1 32\nreg 15 84\nmem 0 96\nreply 130\njunk 1 2919126345\njunk 2 960353769\njunk 3 1179861786\njunk 4 1156517958\nreply 160\njunk 1 616689423\njunk 2 2758969094\njunk 3 2481732657\n?start:bad 13\
|reg 0 8\nreg 3 164\nreg 18 140\nreg 24 2\nreg 33 1\nmem 8 0\nreply 132\nblocks 44\n?start:reg 0=8 3=164 18=140 24=2 33=1; mem 8=0; reply 132; blocks 44\
|reg 0 144\nreg 8 2147483647\nreg 11 144\nreg 13 4\nreg 23 4294967295\nreg 29 4000\nreg 30 4294967295\nmem 8 110\nmem 4 4294967295\nmem 0 36\nmem 12 152\nblocks 6\n?start:bad 9\
|reg 13 128\nreg 19 76\nreg 20 4294967295\nreg 31 4\nreg 33 1\nmem 0 16\nmem 4 116\njunk 1 2993525882\nreply 40\njunk 1 2680788818\njunk 2 2496258867\njunk 3 4286019268\nreply 2147483648\njunk 1 2993525882\nblocks 4\n?start:bad 8\
|reg 5 138\nreg 12 92\nreg 17 24\nreg 24 2147483648\nreg 25 84\nreg 27 156\nreg 30 4\nreg 34 1\nmem 0 42\nmem 4 68\nmem 8 1\nreply 60\njunk 1 1966417069 1\njunk 2 2880688433\njunk 3 2044520237\njunk 4 699761787\nreply 12\njunk 1 3122850266\njunk 2 1028740529\nblocks 45\n?start:bad 13\
|reg 22 56\nreg 0 12\nreg 3 32\nreg 5 140\nreg 11 136\nreg 14 20\nreg 15 68\nreg 16 12\nreg 17 28\nreg 22 56\nreg 25 88\nreg 28 68\nreply 68\njunk 1 2193323666\njunk 2 657457867\njunk 3 1514043646\nreply 113\njunk 1 715519323\njunk 2 1910772595\njunk 3 1384785810\nblocks 25\n?start:bad 2\
|reg 5 2147483648\nreg 8 40\nreg 9 36\nreg 8 40\nreg 12 40\nreg 13 76\nreg 14 2\nreg 15 104\nreg 22 144\nreg 24 108\nreg 28 124\nmem 0 2147483648\nreply 144\nblocks 47\n?start:bad 4\
|reg 2 92\nreg 3 96\nreg 11 2147483648\njunk 4 3924699608\nreg 16 108\nreg 17 109\nreg 18 80\nreg 29 4000\nreply 64\njunk 1 2745889748\njunk 2 4167974518\nreply 154\njunk 1 3269357592\njunk 2 280256794\njunk 3 2082548044\nreg 12 136\nblocks 25\n?start:bad 4\
|reg 2 117\nreg 6 96\nreg 8 32\nreg 10 20\nreg 16 2147483648\nreg 17 44\nreg 29 4000\nreg 31 28\nmem 0 8\nmem 8 124\nmem 16 32\nblocks 26 1\n?start:bad 12\
|reg 5 112\nreg 7 76\nreg 9 924293846\nreg 12 92\nreg 21 80\nreg 23 76\nreg 28 120\nreg 31 20\nreg 33 1\nmem 0 4294967295\nmem 4 80\nreply 8\nblocks 10\n?start:reg 5=112 7=76 9=924293846 12=92 21=80 23=76 28=120 31=20 33=1; mem 0=4294967295 4=80; reply 8; blocks 10\
|# As many words and replies as there may be, and one more.\
|?words 4096:0\
|?words 4097:4097\
|?replies 256:0\
|?replies 257:257";

/// Appends a text, two numbers and between them `=`.
fn put_pair(out: &mut Vec<u8>, text: &[u8], place: u32, n: u32) -> Result<(), NoMemory> {
    put_text(out, text)?;
    put_number(out, u64::from(place))?;
    put_text(out, b"=")?;
    put_number(out, u64::from(n))
}

/// Appends the registers that are not 0, each behind a text.
fn put_registers(out: &mut Vec<u8>, text: &[u8], regs: &[u32]) -> Result<(), NoMemory> {
    let mut r = 0;
    for n in regs {
        if *n != 0 {
            put_pair(out, text, r, *n)?;
        }
        r = r.saturating_add(1);
    }
    Ok(())
}

/// Appends words with their addresses, each behind a text.
fn put_words(out: &mut Vec<u8>, text: &[u8], words: &[(u32, u32)]) -> Result<(), NoMemory> {
    for word in words {
        put_pair(out, text, word.0, word.1)?;
    }
    Ok(())
}

/// Appends what a call answers.
fn put_reply(out: &mut Vec<u8>, reply: &Reply) -> Result<(), NoMemory> {
    put_text(out, b"; reply ")?;
    put_number(out, u64::from(reply.result))?;
    put_words(out, b" set ", reply.changed.as_slice())?;
    put_registers(out, b" junk ", &reply.junk)
}

/// Appends a start.
fn put_start(out: &mut Vec<u8>, start: &Start) -> Result<(), NoMemory> {
    put_text(out, b"reg")?;
    put_registers(out, b" ", &start.regs)?;
    put_text(out, b"; mem")?;
    put_words(out, b" ", start.memory.words())?;
    for reply in start.replies.as_slice() {
        put_reply(out, reply)?;
    }
    Ok(())
}

/// Appends the start that a text gives with its number of blocks, or its first bad line.
fn put_read(alloc: Global, out: &mut Vec<u8>, text: &[u8]) -> Result<(), NoMemory> {
    match read_start(alloc, text) {
        Ok((start, blocks)) => {
            put_start(out, &start)?;
            put_text(out, b"; blocks ")?;
            put_number(out, u64::from(blocks))
        }
        Err(StartError::NoMemory) => Err(NoMemory),
        Err(StartError::BadStart { line }) => {
            put_text(out, b"bad ")?;
            put_number(out, u64::from(line))
        }
    }
}

/// A text of so many words, or of so many replies.
fn many(alloc: Global, are_words: bool, count: u32) -> Result<Vec<u8>, NoMemory> {
    let mut text = Vec::new(alloc);
    for k in 0..count {
        if are_words {
            put_text(&mut text, b"mem ")?;
            put_number(&mut text, 4 * u64::from(k))?;
        } else {
            put_text(&mut text, b"reply")?;
        }
        put_text(&mut text, b" 0\n")?;
    }
    put_text(&mut text, b"blocks 1\n")?;
    Ok(text)
}

/// Appends the first bad line of such a text, 0 where there is none.
fn put_many(alloc: Global, out: &mut Vec<u8>, are_words: bool, count: u32) -> Result<(), NoMemory> {
    let text = many(alloc, are_words, count)?;
    match read_start(alloc, text.as_slice()) {
        Ok(_) => put_text(out, b"0"),
        Err(StartError::NoMemory) => Err(NoMemory),
        Err(StartError::BadStart { line }) => put_number(out, u64::from(line)),
    }
}

/// Appends the answer to a question about a text of a start.
pub(crate) fn put_of_start(
    alloc: Global,
    out: &mut Vec<u8>,
    text: &[u8],
    question: &[u8],
) -> Result<(), NoMemory> {
    match question.first() {
        Some(b'w') => put_many(alloc, out, true, number_at(question, 1)),
        Some(b'r') => put_many(alloc, out, false, number_at(question, 1)),
        _ => put_read(alloc, out, text),
    }
}

#[test]
fn answers_of_starts(rt: HostRuntime) {
    let well = matches!(all_answered(rt.alloc(), About::Starts, ROWS), Ok(true));
    assert!(rt; well);
}
