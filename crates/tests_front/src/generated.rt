//! Generated functions: the texts of some, and the length and the hash of the texts of others. The hash is FNV-1a of 64 bits.

use crate::rows::{About, all_answered, number_at};
use std::alloc::Global;
use un_base::decimal::read_decimal;
use un_base::memory_error::NoMemory;
use un_gen::generate::generate;
use un_ir::function::BLOCKS;
use un_ir::print::print_function;
use un_ir::text::{put_number, put_text};

/// Seeds and sizes with the functions that they generate, made by another program from the rules alone.
static ROWS: &[u8] = b"# The smallest function: its first block is its last.
|?gen 7 1:func gen %v0 %v1 %v2 %v3
block b0 freq 1
  %v4 = imm #4
  %v5 = imm #5
  %v6 = imm #6
  %v7 = imm #7
  $p0 = cmpeq %v0, %v1
  ret %v0
|# Larger ones, the last one the largest.
|?gen 0 2:func gen %v0 %v1 %v2 %v3
block b0 freq 1
  %v4 = imm #4
  %v5 = imm #5
  %v6 = imm #6
  %v7 = imm #7
  $p0 = cmpeq %v0, %v1
block b1 freq 425
  %v4 = sub %v5, %v3
  %v7 = add %v0, %v3
  $p0 = cmpgt %v6, %v5
  %v6 = mpyi %v1, %v2
  ret %v0
|?gen 18446744073709551615 3:func gen %v0 %v1 %v2 %v3
block b0 freq 1
  %v4 = imm #4
  %v5 = imm #5
  %v6 = imm #6
  %v7 = imm #7
  $p0 = cmpeq %v0, %v1
  if $p0 jump b2
block b1 freq 678
  %v0 = and %v3, %v5
  $p0 = cmpgt %v4, %v3
  %v0 = and %v2, %v6
  %v1 = add %v4, %v2
block b2 freq 642
  %v1 = mpyi %v3, %v5
  %v5 = addi %v5, #2
  %v2 = xor %v6, %v0
  %v4 = xor %v5, %v2
  ret %v0
|?gen 1 4:func gen %v0 %v1 %v2 %v3
block b0 freq 1
  %v4 = imm #4
  %v5 = imm #5
  %v6 = imm #6
  %v7 = imm #7
  $p0 = cmpeq %v0, %v1
block b1 freq 154
  %v6 = mpyi %v2, %v3
  %v6 = and %v1, %v2
  %v2 = xor %v4, %v0
  %v4 = and %v2, %v7
  if $p0 jump b1
block b2 freq 628
  %v6 = addi %v2, #1
  %v4 = add %v0, %v1
  %v7 = add %v2, %v4
  %v6 = addi %v2, #-2
block b3 freq 317
  %v7 = addi %v4, #-2
  %v5 = add %v6, %v4
  %v7 = addi %v2, #-2
  %v4 = add %v2, %v5
  ret %v0
|?gen 42 5:func gen %v0 %v1 %v2 %v3
block b0 freq 1
  %v4 = imm #4
  %v5 = imm #5
  %v6 = imm #6
  %v7 = imm #7
  $p0 = cmpeq %v0, %v1
block b1 freq 27
  %v7 = and %v6, %v4
  %v6 = sub %v6, %v5
  %v6 = add %v2, %v2
  %v5 = mpyi %v2, %v3
  if !$p0 jump b1
block b2 freq 650
  %v6 = mpyi %v7, %v0
  %v6 = addi %v6, #0
  %v2 = addi %v2, #0
  %v2 = add %v0, %v5
block b3 freq 458
  %v2 = sub %v2, %v1
  $p0 = cmpgt %v5, %v5
  %v6 = xor %v7, %v6
  $p0 = cmpgt %v3, %v5
block b4 freq 294
  $p0 = cmpgt %v4, %v3
  $p0 = cmpgt %v2, %v5
  %v3 = xor %v0, %v4
  %v3 = sub %v4, %v0
  ret %v0
|?gen 7 16:func gen %v0 %v1 %v2 %v3
block b0 freq 1
  %v4 = imm #4
  %v5 = imm #5
  %v6 = imm #6
  %v7 = imm #7
  $p0 = cmpeq %v0, %v1
block b1 freq 232
  %v1 = sub %v1, %v3
  %v4 = add %v3, %v6
  %v3 = xor %v0, %v0
  %v2 = addi %v5, #-1
  if $p0 jump b12
block b2 freq 937
  %v6 = sub %v2, %v5
  %v0 = add %v1, %v5
  %v0 = add %v5, %v6
  %v5 = xor %v3, %v1
block b3 freq 973
  %v5 = add %v7, %v0
  %v4 = and %v0, %v0
  %v2 = add %v2, %v4
  %v5 = load %v4, #8
block b4 freq 809
  %v2 = add %v3, %v7
  %v3 = addi %v4, #-1
  %v4 = sub %v3, %v0
  %v1 = and %v6, %v6
block b5 freq 809
  %v6 = addi %v5, #-2
  %v0 = load %v7, #0
  %v1 = add %v7, %v2
  %v7 = xor %v3, %v5
  if !$p0 jump b8
block b6 freq 355
  %v6 = add %v3, %v4
  %v7 = addi %v0, #2
  %v4 = addi %v3, #-1
  %v0 = xor %v6, %v7
  if !$p0 jump b14
block b7 freq 629
  %v5 = add %v6, %v2
  %v6 = addi %v7, #3
  %v2 = load %v6, #8
  %v0 = mpyi %v2, %v1
  if !$p0 jump b11
block b8 freq 310
  $p0 = cmpgt %v1, %v7
  %v3 = sub %v1, %v2
  %v4 = add %v0, %v3
  %v5 = and %v1, %v6
  if !$p0 jump b9
block b9 freq 562
  %v3 = and %v5, %v1
  %v3 = sub %v4, %v5
  %v7 = and %v4, %v0
  %v5 = xor %v6, %v7
block b10 freq 632
  %v7 = and %v2, %v2
  %v4 = load %v5, #24
  %v1 = add %v1, %v0
  %v3 = addi %v1, #2
  if !$p0 jump b2
block b11 freq 85
  %v0 = addi %v3, #-4
  %v0 = mpyi %v6, %v7
  %v7 = and %v6, %v2
  %v5 = mpyi %v5, %v0
  if !$p0 jump b13
block b12 freq 112
  %v6 = mpyi %v5, %v6
  %v4 = and %v5, %v3
  %v5 = add %v5, %v5
  %v5 = sub %v0, %v7
  if !$p0 jump b3
block b13 freq 734
  %v4 = load %v6, #4
  %v4 = addi %v0, #0
  %v6 = and %v6, %v5
  %v0 = load %v3, #24
  if $p0 jump b3
block b14 freq 591
  $p0 = cmpgt %v5, %v4
  %v3 = xor %v0, %v0
  %v4 = and %v3, %v6
  %v3 = load %v6, #20
block b15 freq 396
  %v0 = add %v1, %v2
  %v4 = xor %v6, %v7
  %v2 = and %v7, %v1
  %v5 = and %v7, %v1
  ret %v0
|?gen 9223372036854775808 6:func gen %v0 %v1 %v2 %v3
block b0 freq 1
  %v4 = imm #4
  %v5 = imm #5
  %v6 = imm #6
  %v7 = imm #7
  $p0 = cmpeq %v0, %v1
block b1 freq 249
  %v4 = sub %v5, %v3
  %v7 = add %v0, %v3
  $p0 = cmpgt %v6, %v5
  %v6 = mpyi %v1, %v2
block b2 freq 308
  %v5 = load %v7, #8
  %v3 = addi %v1, #3
  %v6 = xor %v1, %v0
  %v4 = and %v1, %v3
block b3 freq 176
  %v6 = add %v0, %v3
  %v1 = sub %v5, %v0
  $p0 = cmpgt %v4, %v6
  %v7 = add %v1, %v1
block b4 freq 152
  %v4 = and %v2, %v3
  %v6 = add %v5, %v6
  %v6 = sub %v2, %v3
  %v6 = mpyi %v1, %v6
  if $p0 jump b2
block b5 freq 837
  %v4 = add %v6, %v1
  %v0 = xor %v5, %v1
  %v5 = and %v4, %v7
  %v1 = add %v5, %v0
  ret %v0
|# The lengths and the hashes of texts, for seeds at the ends of words and between them.\
|?hash 0 1:134 18388231519119380551\
|?hash 0 2:239 3066279259354528902\
|?hash 0 16:1817 5977359780977809981\
|?hash 18446744073709551615 1:134 18388231519119380551\
|?hash 18446744073709551615 2:255 1664919370983133963\
|?hash 18446744073709551615 16:1861 9833895891919948320\
|?hash 1 1:134 18388231519119380551\
|?hash 1 2:237 289136932950227998\
|?hash 1 3:357 6674128300845284304\
|?hash 2 2:254 16538781196374421966\
|?hash 7 1:134 18388231519119380551\
|?hash 7 2:237 12728931472624732848\
|?hash 7 16:1849 15438833729340567527\
|?hash 9223372036854775808 5:548 10069814021851784582\
|?hash 9223372036854775807 5:583 17231751958812973802\
|?hash 4294967296 4:480 9497080089042461426\
|?hash 4294967295 4:477 15965665571064368153\
|?hash 2147483648 8:932 7206033292094874565\
|?hash 8589934591 8:918 9510689910165470555\
|?hash 8589934592 8:989 1616301535030146541\
|?hash 18446744073709551614 15:1725 9367770927843674907\
|?hash 6364136223846793005 9:1055 1754233260269861031\
|?hash 1442695040888963407 9:1043 12493920262311208728\
|?hash 42 12:1370 6337918769582344276\
|?hash 1000 13:1548 12252795904807342643\
|?hash 12345678901234567890 14:1581 12685487263478783267\
|?hash 15626562030168072909 5:581 14505944973392085444\
|?hash 17805740098676553105 10:1155 6445836320456338919\
|?hash 6616380948609611686 9:1000 7621952980844275942\
|?hash 12238873179789713165 10:1128 2254276700043308169\
|?hash 11105730056128494120 5:570 1829528667074795303\
|?hash 5322299511226463021 9:997 17256952445302454962\
|?hash 14444033516876504545 5:587 6027570318595945168\
|?hash 17913742907181616388 9:959 6676923528634611992\
|?hash 4708382663323603237 5:569 11446563736958783704\
|?hash 1639243559917562041 9:1048 891435521101083096\
|?hash 9911952054733480794 7:810 16345154312500332462\
|?hash 8701001978946089155 14:1564 13474970423067015463\
|?hash 4405457366904379058 12:1402 320024687872764020\
|?hash 7450535301401526550 8:920 13625767891250199496";

/// The number at place `k` among the words of a text, and 0 where there is none.
fn seed_at(text: &[u8], k: usize) -> u64 {
    read_decimal(text.split(|b| *b == b' ').nth(k).unwrap_or(&[])).unwrap_or(0)
}

/// The text of the function that a seed and a size generate.
fn text_of(alloc: Global, seed: u64, size: u32) -> Result<Vec<u8>, NoMemory> {
    if size == 0 || size > BLOCKS {
        return Err(NoMemory);
    }
    let f = generate(alloc, seed, size)?;
    print_function(alloc, &f)
}

/// The hash of a text.
fn hash_of(text: &[u8]) -> u64 {
    let mut hash: u64 = 14_695_981_039_346_656_037;
    for b in text {
        hash = (hash ^ u64::from(*b)).wrapping_mul(1_099_511_628_211);
    }
    hash
}

/// Appends the length of a text and its hash.
fn put_hash(out: &mut Vec<u8>, text: &[u8]) -> Result<(), NoMemory> {
    put_number(out, text.len() as u64)?;
    put_text(out, b" ")?;
    put_number(out, hash_of(text))
}

/// Appends the answer to a question about a seed and a size.
pub(crate) fn put_of_seed(
    alloc: Global,
    out: &mut Vec<u8>,
    question: &[u8],
) -> Result<(), NoMemory> {
    let text = text_of(alloc, seed_at(question, 1), number_at(question, 2))?;
    match question.first() {
        Some(b'h') => put_hash(out, text.as_slice()),
        _ => put_text(out, text.as_slice()),
    }
}

#[test]
fn answers_of_seeds(rt: HostRuntime) {
    let well = matches!(all_answered(rt.alloc(), About::Seeds, ROWS), Ok(true));
    assert!(rt; well);
}
