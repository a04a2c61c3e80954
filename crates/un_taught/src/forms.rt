//! How the lines of operations are written, and the words of other languages that stand for them.

use un_isa::facts::source_name;
use un_isa::op::Op;

/// The operations of a text.
pub static OPERATIONS: [Op; 23] = [
    Op::Imm,
    Op::Mov,
    Op::Add,
    Op::Sub,
    Op::And,
    Op::Or,
    Op::Xor,
    Op::Addi,
    Op::Andi,
    Op::Ori,
    Op::Mpyi,
    Op::Asl,
    Op::Asr,
    Op::Lsr,
    Op::Mux,
    Op::CmpEq,
    Op::CmpGt,
    Op::CmpGtu,
    Op::CmpEqi,
    Op::CmpGti,
    Op::Load,
    Op::Store,
    Op::Call,
];

/// The words that may begin a line or stand behind an equals sign.
pub static HEADS: [&str; 28] = [
    "imm", "mov", "add", "sub", "and", "or", "xor", "addi", "andi", "ori", "mpyi", "asl", "asr",
    "lsr", "mux", "cmpeq", "cmpgt", "cmpgtu", "cmpeqi", "cmpgti", "load", "store", "call", "func",
    "block", "jump", "if", "ret",
];

/// How the line of an operation is written.
pub fn form_of(op: Op) -> &'static str {
    match op {
        Op::Imm => "%d = imm #n",
        Op::Mov => "%d = mov %a",
        Op::Add => "%d = add %a, %b",
        Op::Sub => "%d = sub %a, %b",
        Op::And => "%d = and %a, %b",
        Op::Or => "%d = or %a, %b",
        Op::Xor => "%d = xor %a, %b",
        Op::Addi => "%d = addi %a, #n",
        Op::Andi => "%d = andi %a, #n",
        Op::Ori => "%d = ori %a, #n",
        Op::Mpyi => "%d = mpyi %a, %b",
        Op::Asl => "%d = asl %a, #n",
        Op::Asr => "%d = asr %a, #n",
        Op::Lsr => "%d = lsr %a, #n",
        Op::Mux => "%d = mux $p, %a, %b",
        Op::CmpEq => "$d = cmpeq %a, %b",
        Op::CmpGt => "$d = cmpgt %a, %b",
        Op::CmpGtu => "$d = cmpgtu %a, %b",
        Op::CmpEqi => "$d = cmpeqi %a, #n",
        Op::CmpGti => "$d = cmpgti %a, #n",
        Op::Load => "%d = load %a, #n",
        Op::Store => "store %a, #n, %v",
        Op::Call => "%d = call F %a, %b",
        Op::Jump | Op::JumpIf | Op::JumpIfNot | Op::Jumpr | Op::Spill | Op::Reload => "",
        Op::JumpIfNew | Op::JumpIfNotNew => "",
        Op::P2R | Op::R2P | Op::Enter | Op::Leave | Op::Nop => "",
    }
}

/// How a line that begins with this word is written, where the word may begin one or stand behind an equals sign.
pub(crate) fn form_of_head(word: &[u8]) -> &'static str {
    match word {
        b"func" => "func NAME %p %q",
        b"block" => "block LABEL freq N",
        b"jump" => "jump LABEL",
        b"if" => "if $p jump LABEL",
        b"ret" => "ret %v",
        _ => match operation_named(word) {
            Some(op) => form_of(op),
            None => "",
        },
    }
}

/// The operation of this name.
pub(crate) fn operation_named(word: &[u8]) -> Option<Op> {
    OPERATIONS
        .iter()
        .copied()
        .find(|op| source_name(*op) == word)
}

/// The operation that takes a literal where this one takes a name, or the other way round.
pub fn twin(op: Op) -> Option<Op> {
    match op {
        Op::Add => Some(Op::Addi),
        Op::Addi => Some(Op::Add),
        Op::And => Some(Op::Andi),
        Op::Andi => Some(Op::And),
        Op::Or => Some(Op::Ori),
        Op::Ori => Some(Op::Or),
        Op::CmpEq => Some(Op::CmpEqi),
        Op::CmpEqi => Some(Op::CmpEq),
        Op::CmpGt => Some(Op::CmpGti),
        Op::CmpGti => Some(Op::CmpGt),
        Op::Mov => Some(Op::Imm),
        Op::Imm => Some(Op::Mov),
        _ => None,
    }
}

/// What stands for a word of another language.
pub fn stand_in(word: &[u8]) -> Option<&'static str> {
    stand_in_for_arithmetic(word).or(stand_in_for_others(word))
}

/// What stands for a word of arithmetic.
fn stand_in_for_arithmetic(word: &[u8]) -> Option<&'static str> {
    match word {
        b"mul" | b"mpy" | b"muli" | b"imul" => Some("`%d = mpyi %a, %b`"),
        b"subi" => Some("`%d = addi %a, #-n`"),
        b"neg" => Some("`%z = imm #0` and `%d = sub %z, %a`"),
        b"not" | b"inv" => Some("`%m = imm #-1` and `%d = xor %a, %m`"),
        b"xori" => Some("`%m = imm #n` and `%d = xor %a, %m`"),
        b"shl" | b"sll" | b"lsl" => Some("`%d = asl %a, #n`"),
        b"shr" | b"srl" => Some("`%d = lsr %a, #n`"),
        b"sar" | b"sra" | b"ashr" => Some("`%d = asr %a, #n`"),
        b"lshr" => Some("`%d = lsr %a, #n`"),
        b"cmplt" | b"slt" => Some("`$d = cmpgt %b, %a`, with the operands changed round"),
        b"cmpltu" | b"sltu" => Some("`$d = cmpgtu %b, %a`, with the operands changed round"),
        b"cmple" => Some("`$d = cmpgt %a, %b`, and `!$d` in place of `$d`"),
        b"cmpleu" => Some("`$d = cmpgtu %a, %b`, and `!$d` in place of `$d`"),
        b"cmpge" => Some("`$d = cmpgt %b, %a`, and `!$d` in place of `$d`"),
        b"cmpgeu" => Some("`$d = cmpgtu %b, %a`, and `!$d` in place of `$d`"),
        b"cmpne" => Some("`$d = cmpeq %a, %b`, and `!$d` in place of `$d`"),
        b"cmplti" => Some("`$d = cmpgti %a, #m` with m = n - 1, and `!$d` in place of `$d`"),
        b"cmpnei" => Some("`$d = cmpeqi %a, #n`, and `!$d` in place of `$d`"),
        b"div" | b"rem" | b"mod" => Some("a loop or a call: no operation divides"),
        _ => None,
    }
}

/// What stands for another word.
fn stand_in_for_others(word: &[u8]) -> Option<&'static str> {
    match word {
        b"li" | b"const" | b"set" => Some("`%d = imm #n`"),
        b"move" | b"copy" => Some("`%d = mov %a`"),
        b"select" | b"cmov" => Some("`%d = mux $p, %a, %b`"),
        b"ld" | b"lw" | b"ldr" | b"memw" => Some("`%d = load %a, #n`"),
        b"st" | b"sw" | b"str" => Some("`store %a, #n, %v`"),
        b"br" | b"goto" | b"b" | b"jmp" => Some("`jump LABEL`, or `if $p jump LABEL`"),
        b"return" => Some("`ret`, or `ret %v`"),
        b"define" | b"function" | b"fn" | b"def" => Some("`func NAME %p %q`"),
        b"else" => Some(
            "a block behind the `if`: where its predicate does not hold the next block follows",
        ),
        b"label" => Some("`block LABEL freq N`"),
        _ => None,
    }
}
