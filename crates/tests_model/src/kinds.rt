//! A propagator of each kind.

use std::alloc::{AllocError, Global};
use un_alt::frame::{FrameLeave, FrameOp, FrameUse};
use un_alt::span::Span;
use un_base::ids::VarId;
use un_base::memory_error::NoMemory;
use un_counted::counted::LeastEnd;
use un_isa::reg::Reg;
use un_isa::table::Needs;
use un_kinds::any::AnyProp;
use un_kinds::make_alt::{
    FrameFields, make_chosen, make_frame, make_home, make_same, make_spaces, make_zeros,
};
use un_kinds::make_counted::make_counted;
use un_kinds::make_prec::{make_before, make_below, make_inside, make_last, make_reads};
use un_kinds::make_press::{make_across, make_live};
use un_kinds::make_rect::{OperandFields, make_apart, make_clobber, make_operands};
use un_kinds::make_slots::make_per_cycle;
use un_lists::items::Items;
use un_prec::below::Weighted;
use un_prec::reads::ReadAlt;
use un_press::live;
use un_prop::act::{Act, At, Temp, UserOf};
use un_rect::clobber::ClobberCall;
use un_slots::item::Item;

/// The list of some items.
fn list<T: Copy>(alloc: Global, items: &[T]) -> Result<Items<T>, AllocError> {
    let items = Vec::from_slice(alloc, items)?;
    Ok(Items::from_vec(items))
}

/// The list of one item.
fn alone<T: Drop>(alloc: Global, item: T) -> Result<Items<T>, AllocError> {
    let mut items = Items::new(alloc);
    items.push(item)?;
    Ok(items)
}

/// The list of two items.
fn both<T: Drop>(alloc: Global, first: T, second: T) -> Result<Items<T>, AllocError> {
    let mut items = alone(alloc, first)?;
    items.push(second)?;
    Ok(items)
}

/// Two variables.
fn variables(alloc: Global, first: u32, second: u32) -> Result<Items<VarId>, AllocError> {
    list(alloc, &[VarId(first), VarId(second)])
}

/// The cost of two ends, of blocks that are run 3 and 10 times, under the limit 50.
fn cost(alloc: Global) -> Result<AnyProp, NoMemory> {
    let first = Weighted {
        end: VarId(0),
        freq: 3,
    };
    let second = Weighted {
        end: VarId(1),
        freq: 10,
    };
    let ends = list(alloc, &[first, second])?;
    make_below(alloc, ends, 50)
}

/// A row of two ends that are at least so great, of blocks that are run 3 and 10 times.
fn row(alloc: Global, first: u32, second: u32) -> Result<Items<LeastEnd>, AllocError> {
    let first = LeastEnd {
        end: VarId(0),
        freq: 3,
        least: first,
    };
    let second = LeastEnd {
        end: VarId(1),
        freq: 10,
        least: second,
    };
    list(alloc, &[first, second])
}

/// Two rows under the limit 50: 4 and 2, and 2 and 5.
fn rows(alloc: Global) -> Result<AnyProp, NoMemory> {
    let first = row(alloc, 4, 2)?;
    let second = row(alloc, 2, 5)?;
    let rows = both(alloc, first, second)?;
    make_counted(alloc, rows, 50)
}

/// A definer with its gaps.
fn definer(alloc: Global, at: u32, on: Act, gaps: &[u32]) -> Result<ReadAlt, AllocError> {
    let gaps = list(alloc, gaps)?;
    let at = At::Var(VarId(at));
    Ok(ReadAlt { at, on, gaps })
}

/// Reads of a value by a definer that is always active, with the gap 1, and by one with the gaps 1 and 2.
fn reads(alloc: Global) -> Result<AnyProp, NoMemory> {
    let first = definer(alloc, 3, Act::Always, &[0, 1])?;
    let second = definer(alloc, 4, Act::Var(VarId(5)), &[0, 1, 2])?;
    let alts = both(alloc, first, second)?;
    let user = At::Var(VarId(0));
    make_reads(alloc, user, Act::Var(VarId(1)), VarId(2), alts)
}

/// The choice of a definer.
fn definers(alloc: Global) -> Result<AnyProp, NoMemory> {
    let alts = list(alloc, &[Act::Always, Act::Var(VarId(2))])?;
    make_chosen(alloc, Act::Var(VarId(0)), VarId(1), alts)
}

/// The other variables of an inactive operation.
fn zeros(alloc: Global) -> Result<AnyProp, NoMemory> {
    let others = variables(alloc, 1, 2)?;
    make_zeros(alloc, VarId(0), others)
}

/// The registers of each number: none, two registers, two slots.
fn register_sets(alloc: Global) -> Result<Items<Span>, AllocError> {
    let mut sets = Items::new(alloc);
    sets.push(Span::new(0, 0))?;
    sets.push(Span::new(1, 2))?;
    sets.push(Span::new(36, 2))?;
    Ok(sets)
}

/// The registers of an instruction.
fn spaces(alloc: Global) -> Result<AnyProp, NoMemory> {
    let sets = register_sets(alloc)?;
    let regs = variables(alloc, 2, 3)?;
    make_spaces(alloc, Act::Var(VarId(0)), Some(VarId(1)), regs, sets)
}

/// A register that is chosen.
fn moves(alloc: Global) -> Result<AnyProp, NoMemory> {
    let regs = variables(alloc, 1, 2)?;
    make_same(alloc, VarId(0), regs, VarId(3))
}

/// A given register, which is r3.
fn home(alloc: Global) -> Result<AnyProp, NoMemory> {
    let regs = variables(alloc, 1, 2)?;
    make_home(alloc, Some(VarId(0)), regs, Reg(3))
}

/// A copy that accesses the frame where it is a Spill or a Reload.
fn copy() -> FrameUse {
    FrameUse {
        instr: Act::Var(VarId(1)),
        least: 2,
        most: 3,
        at: VarId(5),
    }
}

/// A Leave in a block with a copy and a call.
fn leave(alloc: Global) -> Result<FrameLeave, AllocError> {
    let calls = list(alloc, &[VarId(8)])?;
    let copies = alone(alloc, copy())?;
    let leave = FrameOp {
        instr: VarId(6),
        at: VarId(7),
    };
    Ok(FrameLeave {
        leave,
        copies,
        calls,
    })
}

/// A frame with these Leaves, of a whole function with this Enter, or of a part without one.
fn frame_of(
    alloc: Global,
    enter: Option<FrameOp>,
    leaves: Items<FrameLeave>,
) -> Result<AnyProp, NoMemory> {
    let touch = list(alloc, &[VarId(1)])?;
    let ins = list(alloc, &[VarId(2)])?;
    let entry = alone(alloc, copy())?;
    let fields = FrameFields {
        is_whole: enter.is_some(),
        flag: VarId(0),
        touch,
        ins,
        enter,
        entry,
        leaves,
    };
    make_frame(alloc, fields)
}

/// A frame with one Leave, and with this Enter, where there is one.
fn frame(alloc: Global, enter: Option<FrameOp>) -> Result<AnyProp, NoMemory> {
    let leave = leave(alloc)?;
    let leaves = alone(alloc, leave)?;
    frame_of(alloc, enter, leaves)
}

/// A frame of a whole function.
fn whole_frame(alloc: Global) -> Result<AnyProp, NoMemory> {
    let enter = FrameOp {
        instr: VarId(3),
        at: VarId(4),
    };
    frame(alloc, Some(enter))
}

/// A user that is always active and has no choice.
fn plain(at: At) -> UserOf {
    UserOf {
        on: Act::Always,
        at,
        choice: None,
        value: 0,
    }
}

/// A user that chooses by a variable, and reads where its choice is `value`.
fn choosing(on: Act, at: u32, choice: u32, value: u32) -> UserOf {
    UserOf {
        on,
        at: At::Var(VarId(at)),
        choice: Some(VarId(choice)),
        value,
    }
}

/// A temporary with its users.
fn temp(alloc: Global, on: Act, at: At, reg: u32, users: &[UserOf]) -> Result<Temp, AllocError> {
    let users = list(alloc, users)?;
    let reg = VarId(reg);
    Ok(Temp { on, at, reg, users })
}

/// Adds a temporary.
fn add_temp(
    alloc: Global,
    temps: &mut Items<Temp>,
    on: Act,
    at: At,
    reg: u32,
    users: &[UserOf],
) -> Result<(), AllocError> {
    let temp = temp(alloc, on, at, reg, users)?;
    temps.push(temp)
}

/// Adds two temporaries with a user each.
fn add_two(alloc: Global, temps: &mut Items<Temp>) -> Result<(), AllocError> {
    let user = plain(At::Var(VarId(3)));
    let other = plain(At::Var(VarId(7)));
    let (first, second) = (Act::Var(VarId(1)), Act::Var(VarId(5)));
    add_temp(alloc, temps, first, At::Var(VarId(0)), 2, &[user])?;
    add_temp(alloc, temps, second, At::Var(VarId(4)), 6, &[other])
}

/// The propagator of both.
fn two(alloc: Global) -> Result<AnyProp, NoMemory> {
    let mut temps = Items::new(alloc);
    add_two(alloc, &mut temps)?;
    make_apart(alloc, temps)
}

/// Adds a value, which its spill, its reload and its user read, and its slot, which the reload and the user read.
fn add_saved(alloc: Global, temps: &mut Items<Temp>) -> Result<(), AllocError> {
    let spill = UserOf {
        on: Act::Var(VarId(2)),
        at: At::Var(VarId(3)),
        choice: None,
        value: 0,
    };
    let reload = Act::Var(VarId(5));
    let users = [
        spill,
        choosing(reload, 6, 7, 0),
        choosing(Act::Always, 9, 10, 0),
    ];
    add_temp(alloc, temps, Act::Always, At::Var(VarId(0)), 1, &users)?;
    let users = [choosing(reload, 6, 7, 1), choosing(Act::Always, 9, 10, 1)];
    add_temp(
        alloc,
        temps,
        Act::Var(VarId(2)),
        At::Var(VarId(3)),
        4,
        &users,
    )
}

/// Adds what is reloaded, which the user reads, and another temporary from 4 to 7.
fn add_others(alloc: Global, temps: &mut Items<Temp>) -> Result<(), AllocError> {
    let user = choosing(Act::Always, 9, 10, 2);
    let other = plain(At::Const(7));
    add_temp(
        alloc,
        temps,
        Act::Var(VarId(5)),
        At::Var(VarId(6)),
        8,
        &[user],
    )?;
    add_temp(alloc, temps, Act::Always, At::Const(4), 11, &[other])
}

/// The propagator of these four.
fn values(alloc: Global) -> Result<AnyProp, NoMemory> {
    let mut temps = Items::new(alloc);
    add_saved(alloc, &mut temps)?;
    add_others(alloc, &mut temps)?;
    make_apart(alloc, temps)
}

/// Two registers of an operand, and the set of which it has them.
fn operand(alloc: Global, choice: u32, set: &[u32]) -> Result<OperandFields, AllocError> {
    let regs = variables(alloc, choice.saturating_add(1), choice.saturating_add(2))?;
    let allowed = list(alloc, set)?;
    let choice = VarId(choice);
    Ok(OperandFields {
        choice,
        regs,
        allowed,
    })
}

/// An operand that may have r1, r2 and r3, and one that may have r2, r3 and r4.
fn operands(alloc: Global) -> Result<AnyProp, NoMemory> {
    let first = operand(alloc, 0, &[1, 2, 3])?;
    let second = operand(alloc, 3, &[2, 3, 4])?;
    make_operands(alloc, first, second)
}

/// A call that is after a temporary and before a user.
fn call(alloc: Global, at: u32, user: UserOf) -> Result<ClobberCall, AllocError> {
    let behind = list(alloc, &[user])?;
    Ok(ClobberCall {
        at: VarId(at),
        before: true,
        behind,
    })
}

/// Calls: the first before a copy, and the second before a user.
fn calls(alloc: Global, copy: UserOf, user: UserOf) -> Result<Items<ClobberCall>, AllocError> {
    let first = call(alloc, 7, copy)?;
    let second = call(alloc, 8, user)?;
    both(alloc, first, second)
}

/// A temporary across two calls: a copy reads it, a user that may choose it, and one that reads nothing else.
fn across(alloc: Global) -> Result<AnyProp, NoMemory> {
    let copy = UserOf {
        on: Act::Var(VarId(3)),
        at: At::Var(VarId(4)),
        choice: None,
        value: 0,
    };
    let user = choosing(Act::Always, 5, 6, 1);
    let users = [copy, user, plain(At::Var(VarId(9)))];
    let calls = calls(alloc, copy, user)?;
    let temp = temp(alloc, Act::Var(VarId(1)), At::Var(VarId(0)), 2, &users)?;
    make_clobber(alloc, 0xFF, temp, calls)
}

/// What an instruction needs of the places for memory, for stores, and for control transfers, which are also of those for
/// multiplications.
fn needs(mem: u8, store: u8, control: u8) -> Needs {
    Needs {
        mem,
        store,
        xc: control,
        control,
    }
}

/// Adds an operation with these needs for its numbers.
fn add_item(
    alloc: Global,
    items: &mut Items<Item>,
    on: Act,
    at: u32,
    uses: &[Needs],
) -> Result<(), AllocError> {
    let uses = list(alloc, uses)?;
    let at = VarId(at);
    items.push(Item { on, at, uses })
}

/// Adds a load, a store and a control transfer.
fn add_fixed(alloc: Global, items: &mut Items<Item>) -> Result<(), AllocError> {
    let load = [needs(0, 0, 0), needs(1, 0, 0)];
    let store = [needs(0, 0, 0), needs(1, 1, 0)];
    let jump = [needs(0, 0, 0), needs(0, 0, 1)];
    add_item(alloc, items, Act::Always, 0, &load)?;
    add_item(alloc, items, Act::Always, 1, &store)?;
    add_item(alloc, items, Act::Always, 2, &jump)
}

/// Adds a store or nothing of memory, and a copy that may be a move, a store or a load.
fn add_open(alloc: Global, items: &mut Items<Item>) -> Result<(), AllocError> {
    let none = needs(0, 0, 0);
    let store = needs(1, 1, 0);
    let either = [none, store, none];
    let copy = [none, none, store, needs(1, 0, 0)];
    add_item(alloc, items, Act::Var(VarId(4)), 3, &either)?;
    add_item(alloc, items, Act::Var(VarId(6)), 5, &copy)
}

/// All of these, before cycle 8.
fn packets(alloc: Global) -> Result<AnyProp, NoMemory> {
    let mut items = Items::new(alloc);
    add_fixed(alloc, &mut items)?;
    add_open(alloc, &mut items)?;
    make_per_cycle(alloc, items, 8)
}

/// Adds a value with these uses.
fn add_value(
    alloc: Global,
    values: &mut Items<live::Span>,
    def: At,
    uses: &[At],
) -> Result<(), AllocError> {
    let uses = list(alloc, uses)?;
    values.push(live::Span { def, uses })
}

/// Three values before cycle 8, of which there is room for two: one from a block's start that is read at the second time, one from the
/// first time on that is read at the second and at the third, and one from the third time on that is read at the fourth.
fn pressed(alloc: Global) -> Result<AnyProp, NoMemory> {
    let mut values = Items::new(alloc);
    let second = At::Var(VarId(1));
    let third = At::Var(VarId(2));
    add_value(alloc, &mut values, At::Const(0), &[second])?;
    add_value(alloc, &mut values, At::Var(VarId(0)), &[second, third])?;
    add_value(alloc, &mut values, third, &[At::Var(VarId(3))])?;
    make_live(alloc, values, 2, 8)
}

/// The propagator of a kind, by the first letter of its word.
pub(crate) fn prop(alloc: Global, kind: &[u8]) -> Result<AnyProp, NoMemory> {
    let first = At::Var(VarId(0));
    let on = Act::Var(VarId(1));
    match kind.first() {
        Some(b'b') => make_before(alloc, first, on, At::Var(VarId(2)), Act::Var(VarId(3)), 2),
        Some(b'i') => make_inside(alloc, VarId(0), on, VarId(2)),
        Some(b'l') => make_last(alloc, VarId(0), VarId(1)),
        Some(b'c') => cost(alloc),
        Some(b'r') => reads(alloc),
        Some(b'd') => definers(alloc),
        Some(b'z') => zeros(alloc),
        Some(b's') => spaces(alloc),
        Some(b'm') => moves(alloc),
        Some(b'h') => home(alloc),
        Some(b'f') => whole_frame(alloc),
        Some(b'u') => frame(alloc, None),
        Some(b't') => two(alloc),
        Some(b'v') => values(alloc),
        Some(b'o') => operands(alloc),
        Some(b'a') => across(alloc),
        Some(b'e') => pressed(alloc),
        Some(b'j') => rows(alloc),
        Some(b'n') => make_across(alloc, VarId(0), 13, 12),
        Some(b'w') => make_across(alloc, VarId(0), 12, 12),
        _ => packets(alloc),
    }
}
