//! The table of the processor.

ghost use Rattle.std.specs.Prelude.{◌≡◌, slice_get, Some};
ghost use Rattle.un_isa.specs.Tables.{number_of, latency_of, gap_by};
ghost use Rattle.un_isa.specs.Hexagon.{HEXAGON, IsHexagon};
ghost use Rattle.un_isa.specs.Fit.{IsFit};
ghost use Rattle.un_isa.specs.Versions.{IsVersion, table_of};

use crate::does::{is_branch, is_compare};
use crate::op::{OPERATIONS, Op};

/// The last version of reports, which are numbered from 1.
pub const LAST: u8 = 3;

/// How many of each resource of a packet an instruction takes.
#[derive(Clone, Copy)]
pub struct Needs {
    /// How many of the two places for loads and stores together.
    pub mem: u8,
    /// How many of the one place for stores.
    pub store: u8,
    /// How many of the two places for multiplications, shifts, predicate moves and control transfers together.
    pub xc: u8,
    /// How many of the one place for control transfers.
    pub control: u8,
}

/// Latencies, resources and the calling convention. Bit i of a mask stands for register i.
#[derive(Clone, Copy)]
pub struct Table {
    /// The latency of each operation, in cycles, by its number.
    pub lat: [u8; OPERATIONS],
    /// What each operation needs of a packet, by its number.
    pub uses: [Needs; OPERATIONS],
    /// The registers that a call writes.
    pub clobbered: u64,
    /// The registers of a call's arguments, in order.
    pub args: [u8; 6],
    /// The register of a call's result.
    pub result: u8,
    /// The registers that a function keeps.
    pub saved: u64,
    /// Whether a jump may test what a compare of its own packet writes.
    pub fresh: bool,
}

/// What an instruction of ALU32, and Nop, needs of a packet.
const ALU: Needs = Needs {
    mem: 0,
    store: 0,
    xc: 0,
    control: 0,
};

/// What one of XTYPE needs.
const XTYPE: Needs = Needs {
    mem: 0,
    store: 0,
    xc: 1,
    control: 0,
};

/// What a load needs.
const LOAD: Needs = Needs {
    mem: 1,
    store: 0,
    xc: 0,
    control: 0,
};

/// What a store needs.
const STORE: Needs = Needs {
    mem: 1,
    store: 1,
    xc: 0,
    control: 0,
};

/// What a control transfer needs.
const CONTROL: Needs = Needs {
    mem: 0,
    store: 0,
    xc: 1,
    control: 1,
};

/// The latency of each operation: 2 cycles for Load, Reload and Mpyi, and 1 for all others.
fn latencies() -> [u8; OPERATIONS]
    ensures { result ≡ HEXAGON.lat }
{
    let mut lat = [1; OPERATIONS];
    lat[Op::Load as usize] = 2;
    lat[Op::Reload as usize] = 2;
    lat[Op::Mpyi as usize] = 2;
    lat
}

/// What each operation needs of a packet: what those of its class do.
fn shares() -> [Needs; OPERATIONS]
    ensures { result ≡ HEXAGON.uses }
{
    let mut uses = [ALU; OPERATIONS];
    uses[Op::Load as usize] = LOAD;
    uses[Op::Reload as usize] = LOAD;
    uses[Op::Store as usize] = STORE;
    uses[Op::Spill as usize] = STORE;
    uses[Op::Mpyi as usize] = XTYPE;
    uses[Op::Asl as usize] = XTYPE;
    uses[Op::Asr as usize] = XTYPE;
    uses[Op::Lsr as usize] = XTYPE;
    uses[Op::P2R as usize] = XTYPE;
    uses[Op::R2P as usize] = XTYPE;
    uses[Op::Call as usize] = CONTROL;
    uses[Op::Jump as usize] = CONTROL;
    uses[Op::JumpIf as usize] = CONTROL;
    uses[Op::JumpIfNot as usize] = CONTROL;
    uses[Op::Jumpr as usize] = CONTROL;
    uses[Op::JumpIfNew as usize] = CONTROL;
    uses[Op::JumpIfNotNew as usize] = CONTROL;
    uses
}

/// The table of this project's profile of Hexagon V4: 2 cycles for Load, Reload and Mpyi, and 1 for all others. A call
/// clobbers r0 to r15, r28, r31 and p0 to p3, its arguments are in r0 to r5 and its result in r0; a function keeps r16 to
/// r27. A jump tests predicates of earlier packets alone.
pub fn hexagon() -> Table
    ensures table { result ≡ HEXAGON }
    ensures entries { IsHexagon result }
    ensures fit { IsFit result }
{
    Table {
        lat: latencies(),
        uses: shares(),
        clobbered: 0xF_9000_FFFF,
        args: [0, 1, 2, 3, 4, 5],
        result: 0,
        saved: 0x0FFF_0000,
        fresh: false,
    }
}

/// The table that reports of a version are judged by: from version 3 on a jump may test what a compare of its own packet writes.
pub fn table_of(version: u8) -> Table
    requires { IsVersion version }
    ensures is { result ≡ table_of version }
    ensures fit { IsFit result }
{
    let table = hexagon();
    if version == 3 {
        Table {
            fresh: true,
            ..table
        }
    } else {
        table
    }
}

/// The latency of an operation, in cycles: a register that it writes in cycle c can be read from cycle c + latency on.
pub fn latency(t: &Table, op: Op) -> u32
    ensures { result ≡ latency_of t.now op }
{
    t.lat[op as usize] as u32
}

/// How many cycles after an instruction another one, which reads what the first writes, may issue: the latency of the first, but
/// none where the table lets a jump test what a compare of its own packet writes, and these are such.
pub fn gap(t: &Table, definer: Op, user: Op) -> u32
    ensures { result ≡ gap_by t.now definer user }
{
    if is_branch(user) && is_compare(definer) && t.fresh {
        0
    } else {
        latency(t, definer)
    }
}

/// What an operation needs of a packet.
pub fn uses(t: &Table, op: Op) -> Needs
    ensures { slice_get t.now.uses (number_of op) ≡ Some result }
{
    t.uses[op as usize]
}
