//! Which line of a listing stands at its place.

ghost use Rattle.std.specs.Prelude.{◌≡◌, ◌≢◌, ℕ, List, [], ◌∷◌, ◌++◌, ◌+◌, ◌<◌, ◌↔◌, IsTrue, IfOk, OnOk, Option, All, Contains};
ghost use Rattle.un_packet.specs.CodeRules.{transfers, leaves, LeadsToOneOf};
ghost use Rattle.un_listing_reader.specs.Reading.{goes_on, BlockStands, PacketStands, Stands, LineValue};
ghost use Rattle.un_listing_reader.specs.LabelSets.{SameLabels, IsBefore};

use crate::labels::{Before, Labels};
use crate::line::Line;
use un_base::memory_error::NoMemory;
use un_base::name::Name;
use un_isa::does::{is_jump, is_leaving, is_transfer};
use un_isa::instr::Instr;
use un_packet::code::{BLOCKS, PACKETS, Packet};

/// Whether an instruction of the packet leaves the block.
fn transfers(packet: &Packet) -> bool
    ensures { result ≡ transfers packet.now }
{
    packet.instrs.as_slice().iter().any(|i| is_transfer(i.op))
}

/// Whether one leaves it always.
fn leaves(packet: &Packet) -> bool
    ensures { result ≡ leaves packet.now }
{
    packet.instrs.as_slice().iter().any(|i| is_leaving(i.op))
}

/// Whether a packet comes next, also one that breaks a rule.
fn goes_on(after: &[Option<Line>]) -> bool
    ensures { result ≡ goes_on after.now }
{
    match after {
        [Some(Line::Packet(_)), ..] => true,
        [Some(Line::Broken), ..] => true,
        _ => false,
    }
}

/// Whether the instruction jumps to one of the labels, where it jumps.
fn leads(labels: &Labels, i: &Instr) -> bool
    ensures { (all : List (List ℕ)) → SameLabels labels.now all → (IsTrue result ↔ LeadsToOneOf all i.now) }
{
    if !is_jump(i.op) {
        return true;
    }
    match &i.label {
        Some(label) => labels.has(label),
        None => false,
    }
}

/// Whether each jumps to one of the labels, where it jumps.
fn all_lead(labels: &Labels, instrs: &[Instr]) -> bool
    ensures { (all : List (List ℕ)) → SameLabels labels.now all → (IsTrue result ↔ All (LeadsToOneOf all) instrs.now) }
{
    for i in instrs {
        if !leads(labels, i) {
            return false;
        }
    }
    true
}

/// Whether the line of a label stands, behind these lines and with others after it where it is not the last.
fn block_stands(before: &Before, is_last: bool, label: &Name) -> bool
    ensures { (lines after : List (Option LineValue)) → IsBefore before.now lines → (IsTrue is_last ↔ (after ≡ []))
        → (IsTrue result ↔ BlockStands lines after label.now) }
{
    if is_last {
        return false;
    }
    if before.blocks >= BLOCKS - 1 {
        return false;
    }
    !before.labels.has(label)
}

/// Whether the line of a packet stands, behind these lines.
fn packet_stands(labels: &Labels, before: &Before, after: &[Option<Line>], packet: &Packet) -> bool
    ensures { (all : List (List ℕ)) (lines : List (Option LineValue)) → SameLabels labels.now all → IsBefore before.now lines
        → (IsTrue result ↔ PacketStands all lines after.now packet.now) }
{
    if !before.some || before.packets >= PACKETS - 1 {
        return false;
    }
    if transfers(packet) && goes_on(after) {
        return false;
    }
    if after.is_empty() && !leaves(packet) {
        return false;
    }
    all_lead(labels, packet.instrs.as_slice())
}

/// Whether a line that spells something stands behind these lines and before those.

fn line_stands(labels: &Labels, before: &Before, line: &Line, after: &[Option<Line>]) -> bool
    ensures { (all : List (List ℕ)) (lines : List (Option LineValue)) → SameLabels labels.now all → IsBefore before.now lines
        → (IsTrue result ↔ Stands all lines (Some line.now) after.now) }
{
    match line {
        Line::Block(label) => block_stands(before, after.is_empty(), label),
        Line::Packet(packet) => packet_stands(labels, before, after, packet),
        Line::Broken => false,
    }
}

/// Whether a line stands behind these lines and before those.
pub fn stands(labels: &Labels, before: &Before, line: &Option<Line>, after: &[Option<Line>]) -> bool
    ensures { (all : List (List ℕ)) (lines : List (Option LineValue)) → SameLabels labels.now all → IsBefore before.now lines
        → (IsTrue result ↔ Stands all lines line.now after.now) }
{
    match line {
        None => false,
        Some(line) => line_stands(labels, before, line, after),
    }
}
