//! Operands that are brought to registers, one by one and in parallel. A list of pairs has places of the reader's operands, with the
//! registers that they want or the temporaries that they got.

use super::{Trial, place_of};
use crate::facts::{Operand, copy_instruction};
use crate::machine::{NO_NEEDS, RESOURCES};
use crate::packets::Share;
use crate::pairs::{LAST, Pair, Pairs};
use crate::sets::{GENERAL_REGISTERS, PREDICATE_REGISTERS, Space, space_at};
use crate::table::NONE;
use un_ir::extended::MOVE;
use un_isa::packet_counts::PACKET;
use un_isa::reg::FIRST_SLOT;

impl<'a> Trial<'a> {
    /// How late a source is: slots come last.
    fn lateness(&self, t: u32) -> u64 {
        let late = if self.space_of(t) == Space::Slot {
            1u64 << 32
        } else {
            0
        };
        u64::from(self.stays.row(t).available) | late
    }

    /// What an operand's copy reads: the register temporary that is available first, else a slot.
    fn source(&self, x: &Operand) -> u32 {
        let mut best = NONE;
        let mut least = u64::MAX;
        for y in &self.operation(x.copy).operands {
            for t in &y.alternatives {
                if self.is_resident(*t) && self.lateness(*t) < least {
                    best = *t;
                    least = self.lateness(*t);
                }
            }
        }
        best
    }

    /// Brings an operand's value into a register: by u, or by two copies between slots and predicate registers.
    fn bring(&mut self, x: &Operand, register: u32) -> Option<u32> {
        let source = self.source(x);
        if source == NONE {
            return None;
        }
        let from = self.space_of(source);
        if copy_instruction(from, space_at(register)).is_some() {
            return self.copy(x.copy, source, register);
        }
        if from == Space::Predicate {
            let middle = self.to_general(x.value, false)?;
            return self.bring_on(x.copy, middle, register);
        }
        let r = self.take_general(0, NONE, false)?;
        let middle = self.copy(x.copy, source, r)?;
        self.bring_on(x.second_copy, middle, register)
    }

    /// The second of two copies, behind which the first is let go.
    pub(super) fn bring_on(&mut self, copy: u32, middle: u32, register: u32) -> Option<u32> {
        let got = self.copy(copy, middle, register)?;
        self.release(middle);
        Some(got)
    }

    /// Which of an operand's alternatives stands in one of these registers, its place and the temporary: the one that is available
    /// first, the first of them.
    pub(super) fn standing(&self, x: &Operand) -> Option<Pair> {
        let wanted = if self.temporary(x.value).is_predicate {
            PREDICATE_REGISTERS
        } else {
            GENERAL_REGISTERS
        };
        let mut left = self.carried.row(x.value).registers.and(wanted);
        let mut best = None;
        let mut least = LAST;
        for _ in 0..FIRST_SLOT {
            let Some(r) = left.take_least() else {
                break;
            };
            let t = self.occupant.at(r);
            let Some(place) = place_of(x.alternatives.as_slice(), t) else {
                continue;
            };
            let rank = Pair {
                place: self.stays.row(t).available,
                item: place,
            };
            if rank.is_below(least) {
                least = rank;
                best = Some(Pair { place, item: t });
            }
        }
        best
    }

    pub(super) fn take(
        &mut self,
        is_predicate: bool,
        v: u32,
        earliest: u32,
        hint: u32,
    ) -> Option<u32> {
        if is_predicate {
            self.take_predicate(earliest, hint)
        } else {
            self.take_general(earliest, hint, self.wants_kept(v))
        }
    }

    /// The temporary that an operand reads: one that stands in a register, else a new one.
    pub(super) fn acquire(&mut self, x: &Operand, hint: u32) -> Option<u32> {
        if let Some(found) = self.standing(x) {
            return Some(found.item);
        }
        let is_predicate = self.temporary(x.value).is_predicate;
        let source = self.source(x);
        self.lock(source);
        let earliest = self.stays.row(source).available;
        let r = self.take(is_predicate, x.value, earliest, hint)?;
        self.bring(x, r)
    }

    pub(super) fn lock_all(&mut self, got: &Pairs) {
        for i in 0..got.len() {
            self.lock(got.at(i).item);
        }
    }

    /// Whether a value is wanted in another register.
    fn is_wanted(&self, operands: &[Operand], v: u32, register: u32, wanted: &Pairs) -> bool {
        for i in 0..wanted.len() {
            let pair = wanted.at(i);
            if let Some(x) = operands.get(pair.place as usize)
                && x.value == v
                && pair.item != register
            {
                return true;
            }
        }
        false
    }

    /// Whether a register can be filled now, after its occupant was let go where that loses nothing.
    fn vacate(&mut self, register: u32, reader: u32, wanted: &Pairs) -> bool {
        let t = self.occupant.at(register);
        if self.marks.locked.has(register) || t == NONE {
            return !self.marks.locked.has(register);
        }
        let v = self.value_of(t);
        let operands = self.operation(reader).operands.as_slice();
        let is_read_later = reader != self.task.block.output && self.use_behind(v) != NONE;
        let is_used = is_read_later || self.is_wanted(operands, v, register, wanted);
        if self.is_elsewhere(t) || !is_used {
            self.release(t);
        }
        self.occupant.at(register) == NONE
    }

    /// One of the values in the way goes to a free register by its copy d.
    fn break_ring(&mut self, wanted: &Pairs) -> Option<()> {
        let free = self.best_free(self.generals(), 0, NONE);
        for i in 0..wanted.len() {
            let register = wanted.at(i).item;
            let t = self.occupant.at(register);
            let copy = self.temporary(t).copy;
            if self.value_of(t) == t
                && !self.marks.locked.has(register)
                && self.copy_is_left(copy)
            {
                self.copy(copy, t, free)?;
                self.release(t);
                return Some(());
            }
        }
        None
    }

    /// The move that waits for a temporary.
    fn waiting_for(&self, operands: &[Operand], t: u32, wanted: &Pairs) -> Option<Pair> {
        for i in 0..wanted.len() {
            let pair = wanted.at(i);
            let x = operands.get(pair.place as usize)?;
            if place_of(x.alternatives.as_slice(), t).is_some() {
                return Some(pair);
            }
        }
        None
    }

    /// The moves that wait for each other in a ring from the first on, none where it does not close.
    fn ring(&self, operands: &[Operand], wanted: &Pairs) -> Option<Pairs> {
        let mut ring = Pairs::new();
        let first = wanted.at(0);
        let mut register = first.item;
        for _ in 0..PACKET {
            let t = self.occupant.at(register);
            let next = self.waiting_for(operands, t, wanted)?;
            if self.space_of(t) != Space::General || space_at(next.item) != Space::General {
                return None;
            }
            ring.push(next.place, next.item)?;
            register = next.item;
            if next.place == first.place {
                return Some(ring);
            }
        }
        None
    }

    /// What so many moves need of one packet.
    fn moves(&self, count: u32) -> Share {
        let one = self.task.machine.copy(MOVE).needs;
        let factor = u8::try_from(count).unwrap_or(u8::MAX);
        let mut all = NO_NEEDS;
        for k in 0..RESOURCES {
            all[k] = one[k].saturating_mul(factor);
        }
        Share::of(all)
    }

    /// Moves that wait for each other in a ring, as in an exchange of two registers: all issue in one cycle.
    fn rotate(&mut self, operands: &[Operand], ring: &Pairs) -> Option<Pairs> {
        let mut sources = Pairs::new();
        let mut earliest = 1;
        let mut register = ring.at(ring.len().saturating_sub(1)).item;
        for i in 0..ring.len() {
            let t = self.occupant.at(register);
            let stay = self.stays.at(t);
            earliest = earliest.max(stay.available).max(stay.last_read);
            sources.push(ring.at(i).place, t)?;
            register = ring.at(i).item;
        }
        let cycle = self.first_fit(earliest, self.moves(ring.len()));
        for i in 0..sources.len() {
            self.read_at(sources.at(i).item, cycle);
            self.release(sources.at(i).item);
        }
        let mut made = Pairs::new();
        for i in 0..sources.len() {
            let x = operands.get(sources.at(i).place as usize)?;
            let t = self.copy(x.copy, sources.at(i).item, ring.at(i).item)?;
            made.push(sources.at(i).place, t)?;
        }
        Some(made)
    }

    /// The place of the first wanted register that is empty.
    fn first_empty(&self, wanted: &Pairs) -> Option<u32> {
        for i in 0..wanted.len() {
            let register = wanted.at(i).item;
            if self.occupant.at(register) == NONE && !self.marks.locked.has(register) {
                return Some(i);
            }
        }
        None
    }

    /// The place of the first wanted register that can be filled now: an empty one where there is one, since what would be let go
    /// for another may be what others are copied from first.
    fn first_vacant(&mut self, reader: u32, wanted: &Pairs) -> Option<u32> {
        if let Some(i) = self.first_empty(wanted) {
            return Some(i);
        }
        for i in 0..wanted.len() {
            if self.vacate(wanted.at(i).item, reader, wanted) {
                return Some(i);
            }
        }
        None
    }

    /// Brings the wanted operand at a place, whose register can be filled now.
    fn move_one(&mut self, operands: &[Operand], wanted: &mut Pairs, i: u32) -> Option<Pair> {
        let Pair { place, item } = wanted.at(i);
        wanted.remove(i);
        let t = self.bring(operands.get(place as usize)?, item)?;
        self.lock(t);
        Some(Pair { place, item: t })
    }

    /// One round of moves: one operand, or a ring, out of what is wanted, to what was got.
    fn move_some(&mut self, reader: u32, wanted: &mut Pairs, got: &mut Pairs) -> Option<()> {
        let operands = self.operation(reader).operands.as_slice();
        if let Some(i) = self.first_vacant(reader, wanted) {
            let made = self.move_one(operands, wanted, i)?;
            return got.push(made.place, made.item);
        }
        let Some(ring) = self.ring(operands, wanted) else {
            return self.break_ring(wanted);
        };
        let made = self.rotate(operands, &ring)?;
        self.lock_all(&made);
        *wanted = wanted.without(&made)?;
        got.append(&made)
    }

    /// Brings operands of one reader into given registers. Answers the temporaries.
    pub(super) fn move_all(&mut self, reader: u32, targets: &Pairs) -> Option<Pairs> {
        let operands = self.operation(reader).operands.as_slice();
        let mut got = Pairs::new();
        let mut wanted = Pairs::new();
        for i in 0..targets.len() {
            let pair = targets.at(i);
            let t = self.occupant.at(pair.item);
            let x = operands.get(pair.place as usize)?;
            if place_of(x.alternatives.as_slice(), t).is_some() {
                got.push(pair.place, t)?;
            } else {
                wanted.push(pair.place, pair.item)?;
            }
        }
        self.lock_all(&got);
        for _ in 0..targets.len().saturating_mul(2) {
            if wanted.len() == 0 {
                break;
            }
            self.move_some(reader, &mut wanted, &mut got)?;
        }
        if wanted.len() == 0 { Some(got) } else { None }
    }
}
